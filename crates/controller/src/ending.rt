//! How a slot ends for a node: the entry that it makes, and what it hands to its host.
ghost use Rattle.std.specs.Prelude.{◌≡◌, ◌<◌, length};
ghost use Rattle.ttp_world.specs.Medl.{IsValid};
ghost use Rattle.controller.specs.Ending.{EndsAs};
ghost use Rattle.controller.specs.Hearing.{ReadingFits};
ghost use Rattle.controller.specs.KnownFrames.{AreKnownOf};
ghost use Rattle.controller.specs.Within.{IsPastWithin};

use crate::hearing::{
    Reading, deliver, judged_entry, judging, listening_entry, receiver_of, take_away,
};
use crate::known_frames::KnownFrames;
use crate::node::Node;
use medium::Arrival;
use ttp_world::{Act, Delivered, Entry, Medl};

// The slot of another node, which an active node judges.
#[inline(always)]
fn judged(
    list: &Medl,
    k: u8,
    node: &Node,
    reading: &Reading,
    a: &Arrival,
    b: &Arrival,
    known: &mut KnownFrames,
    delivered: &mut Option<Delivered>,
) -> Entry
    requires valid { IsValid list.now }
    requires node { k < length list.now.slots }
    requires within { IsPastWithin list.now k node.now }
    requires a { ReadingFits reading.now.own a.now reading.now.error }
    requires b { ReadingFits reading.now.own b.now reading.now.error }
    requires known { AreKnownOf list.now a.now b.now known.old }
    ensures keeps { known.new ≡ known.old }
    ensures ends { EndsAs result delivered.new list.now k node.now Act.Judge None a.now b.now
        reading.now.own reading.now.error }
{
    let receiver = receiver_of(list, k, node);
    let judgement = judging(list, &receiver, reading, a, b, known);
    deliver(list, &receiver, &judgement, a, b, delivered);
    judged_entry(receiver.coming.sender(), &judgement)
}

/// How a slot ends for node k, by what it does in it and by what came on both channels: its entry is
/// the answer, and what it hands to its host is written in place. `message` is that of its own frame,
/// if that carries one.
#[inline(always)]
pub(crate) fn ending_of(
    list: &Medl,
    k: u8,
    node: &Node,
    act: Act,
    message: Option<u64>,
    reading: &Reading,
    a: &Arrival,
    b: &Arrival,
    known: &mut KnownFrames,
    delivered: &mut Option<Delivered>,
) -> Entry
    requires valid { IsValid list.now }
    requires node { k < length list.now.slots }
    requires within { IsPastWithin list.now k node.now }
    requires a { ReadingFits reading.now.own a.now reading.now.error }
    requires b { ReadingFits reading.now.own b.now reading.now.error }
    requires known { AreKnownOf list.now a.now b.now known.old }
    ensures keeps { known.new ≡ known.old }
    ensures ends { EndsAs result delivered.new list.now k node.now act message a.now b.now
        reading.now.own reading.now.error }
{
    take_away(delivered);
    match act {
        Act::Off => Entry::Off,
        Act::Gone => Entry::Gone,
        Act::Start => Entry::Started,
        Act::Retry => Entry::Retried,
        Act::Leave(reason) => Entry::Left { reason, peer: k },
        Act::Send => Entry::Sent { message },
        Act::Listen => listening_entry(list, reading, a, b),
        Act::Judge => judged(list, k, node, reading, a, b, known, delivered),
    }
}
