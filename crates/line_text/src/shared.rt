//! Words that lines and views share, for texts of any room.
#![tactic(auto, using(ttp_base::proofs::Room::room))]

ghost use Rattle.std.specs.Prelude.{◌≡◌, ◌+◌, ◌≤◌, ◌++◌, length};
ghost use Rattle.ttp_world.specs.Trace.{number_or_dash, ack_word, host_head, source_word};

use ttp_base::Text;
use ttp_world::{Ack, Source};

/// Adds a number, or a dash where there is none.
pub fn put_number_or_dash<const ROOM: usize>(line: &mut Text<ROOM>, number: Option<u64>)
    requires { length line.old + 20 ≤ ROOM }
    ensures text { line.new ≡ line.old ++ number_or_dash number }
    ensures short { length line.new ≤ length line.old + 20 }
{
    match number {
        Some(number) => line.put_number(number),
        None => line.put_text("-"),
    }
}

/// Adds the word for an acknowledgement.
pub fn put_ack_word<const ROOM: usize>(line: &mut Text<ROOM>, ack: Ack)
    requires { length line.old + 30 ≤ ROOM }
    ensures text { line.new ≡ line.old ++ ack_word ack }
    ensures short { length line.new ≤ length line.old + 30 }
{
    match ack {
        Ack::Closed => line.put_text("none"),
        Ack::First => line.put_text("first"),
        Ack::Doubt(successor) => {
            line.put_text("doubt:");
            line.put_number(u64::from(successor));
        }
    }
}

/// Adds the name of a source.
pub fn put_source<const ROOM: usize>(line: &mut Text<ROOM>, source: Source)
    requires { length line.old + 20 ≤ ROOM }
    ensures text { line.new ≡ line.old ++ source_word source }
    ensures short { length line.new ≤ length line.old + 6 }
{
    match source {
        Source::Status => line.put_text("status"),
        Source::Node(node) => line.put_number(u64::from(node)),
    }
}

/// Adds how each line of a host begins.
#[tactic(auto, using(ttp_base::proofs::Room::room, ttp_base::proofs::Room::decimal_of_slot))]
pub fn put_host<const ROOM: usize>(line: &mut Text<ROOM>, slot: u32, host: u8)
    requires { length line.old + 60 ≤ ROOM }
    ensures text { line.new ≡ line.old ++ host_head slot host }
    ensures short { length line.new ≤ length line.old + 24 }
{
    line.put_text("slot ");
    line.put_number(u64::from(slot));
    line.put_text(" host ");
    line.put_number(u64::from(host));
}
