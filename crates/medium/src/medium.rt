//! The two channels in one slot.
ghost use Rattle.std.specs.Prelude.{◌≡◌, ℕ, IsOk, IfOk};
ghost use Rattle.ttp_world.specs.declared.script.Channel.{Channel};
ghost use Rattle.ttp_world.specs.declared.script.Script.{Script};
ghost use Rattle.ttp_world.specs.Script.{incidents_of, flipped_bits, bits_on};
ghost use Rattle.medium.specs.StandsFor.{StandsAtBeginning, StandsAfterPut, ShowsCarried, ShowsHeard, sent_by};

use crate::arrival::{Arrival, received};
use crate::channel_state::{ChannelState, Sent};
use crate::outgoing::Outgoing;
use std::alloc::Global;
use std::marker::Model;
use ttp_base::Memory;
use ttp_world::{Channel, FlippedBit, Incidents, Medl, Script};

/// The two channels of the bus in one slot, which contracts see as the slot and what is on each.
///
/// Each channel has a buffer of 256 bytes. They lie in the value itself: a cluster has one medium,
/// which it seldom moves, and so the medium takes no memory at all.
#[derive(Drop)]
pub struct Medium {
    slot: u32,
    a: ChannelState,
    b: ChannelState,
}

impl Model for Medium {
    ghost use Rattle.medium.specs.Carried.{Carried};

    ghost Value = { Carried };

    ghost view = { λ m. record { slot = m.slot; a = m.a; b = m.b } };
}

// The bits that are flipped in a node's frame. Where there are none, which the incidents say, they are
// not looked for.
fn flips_of<'a>(script: &'a Script, incidents: &Incidents, node: u8, slot: u32) -> &'a [FlippedBit]
    requires { incidents.now ≡ incidents_of script.now node slot }
    ensures { (c : Channel) → bits_on c result.now ≡ flipped_bits script.now node c slot }
{
    if incidents.has_flip {
        script.flips(node, slot)
    } else {
        &[]
    }
}

impl Medium {
    /// A medium at the beginning of slot 0, for a list of any length. It takes no memory, and is
    /// never refused.
    pub fn new(_alloc: Global, _list: &Medl) -> Result<Medium, Memory>
        ensures made { IsOk result }
        ensures stands { IfOk result (λ medium. StandsAtBeginning medium 0) }
    {
        Ok(Medium {
            slot: 0,
            a: ChannelState::silent(),
            b: ChannelState::silent(),
        })
    }

    /// Begins a slot, in which nothing was sent yet. It costs the same few steps whatever was put
    /// before.
    pub fn begin(&mut self, slot: u32)
        ensures { StandsAtBeginning self.new slot }
    {
        self.slot = slot;
        self.a.clear();
        self.b.clear();
    }

    /// The slot that was begun last.
    pub fn slot(&self) -> u32
        ensures { result ≡ self.now.slot }
    {
        self.slot
    }

    /// Puts the frame that a node sends in this slot on both channels, as the script's faults and
    /// flips of the node leave it there. `incidents` are what the script says of the node in this
    /// slot, and `offset` is how far the node's clock is ahead, in microticks. Each node is to be put
    /// once in a slot: a second frame of it counts as another node's, and of a second offset nothing
    /// is promised.
    ///
    /// A flip of a bit past the frame's end has no effect. One of the first byte would have its
    /// effect, but no valid script has any.
    ///
    /// It costs for each channel that was silent a copy of the frame, and a look-up in the script
    /// only where bits are flipped.
    pub fn put(
        &mut self,
        script: &Script,
        incidents: &Incidents,
        node: u8,
        frame: &Outgoing,
        offset: i64,
    )
        requires { incidents.now ≡ incidents_of script.now node self.old.slot }
        ensures { StandsAfterPut self.old self.new script.now (sent_by node frame.now) offset }
    {
        let sent = Sent {
            sender: node,
            frame,
            offset,
            incidents: *incidents,
            flips: flips_of(script, incidents, node, self.slot),
        };
        self.a.put(&sent, Channel::A);
        self.b.put(&sent, Channel::B);
    }

    /// Becomes a copy of another medium. It costs the bytes of the frames that are there.
    pub fn copy_from(&mut self, other: &Medium)
        ensures { self.new ≡ other.now }
    {
        self.slot = other.slot;
        self.a.copy(&other.a);
        self.b.copy(&other.b);
    }

    /// What is on a channel in this slot, for a receiver without faults.
    pub fn carried(&self, channel: Channel) -> Arrival<'_>
        ensures { ShowsCarried self.now channel result }
    {
        match channel {
            Channel::A => self.a.arrival(),
            Channel::B => self.b.arrival(),
        }
    }

    /// What a node hears on a channel in this slot, if `incidents` are what the script says of it in
    /// the slot, and if all frames were put with that script: of other ones nothing is promised. Bits
    /// are lent as they lie in the medium, with the offset that was put with them. It costs the same
    /// few steps always.
    pub fn heard(&self, incidents: &Incidents, channel: Channel) -> Arrival<'_>
        ensures { (script : Script) (node : ℕ) → incidents.now ≡ incidents_of script node self.now.slot
            → ShowsHeard self.now script node channel result }
    {
        let there = self.carried(channel);
        *received(&there, incidents, channel)
    }
}
