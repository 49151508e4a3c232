//! What a node does in the coming slot.
ghost use Rattle.std.specs.Prelude.{◌≡◌, ◌<◌, length};
ghost use Rattle.ttp_world.specs.Act.{act, listening_act, own_act, active_act};
ghost use Rattle.ttp_world.specs.Medl.{IsValid, may_start};
ghost use Rattle.controller.specs.Within.{IsPastWithin};

use crate::node::Node;
use ttp_world::{Act, Medl, Phase, Reason};

// Whether the node of a slot may send a cold-start frame.
fn may_start(list: &Medl, slot: u8) -> bool
    requires { slot < length list.now.slots }
    ensures { result ≡ may_start list.now slot }
{
    list.slots.get(slot as usize).start
}

impl Node {
    // It listens: once as many slots were silent as it waits for, it starts if it may.
    fn listening_act(&self, list: &Medl, k: u8) -> Act
        requires { k < length list.now.slots }
        ensures { result ≡ listening_act list.now k self.now }
    {
        if may_start(list, k) && self.listener.due() {
            Act::Start
        } else {
            Act::Listen
        }
    }

    // The coming slot is its own. Where no successor has received its newest frame, it withdraws a cold
    // start, and leaves on account of another frame; and it leaves where it is not in the larger clique.
    fn own_act(&self) -> Act
        ensures { result ≡ own_act self.now }
    {
        if self.ack.is_open() {
            if self.cold_start {
                Act::Retry
            } else {
                Act::Leave(Reason::Unacknowledged)
            }
        } else if self.counts.may_send() {
            Act::Send
        } else {
            Act::Leave(Reason::Clique)
        }
    }

    fn active_act(&self, list: &Medl, k: u8) -> Act
        requires valid { IsValid list.now }
        requires within { IsPastWithin list.now k self.now }
        ensures { result ≡ active_act list.now k self.now }
    {
        if self.coming(list).is_slot_of(k) {
            self.own_act()
        } else {
            Act::Judge
        }
    }

    /// What node k does in the coming slot, where it is switched on by then or not, and armed to listen
    /// again in it or not.
    pub(crate) fn act(&self, list: &Medl, k: u8, on: bool, armed: bool) -> Act
        requires valid { IsValid list.now }
        requires node { k < length list.now.slots }
        requires within { IsPastWithin list.now k self.now }
        ensures { result ≡ act list.now k on armed self.now }
    {
        match self.phase() {
            Phase::Off if on => Act::Listen,
            Phase::Off => Act::Off,
            Phase::Left if armed => Act::Listen,
            Phase::Left => Act::Gone,
            Phase::Listening => self.listening_act(list, k),
            Phase::Active => self.active_act(list, k),
        }
    }
}
