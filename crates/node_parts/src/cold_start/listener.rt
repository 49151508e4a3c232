//! How long it has been silent.
ghost use Rattle.std.specs.Prelude.{◌≡◌, min, nat_le};
ghost use Rattle.ttp_world.specs.declared.node.Entry.TheVariants as entry;
ghost use Rattle.ttp_world.specs.After.{silent_slots_after};
ghost use Rattle.node_parts.specs.Listening.{most_silent, is_silent, listen_move};

use crate::cold_start::heard::{Heard, ListenMove};
use std::marker::Model;

/// How many slots, one after the other, were silent, beside how many a node waits for.
///
/// Contracts see it as the two numbers. The count stops at 65535, the largest limit there is. A copy
/// listens by itself.
#[derive(Clone, Copy)]
pub struct Listener {
    limit: u16,
    silent_slots: u16,
}

impl Model for Listener {
    ghost use Rattle.node_parts.specs.Listening.{Listening};

    ghost Value = { Listening };

    ghost view = { λ l. record { limit = l.limit; silent_slots = l.silent_slots } };

    ghost inverse = { λ v. record { limit = v.limit; silent_slots = v.silent_slots } };
}

impl Listener {
    /// A node that begins to listen, and waits for so many silent slots.
    pub fn new(limit: u16) -> Listener
        ensures limit { result.limit ≡ limit }
        ensures silent { result.silent_slots ≡ 0 }
    {
        Listener {
            limit,
            silent_slots: 0,
        }
    }

    /// Whether the last `limit` slots or more were silent.
    pub fn due(&self) -> bool
        ensures { result ≡ nat_le self.now.limit self.now.silent_slots }
    {
        self.silent_slots >= self.limit
    }

    /// Takes what the node heard in one more slot. It joins exactly where that is a C-state.
    pub fn hear(&mut self, heard: Heard) -> ListenMove
        ensures limit { self.new.limit ≡ self.old.limit }
        ensures silent { self.new.silent_slots
            ≡ min (silent_slots_after self.old.silent_slots entry.Waited (is_silent heard)) most_silent }
        ensures value { result ≡ listen_move heard }
    {
        self.silent_slots = match heard {
            Heard::Silent => self.silent_slots.saturating_add(1),
            Heard::Other | Heard::Explicit(_) => 0,
        };
        match heard {
            Heard::Explicit(cstate) => ListenMove::Join(cstate),
            Heard::Silent | Heard::Other => ListenMove::Wait,
        }
    }
}
