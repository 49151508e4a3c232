//! Where a controller is in a slot.

use ttp_world::Act;

/// Where a controller is in a slot, and what it knows of it.
#[derive(Clone, Copy)]
pub enum Turn {
    /// It has ended one, or none has come yet.
    Ended,
    /// It has begun one: what its node does in it, and by how many microticks the node's clock jumped.
    Begun {
        act: Act,
        jump: i64,
    },
    /// It has planned it too: also the number of the message in its frame, if that carries one.
    Planned {
        act: Act,
        jump: i64,
        message: Option<u64>,
    },
}
