//! What a listening node hears in a slot, and what it does then.

use ttp_world::CState;

/// What a listening node heard in a slot.
#[derive(Clone, Copy, PartialEq, Eq)]
pub enum Heard {
    /// Silence on both channels.
    Silent,
    /// Something that can't be joined: noise, a collision, a frame without C-state or of another list.
    Other,
    /// A frame that can be joined, with this C-state.
    Explicit(CState),
}

/// What a listening node does at the end of a slot.
#[derive(Clone, Copy, PartialEq, Eq)]
pub enum ListenMove {
    /// It listens on.
    Wait,
    /// It adopts this C-state.
    Join(CState),
}
