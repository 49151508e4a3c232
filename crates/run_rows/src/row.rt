//! What a slot is to a node.

use ttp_world::{Ack, CState, Entry};

/// What is read of a node's past as a slot begins, and its clock in the slot.
#[derive(Clone, Copy)]
pub struct NodeBegun {
    /// The place of the slot before, with the members after it; zeros and no members where the node was not active in it.
    pub cstate: CState,
    /// One more than the frames that it accepted since its newest own slot or its join.
    pub accepted: u8,
    /// The frames that it rejected since then.
    pub rejected: u8,
    /// What it knows of its own newest frame.
    pub ack: Ack,
    /// How many silent slots in a row make it start, where it listens and may start.
    pub limit: u8,
    /// Whether four deviations were averaged at the end of the slot before.
    pub has_averaged: bool,
    /// How far its clock is ahead in the slot, with the slot's jumps, in microticks.
    pub clock: i64,
}

/// A slot of a node.
#[derive(Clone, Copy)]
pub struct NodeRow {
    pub begun: NodeBegun,
    /// What the node does in the slot.
    pub entry: Entry,
}

/// What is kept of a node from slot to slot beside what is shown of it.
#[derive(Clone, Copy)]
pub(crate) struct Kept {
    /// The place of the newest slot, with no members.
    pub(crate) place: CState,
    /// How many deviations were noted in that slot's round, where they are four or more: four.
    pub(crate) notes: u8,
    /// How many silent slots it waits for.
    pub(crate) limit: u8,
}
