//! The parts of a node, each a value or a function by itself.
//!
//! | module | what it decides |
//! |---|---|
//! | [`reception`] | the verdict on a slot, from how each channel is seen |
//! | [`acknowledgement`] | whether the node's own newest frame was received, and what a verdict asks for |
//! | [`members`] | the members, and the counts by which a node knows that it is in the larger clique |
//! | [`slot_clock`] | the place in the cycle, and the C-state |
//! | [`cold_start`] | when a listening node gives up, and what it may start on |
//! | [`fta_sync`] | the correction of the clock by the average of four deviations |
//!
//! A node of controller is put together of them, and none knows another, but that members are changed by the moves of
//! acknowledgement. None of them hears, sends or takes memory; each call is a few steps, and values are a few bytes, which
//! are copied.
#![tactic(auto)]

pub mod acknowledgement;
pub mod cold_start;
pub mod fta_sync;
pub mod members;
pub mod reception;
pub mod slot_clock;
