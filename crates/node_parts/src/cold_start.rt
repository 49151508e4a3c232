//! Listening: when a node that hears nobody starts the cluster with a cold-start frame (SAE AS6003),
//! and on what it joins one.
//!
//! A [`Listener`] takes what a listening node heard in each slot, and knows when to start. controller
//! makes one in `listener_after`, tells it a slot in `heard_after`, and asks it in `listening_act`:
//!
//! ```text
//! Entry::Retried => Listener::new(u16::from(list.nodes()) + u16::from(k)),
//! Entry::Waited if silent => heard_after(listener, Heard::Silent),
//! after.hear(heard);
//! if may_start(list, k) && self.listener.due() {
//! ```
//!
//! It counts how many of the last slots, one after the other, were slots in which the node listened and
//! both channels were silent: each slot heard makes of the count what `silent_slots_after` of
//! `ttp_world` makes of it by one more entry of a waiting node, but that it stops at 65535. No limit is
//! greater, so it is due exactly where these are as many as its limit, or more, for however long it
//! listens. It answers `Join` exactly where a C-state was heard.
//!
//! A listener is two numbers of 16 bits, and a copy listens by itself. The module judges no frame: which
//! are joinable, and what noise is, is for the layer above to say. It takes no memory, and answers at
//! all arguments, in a few steps.

mod heard;
mod listener;

pub use heard::{Heard, ListenMove};
pub use listener::Listener;
