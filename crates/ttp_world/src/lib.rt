//! The types of a cluster and the definitions that more than one crate's contracts cite.
//!
//! A [`Medl`] is the message descriptor list that stands in every controller: the static schedule of
//! one cluster cycle, with the bounds that the clocks are held to. A [`Script`] says what happens to
//! the cluster in a run. What makes them valid is `IsValid` of `specs/Medl.antt` and `IsValidScript`
//! of `specs/Script.antt`; each call of the other crates that takes one asks for it. What the cluster
//! then does is the world of `specs/World.antt`, a list of the entries of all nodes for each slot.
//! That is its only state: rules are functions of `NodePast`, which `past_of` reads from a node's
//! diary, and no definition holds a counter, a packed word or a buffer of a controller.
//! `proofs/Pasts.antt` shows that what `specs/After.antt` says of one more entry is what is then
//! read, and `proofs/HostPayloads.antt` that each message that a host reads is one of its source.
//!
//! A script has up to 131,072 events, and finds what happens to a node in a slot by an index of its
//! [`Events`], which is made once at the cost of a sort: a binary search or two, however many events
//! there are and cover the slot, and a few steps where the look-up follows one of the same node a few
//! slots before. `begin_one` of controller asks so:
//!
//! ```text
//! let mut last = seat.controller.last_look_up();
//! let incidents = script.incidents_after(k, slot, &mut last);
//! seat.controller.begin(list, script.is_on(k, slot), incidents.armed, incidents.jump);
//! ```
//!
//! A node and a slot are one key, `2^32 * node + slot`. An event puts its weights at its first key
//! and takes them away behind its last; sorted and summed up they are steps, of which the newest up
//! to a key tells all (`specs/Index.antt`, `Points.antt` and `Weights.antt`). An index by the length
//! of spans would go through all events that cover a slot. `proofs/Covering.antt`, `Told.antt`,
//! `Sweep.antt` and `FlipLists.antt` show that the sorted lists are an index. No answer rests on
//! where a look-up begins ([`LastLookUp`]): a place is tested, and else the search is over all steps.
//!
//! All types are plain values, and threads share a list and a script by reference. The crate reads,
//! prints and decides nothing.
#![tactic(auto)]

mod events;
mod flips;
mod host_lines;
mod index;
mod keep;
pub mod laws;
mod medl;
mod node;
mod points;
mod script;
mod sorted;
mod weights;

pub use events::{Events, FlippedBit, Incidents, LastLookUp, Standing};
pub use host_lines::{HostRead, Written};
pub use index::no_incidents;
pub use keep::{Back, Keep};
pub use medl::{Kind, Medl, SlotPlan};
pub use node::{
    Ack, Act, CState, ChannelView, Chosen, Delivered, Entry, NodeState, Phase, Reason, StatusWords,
    Verdict,
};
pub use script::{
    Channel, Channels, DRIFT_LIMIT, ERROR_LIMIT, EVENT_LIMIT, Event, FIRST_FLIPPED_BIT, Fault,
    HOST_EVENT_LIMIT, JUMP_LIMIT, LAST_FLIPPED_BIT, PAYLOAD_LIMIT, Payload, SLOT_LIMIT, Script,
    Source,
};
