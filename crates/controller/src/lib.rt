//! The controller of a node, and the plant of a whole cluster.
//!
//! A [`Controller`] takes its node through one slot after another: it begins a slot, plans the frame
//! that the node sends in it, if it sends one, and takes what came on both channels; each call asks
//! for the turn that the one before left. It is made of the parts of a node, each of which is a crate
//! of its own, and keeps a packed state: what the rules ask of the node's past, and no diary. It
//! *stands for* a diary: whatever diary it stood for before a slot, it stands after it for that diary
//! with the entry of the world's definitions added, and hands out what they deliver and the status
//! words that they give. Contracts see it as a `ControllerView`. It knows of the script what is
//! handed to it, and never sees another controller or the medium.
//!
//! A [`Seat`] is a controller with what a slot hands around with it, and a slot of a cluster is three
//! passes over all seats. The first and the third may be handed any run of nodes, so that threads can
//! each take some, by `&mut`, and share the list, the script and the medium. A [`Plant`] is a seat
//! for each node and the medium between them, on one thread. It stands for a history of the cluster,
//! and a slot is one step of the world for every list, every script and every choice of messages:
//!
//! ```text
//! begin_all(seats, list, script, 0, slot);
//! plan_all(seats, medium, list, script, slot, chosen);
//! take_all(seats, medium, list, script, 0);
//! ```
//!
//! These lines are `step` of `src/plant.rt`, and [`ZerosRun::step`] calls [`Plant::slot`] with
//! zeros for each payload. By [`laws::plants_of_scripts_that_agree`] and [`Plant::copy_from`] a run
//! may be taken to a slot once, and from there on by many scripts. `specs/Passes.antt` says each pass
//! in the words of the slot that has begun; `proofs/InSlot.antt` shows it of one controller.
//!
//! Only what makes a plant or its seats takes memory. A slot costs its nodes, whatever its number,
//! and for each node a few look-ups in the script; at most two check words for each channel that a
//! node judges. A clock stays within 2^59 microticks of 0; a slot of a valid script moves it by 2^38
//! at most (`specs/PlantWithin.antt`). The crate knows no text, no files and no hosts: which message
//! a frame carries is handed to it.
#![tactic(auto)]

mod controller;
pub mod earlier_slots;
mod ending;
mod form;
mod hearing;
mod known_frames;
pub mod laws;
mod node;
mod passes;
mod plant;
mod seat;
mod sending;
mod status;
mod turn;
mod zeros_run;

pub use controller::{Controller, Intent, Outcome};
pub use passes::{begin_all, is_loaded, plan_all, take_all};
pub use plant::Plant;
pub use seat::{Seat, seats_of};
pub use sending::{cold_start, outgoing};
pub use status::StatusFlags;
pub use zeros_run::{ZerosRun, push_zeros};
