//! Deferred mode changes: hosts agree on a mode by frames alone, and all nodes go over to it at the end of
//! the cluster cycle.
//!
//! A list names how many modes there are, whose payloads may ask for one, and in which modes each slot's
//! payload is live. That changes nothing of what the cluster does: what mode a node runs is read from its
//! diary and from the payloads that it sent and delivered (`specs/Modes.antt`). By [`one_mode`] all
//! correct nodes run one mode where a script keeps the single-fault hypothesis; theorems cites it as
//! `one-mode` of `proofs/Alike.antt`. [`put_modes`] writes for a trace which mode each node runs after
//! each slot (`specs/ModeText.antt`). `show_text` of ttp_top does so for a text that `verify` of
//! trace_check took:
//!
//! ```text
//! match put_modes(alloc, list, script, text, out) {
//!     Ok(()) => 0,
//!     Err(ModeFault::Failed) => 6,
//!     Err(ModeFault::Memory) => 7,
//! }
//! ```
//!
//! A plant goes through the run, with the messages that the lines of the trace name ([`trace_run`]). A slot
//! costs its nodes, as it does a plant, and a line for each node is one write. All memory is taken before the first
//! line is written, and none for a slot. Threads share nothing here. No crate below knows of modes but as
//! fields of the list.
#![tactic(auto, unfolding(ttp_base::specs::NodeSet::with_node, ttp_base::specs::NodeSet::members_in, ttp_world::specs::Trace::digits))]

ghost use Rattle.std.specs.Prelude.{◌≡◌, ◌<◌, ◌≤◌, length};
ghost use Rattle.ttp_world.specs.declared.keep.Keep.TheVariants as keep;
ghost use Rattle.ttp_world.specs.Hypothesis.{keeps, is_correct_after};
ghost use Rattle.ttp_world.specs.Legal.{IsLegal};
ghost use Rattle.ttp_world.specs.Medl.{IsValid};
ghost use Rattle.ttp_world.specs.Safety.{newest_slot};
ghost use Rattle.ttp_world.specs.Script.{IsValidScript};
ghost use Rattle.ttp_world.specs.World.{Numbers, world};
ghost use Rattle.mode_change.specs.OneMode.{RunsOneMode};

mod all_nodes;
mod line;
mod node;
mod put;
mod worked_case;

pub use node::Modes;
pub use put::{ModeFault, put_modes};
use ttp_world::{Medl, Script};

/// All correct nodes run one mode, in a run whose script keeps the single-fault hypothesis and whose cluster
/// starts in slot `start`. After each slot from that one on, and for all legal message numbers, each node
/// that is correct then knows which mode it runs; all of them run the same, and all have the same next one,
/// or none.
///
/// It does nothing, and takes no memory.
pub fn one_mode(list: &Medl, script: &Script, start: u32)
    requires valid { IsValid list.now }
    requires script { IsValidScript list.now script.now }
    requires kept { keeps list.now script.now ≡ keep.Yes start }
    ensures { (numbers : Numbers) → IsLegal list.now script.now numbers
        → start < length numbers → length numbers ≤ script.now.slots
        → (let history = world list.now script.now numbers in
        RunsOneMode list.now script.now (is_correct_after list.now script.now (newest_slot history)) history) }
{
    safety_laws::same_frames(list, script, start);
}
