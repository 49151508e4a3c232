//! The test for one two-faced sender.
//!
//! A sender whose clock looks different to different receivers is what clock synchronization finds hardest
//! to stand. A script says it by reading errors: those of the receivers, in slots of that sender.
//! [`find_faced`] says whether a script has no other fault and keeps these errors in bounds within which
//! the other nodes' clocks are to stay together, and [`bound`] how far apart they may come, in microticks.
//! [`find_seen`] runs the cluster through its controllers, and says how far apart the clocks of the other
//! nodes came. `show_precision` of ttp_top asks both:
//!
//! ```text
//! match find_faced(list, script, node) {
//!     Faced::Yes { start } => match find_seen(alloc, list, script, node) {
//!         Ok(seen) => say(out, faced_line(list, node, start, seen).bytes(), 0),
//!         Err(_) => 7,
//!     },
//!     Faced::No { rule, slot } => say(out, broken_line(rule, slot).bytes(), 0),
//! ```
//!
//! The rules are those of `specs/Faced.antt`; what they share with the single-fault hypothesis is asked of
//! the crate hypothesis. [`halved`] is the law of a script that keeps them: every frame is
//! judged correct, and the clocks stay within the bound. Its proof is safety_laws' induction, with a plan
//! without incidents (`proofs/QuietPlan.antt`) and the clocks of [`clocks_near`]; theorems cites it from
//! `proofs/Judged.antt`.
//!
//! [`clocks_near`] says nothing of members and verdicts: where no node is lost, and each frame was judged
//! correct up to some slot (`NotedByPlan` of `safety_laws`), any two clocks are within the bound after
//! it, that of the two-faced node too, and every frame of the next slot comes inside each receiver's
//! window, however wrongly that of the two-faced node is read. Of the plan a caller shows that it is good,
//! followed, and without incidents. Each round pulls the clocks together, since three of the four notes
//! that a node takes its average of are of other frames (`fta_sync::laws::pull` of node_parts;
//! `proofs/PulledNotes.antt`). After a correction any two are within 6 D n + 6 E + 2 microticks, and until
//! the next one they drift apart by 2 D n more, where n is the number of slots, D the largest drift of a
//! clock in one slot and E the largest reading error. That leaves 4 D n of the bound to spare. The
//! invariant is `Round` of `proofs/FacedRounds.antt`: where the clocks were when the round began, how far
//! they have drifted since, and that each note of another sender's frame tells where that sender's clock
//! was then.
//!
//! In the run of `find_seen` each frame carries zeros (`ttp_world/specs/ZerosWorld.antt`), and by frame_fates the
//! clocks are those of every run by legal numbers, whatever hosts write and read (`proofs/SeenAlike.antt`).
//! `src/worked_cases.rt` has cases of the rules, and a run, that the check computes.
//!
//! `find_faced` costs a binary search for each node and slot, runs no cluster and takes no memory.
//! `find_seen` takes the memory of a plant, a slot costs its nodes, and of what was seen it keeps one
//! difference and its slot. Threads share nothing here.
#![tactic(auto, using(ttp_world::proofs::Lists::nodes))]

ghost use Rattle.std.specs.Prelude.{◌≡◌};
ghost use Rattle.ttp_world.specs.Medl.{IsValid};
ghost use Rattle.ttp_world.specs.Script.{IsValidScript};
ghost use Rattle.hypothesis.specs.Standing.{told_start_if};
ghost use Rattle.two_faced.specs.Faced.{started_faced, faced_of};

mod bounds;
mod clocks;
mod faced;
mod faults;
mod law;
mod seen;
mod worked_cases;

pub use crate::bounds::bound;
use crate::bounds::faced_window_broken;
use crate::clocks::faced_clocks_broken;
pub use crate::faced::Faced;
use crate::faults::faults_broken;
pub use crate::law::{clocks_near, halved};
pub use crate::seen::{Seen, find_seen};
use hypothesis::{Start, has_four_steady, sole_start, start_of};
use ttp_base::NodeSet;
use ttp_world::{Medl, Script};

/// Whether a script keeps the rules under which one node may be two-faced: the slot of the start, or
/// the first rule that is broken with the slot that is named for it.
///
/// 0. The node: slot 0 where the list has no such node.
/// 1. Clocks: slot 0 where a drift is past the list's bound, else the first slot in which a node's
///    reading errors add up to more than is allowed: the list's `error`, and in slots of the two-faced
///    node from two rounds after the start on also `window` less [`bound`]. Where no node would start,
///    or two would in the first slot of a start, `error` alone.
/// 2. The window: slot 0 where it is narrower than the bound and one reading error more.
/// 3. Faults: the first slot of a send or receive fault, a flipped bit or a jump.
/// 4. The start: slot 0 where no node would start, two would in the first slot of a start, or a node
///    comes on after it.
/// 5. Nodes to measure: slot 0 where fewer than four nodes with `sync` are ever on.
///
/// Slots are counted from 0, as in the script. The start may lie past the run's last slot, and is the
/// answer all the same. Takes no memory. Each slot costs a binary search in the script's index for each
/// node, and the events are gone over once.
pub fn find_faced(list: &Medl, script: &Script, node: u8) -> Faced
    requires valid { IsValid list.now }
    requires script { IsValidScript list.now script.now }
    ensures { result ≡ faced_of list.now script.now node }
{
    if node >= list.nodes() {
        return Faced::No { rule: 0, slot: 0 };
    }
    if let Some(slot) = faced_clocks_broken(list, script, node, sole_start(list, script)) {
        return Faced::No { rule: 1, slot };
    }
    if let Some(slot) = faced_window_broken(list) {
        return Faced::No { rule: 2, slot };
    }
    if let Some(slot) = faults_broken(script) {
        return Faced::No { rule: 3, slot };
    }
    started_faced(list, script, start_of(list, script))
}

// Whether there are enough nodes to measure, where the cluster starts.
fn started_faced(list: &Medl, script: &Script, start: Option<Start>) -> Faced
    requires valid { IsValid list.now }
    requires script { IsValidScript list.now script.now }
    ensures { result ≡ started_faced list.now script.now (told_start_if start) }
{
    match start {
        Some(start) if has_four_steady(list, script, NodeSet::empty()) => Faced::Yes {
            start: start.slot,
        },
        Some(_) => Faced::No { rule: 5, slot: 0 },
        None => Faced::No { rule: 4, slot: 0 },
    }
}
