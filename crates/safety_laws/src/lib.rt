//! Safety under the single-fault hypothesis, from what one slot makes of one node to whole runs.
//!
//! The crate has no code that does anything: its functions are laws over the definitions of `ttp_world`,
//! `precision`, and worked cases that the check computes. Members decide whose frames a
//! node notes, what it notes moves its clock, and clocks decide whose frames come in time. So there are
//! six rooms, each a module whose head says more:
//!
//! - [`fault_plan`]: what a plan of faults is, and that a script which keeps the hypothesis follows a good
//!   one. It knows no frames, members and clocks;
//! - [`slots`]: what one slot of the world does to one node, and how a cluster starts. It knows no plan
//!   of faults, and of clocks no more than whether a deviation lies within the window, and what a node
//!   notes;
//! - [`steps`]: the step of an induction on members, over `slots`. It takes the clocks of a slot as a
//!   premise, and proves nothing of them;
//! - [`clocks`]: that on clocks, beside `steps`. It takes what the nodes noted as a premise, and says
//!   nothing of members and verdicts;
//! - [`runs`], over both: the two as one induction, for every run that follows a good plan of faults;
//! - [`rejoin`]: by another plan, that nodes which are armed again get their places.
//!
//! [`safe`] and [`same_frames`] say it of a script that keeps the single-fault hypothesis, with no premise
//! left. A caller of both has a valid list and script and the answer `yes` of the test, with the slot of
//! the start; what they say is of all legal message numbers. theorems cites both as `kept-safe`,
//! `kept-clocks` and `kept-alike` of `proofs/Kept.antt`, the one file here that knows the hypothesis, but
//! for the start that `slots` takes from it; two_faced and `rejoin` have a plan of their own, and cite
//! `run-by_plan` of `proofs/Together.antt`. `one_mode` of mode_change calls the law on frames, and the
//! tests of ground_tests the laws of the rooms:
//!
//! ```text
//! safety_laws::same_frames(list, script, start);
//! safety_laws::slots::one_slot();
//! safety_laws::runs::by_plan();
//! ```
#![tactic(auto)]

ghost use Rattle.std.specs.Prelude.{◌≡◌, ℕ, ◌<◌, ◌≤◌, ◌≤ℤ◌, ◌-ℤ◌, neg_ℤ, length, IsTrue};
ghost use Rattle.ttp_world.specs.declared.keep.Keep.TheVariants as keep;
ghost use Rattle.ttp_world.specs.Diary.{diary_of, place_of};
ghost use Rattle.ttp_world.specs.Hypothesis.{keeps, needed, is_correct_after};
ghost use Rattle.ttp_world.specs.Legal.{IsLegal};
ghost use Rattle.ttp_world.specs.Medl.{IsValid};
ghost use Rattle.ttp_world.specs.Safety.{newest_slot, IsSafe};
ghost use Rattle.ttp_world.specs.Script.{IsValidScript};
ghost use Rattle.ttp_world.specs.World.{Numbers, world};
ghost use Rattle.precision.specs.Spread.{spread};
ghost use Rattle.precision.specs.Together.{IsIn, clock_at, measured};
ghost use Rattle.safety_laws.specs.Gone.{FaultyLeave};
ghost use Rattle.safety_laws.specs.SameFrames.{AcceptsAlikeSince, StandsAlikeSince};

pub mod clocks;
pub mod fault_plan;
pub mod rejoin;
pub mod runs;
pub mod slots;
pub mod steps;
mod worked_jump;
mod worked_runs;
mod worked_slots;

use ttp_world::{Medl, Script};

/// What holds of a script that keeps the single-fault hypothesis, whose cluster starts in slot `start`.
/// After each slot from that one on, and for all legal message numbers, the four tests of safety hold
/// (`safe`): correct nodes that are not in doubt hold one membership, each correct node that has started
/// or sent is in it, no correct node has left, and each node that became faulty two rounds ago has left
/// and is held by no correct node. That is so a slot earlier than these tests ask: of n nodes one that
/// became faulty in slot f has left, and is held by no correct node, from slot f + 2n - 2 on (`leave`).
///
/// At the beginning of each later slot the clocks of any two nodes that are correct in it are no further
/// apart than the list's spread (`clocks`), and what one of them measures of the other's frame lies no
/// further from 0 than what the list needs (`deviations`), both in microticks.
///
/// It does nothing, and takes no memory.
pub fn safe(list: &Medl, script: &Script, start: u32)
    requires valid { IsValid list.now }
    requires script { IsValidScript list.now script.now }
    requires kept { keeps list.now script.now ≡ keep.Yes start }
    ensures safe { (numbers : Numbers) → IsLegal list.now script.now numbers
        → start < length numbers → length numbers ≤ script.now.slots
        → IsSafe list.now script.now (world list.now script.now numbers) }
    ensures leave { (numbers : Numbers) → IsLegal list.now script.now numbers
        → start < length numbers → length numbers ≤ script.now.slots
        → FaultyLeave list.now script.now (world list.now script.now numbers) }
    ensures clocks { (numbers : Numbers) → IsLegal list.now script.now numbers
        → start < length numbers → length numbers < script.now.slots
        → (j k : ℕ) → j < length list.now.slots → k < length list.now.slots
        → IsTrue (is_correct_after list.now script.now (length numbers) j)
        → IsTrue (is_correct_after list.now script.now (length numbers) k)
        → (let history = world list.now script.now numbers in
        (clock_at list.now script.now history j -ℤ clock_at list.now script.now history k) ≤ℤ spread list.now) }
    ensures deviations { (numbers : Numbers) → IsLegal list.now script.now numbers
        → start < length numbers → length numbers < script.now.slots
        → (r p : ℕ) → r < length list.now.slots → p < length list.now.slots
        → IsTrue (is_correct_after list.now script.now (length numbers) r)
        → IsTrue (is_correct_after list.now script.now (length numbers) p)
        → (let history = world list.now script.now numbers in
        (neg_ℤ (needed list.now) ≤ℤ measured list.now script.now history r p)
        × (measured list.now script.now history r p ≤ℤ needed list.now)) }
{}

/// What correct nodes of such a script make of each other's frames. The nodes that are correct after a
/// slot have, in each slot from the start on, accepted the same frames of third nodes, and each of them
/// accepted each frame that another sent; their hosts got the same messages of third nodes, and of each
/// other the messages that were sent (`frames`). A frame is accepted that is judged correct, and the cold
/// start is not judged.
///
/// Each of them has been active since the start, where it began at time 0, and after each slot all stood at
/// one place of the cluster cycle (`stints`); so they do after the newest one (`places`).
///
/// It does nothing, and takes no memory.
pub fn same_frames(list: &Medl, script: &Script, start: u32)
    requires valid { IsValid list.now }
    requires script { IsValidScript list.now script.now }
    requires kept { keeps list.now script.now ≡ keep.Yes start }
    ensures frames { (numbers : Numbers) → IsLegal list.now script.now numbers
        → start < length numbers → length numbers ≤ script.now.slots
        → (let history = world list.now script.now numbers in
        AcceptsAlikeSince list.now script.now (is_correct_after list.now script.now (newest_slot history)) start
        history) }
    ensures stints { (numbers : Numbers) → IsLegal list.now script.now numbers
        → start < length numbers → length numbers ≤ script.now.slots
        → (let history = world list.now script.now numbers in
        StandsAlikeSince list.now (is_correct_after list.now script.now (newest_slot history)) start history) }
    ensures places { (numbers : Numbers) → IsLegal list.now script.now numbers
        → start < length numbers → length numbers ≤ script.now.slots
        → (let history = world list.now script.now numbers in
        (j k : ℕ) → IsIn list.now (is_correct_after list.now script.now (newest_slot history)) j
        → IsIn list.now (is_correct_after list.now script.now (newest_slot history)) k
        → place_of list.now j (diary_of history j) ≡ place_of list.now k (diary_of history k)) }
{}
