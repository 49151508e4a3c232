//! The test of the single-fault hypothesis.
//!
//! [`keeps`] says whether a script keeps the hypothesis for a list, under which the promise of safety stands:
//! with the slot of the start, or with the first of the seven rules that is broken and the slot that is named
//! for it. [`returns`] says whether armed nodes are guaranteed their places, by eight rules. `show_keep` and
//! `show_back` of ttp_top write their lines:
//!
//! ```text
//! match put_keep(&keeps_of(list, script), out) {
//! match put_back(&returns(list, script), out) {
//! ```
//!
//! Beside it stand the questions that other tests of scripts ask as well: the start, the sender that is due,
//! drifts and reading errors within their bounds, nodes to measure clocks by, and parts of what an arm line
//! meets. [`KeptFaulty`] and [`BackFaulty`] go over a run slot by slot and tell who is faulty after each, by
//! the one test and by the other, also where a rule is broken; the second also tells what a slot makes of the
//! nodes. [`first_broken_arm`] finds the slot of the rule on arm lines, whichever others are broken.
//!
//! A rule is told only where each rule before it holds in the whole run. The rules have a file each, and
//! `src/walk.rt` goes over the slots once for those on losses, distances and nodes to measure; it keeps the
//! faulty nodes as a set, and stands for a list that the definitions keep whole (`HasWalked` of
//! `specs/Walks.antt`). A jump shows in the sum of a slot's jumps, since one that keeps its rule is never 0.
//! `src/back_walk.rt` is the same walk over another `Course` of who is faulty, and `src/arms.rt` asks about
//! an arm line once the four rounds from its slot on have come, so that `src/newest.rt` keeps the newest six
//! rounds and no more.
//!
//! It stands on ttp_world, which has the list, the script and, in `specs/Hypothesis.antt` and
//! `specs/Returning.antt`, the rules, and on precision, which says how wide a window has to be. It promises
//! the answer that is defined there, for each valid list and script. What happens to the nodes is looked up
//! in the script's index where it may be something else than in the slot before, and kept for as long as it
//! stands (`src/incidents.rt`): in between, a slot in which nothing makes a node faulty costs a few steps,
//! whatever the number of nodes and events. It takes no memory, shares nothing between threads, runs no
//! cluster, and says nothing of what becomes of one whose script breaks a rule.
#![tactic(auto, using(ttp_world::proofs::Lists::nodes))]

ghost use Rattle.std.specs.Prelude.{◌≡◌};
ghost use Rattle.ttp_world.specs.Hypothesis.{keeps};
ghost use Rattle.ttp_world.specs.Medl.{IsValid};
ghost use Rattle.ttp_world.specs.Returning.{returns};
ghost use Rattle.ttp_world.specs.Script.{IsValidScript};

mod armed;
mod arms;
mod back_walk;
mod clocks;
mod distances;
mod faulty;
mod forgiven;
mod incidents;
mod losses;
mod newest;
mod nodes;
mod outside;
mod start;
mod steady;
mod walk;

pub use crate::armed::has_arm;
pub use crate::arms::{
    four_rounds, is_deaf, is_only_arm, is_sound, offers_place, touches, two_rounds,
};
use crate::back_walk::started_back;
pub use crate::clocks::{drifts_hold, errors_hold_within, needed_back};
use crate::clocks::{back_window_broken, clocks_broken, window_broken};
pub use crate::faulty::{BackFaulty, KeptFaulty, first_broken_arm};
pub use crate::losses::{expected_sender, is_lost};
pub use crate::nodes::lesser;
use crate::outside::{disturbance_broken, outside_broken};
pub use crate::outside::{four_windows, is_far_jump};
pub use crate::start::{Start, first_start, is_ever_on, sole_start, start_of, starters_in};
pub use crate::steady::{has_four_steady, is_steady};
pub use crate::walk::SlotFaults;
use crate::walk::started_keep;
use ttp_world::{Back, Keep, Medl, Script};

/// Whether a script keeps the single-fault hypothesis for a list: the slot of the start, or the
/// first rule that is broken with the slot that is named for it.
///
/// 1. Clocks: slot 0 where a drift is past the list's bound, else the first slot in which a node's
///    reading errors add up to more than theirs.
/// 2. The window: slot 0 where it is narrower than correct clocks need.
/// 3. What stands outside: the first slot with a flipped bit, an armed node, or a clock that jumps
///    by less than four windows or not for the first time.
/// 4. The start: slot 0 where no node would start, two would in the first slot of a start, or a node
///    comes on after it.
/// 5. Losses: the first slot in which two or more lose the frame, but not all.
/// 6. Distances: the slot of the first fault that comes less than two rounds after the start or the
///    fault before it. Two in one slot do.
/// 7. Nodes to measure: the first slot, from that of the start on, after which fewer than four nodes
///    with `sync` are ever on and not faulty; that of the start also where they are too few at it.
///
/// Slots are counted from 0, as in the script. The start may lie past the run's last slot, and is the
/// answer all the same. Takes no memory. A slot in which something else happens than in the one before
/// costs at most two look-ups in the script's index for each node, which begin where the last ones ended, one in
/// which frames are lost goes over the nodes, and each other a few steps. The events are gone over twice,
/// with a binary search for each jump.
pub fn keeps(list: &Medl, script: &Script) -> Keep
    requires valid { IsValid list.now }
    requires script { IsValidScript list.now script.now }
    ensures { result ≡ keeps list.now script.now }
{
    if let Some(slot) = clocks_broken(list, script) {
        return Keep::No { rule: 1, slot };
    }
    if let Some(slot) = window_broken(list) {
        return Keep::No { rule: 2, slot };
    }
    if let Some(slot) = outside_broken(list, script) {
        return Keep::No { rule: 3, slot };
    }
    match start_of(list, script) {
        Some(start) => started_keep(list, script, start),
        None => Keep::No { rule: 4, slot: 0 },
    }
}

/// Whether each node that is armed to listen again is guaranteed its place within four rounds: the slot of
/// the start, or the first rule that is broken with the slot that is named for it.
///
/// 1. Clocks, 4. the start, 6. distances and 7. nodes to measure are asked as in [`keeps`].
/// 2. The window: slot 0 where it is narrower than clocks need of which one came back.
/// 3. What stands outside: as in [`keeps`], but nodes may be armed.
/// 5. Losses: as in [`keeps`], but four rounds after it was armed a node that was faulty is faulty no
///    longer.
/// 8. Arm lines: the least slot of one that does not meet what is asked of it. Its node has been faulty
///    for two rounds. In these and in the four rounds from the slot on no node becomes faulty. In the
///    four rounds no other arm line stands, nothing is done to the node's sending, hearing and clock, and
///    each correct node hears its frames on one channel at least. In the first two of them, unless the
///    run ends before they do, another correct node sends a frame that can be joined on.
///
/// Takes no memory. Each slot costs what it does in [`keeps`], up to three times. For each arm line that meets what is
/// asked before, all events are gone over.
pub fn returns(list: &Medl, script: &Script) -> Back
    requires valid { IsValid list.now }
    requires script { IsValidScript list.now script.now }
    ensures { result ≡ returns list.now script.now }
{
    if let Some(slot) = clocks_broken(list, script) {
        return Back::No { rule: 1, slot };
    }
    if let Some(slot) = back_window_broken(list) {
        return Back::No { rule: 2, slot };
    }
    if let Some(slot) = disturbance_broken(list, script) {
        return Back::No { rule: 3, slot };
    }
    match start_of(list, script) {
        Some(start) => started_back(list, script, start),
        None => Back::No { rule: 4, slot: 0 },
    }
}
