//! The walk over the slots of a run in which faulty nodes come back.
ghost use Rattle.std.specs.Prelude.{◌≡◌, ℕ, ◌+◌, ◌-◌, ◌*◌, ◌<◌, ◌≤◌, true, false, Some, None, MatchOption};
ghost use Rattle.ttp_base.specs.NodeSet.{most_nodes};
ghost use Rattle.ttp_world.specs.Hypothesis.{start_of, numbers_of};
ghost use Rattle.ttp_world.specs.Medl.{IsValid};
ghost use Rattle.ttp_world.specs.Returning.{disturbance_broken, slots_before, faulty_since, faulty_at, breaks_back_in, arms_broken};
ghost use Rattle.ttp_world.specs.Returning.{four_rounds, breaks_arm_in, unless_back, started_back};
ghost use Rattle.ttp_world.specs.Script.{IsValidScript};
ghost use Rattle.ttp_world.specs.declared.keep.Back.TheVariants as back;
ghost use Rattle.hypothesis.specs.FaultySlots.{AreNewest};
ghost use Rattle.hypothesis.specs.SlotIncidents.{AreKeptFrom};
ghost use Rattle.hypothesis.specs.Standing.{told_start, HaveSameNodes};
ghost use Rattle.hypothesis.specs.Walks.{back_course, AreFaultsIn, AreFaultsOf, HasWalked};

use crate::arms::{breaks_arm_in, four_rounds};
use crate::forgiven::{faulty_then, stayed_in};
use crate::incidents::{KeptIncidents, nothing_kept};
use crate::losses::Jumps;
use crate::newest::{FaultySlot, NewestSlots, add_slot, no_slots};
use crate::start::Start;
use crate::walk::{SlotFaults, Walk, faults_in, first_walk, walk_with};
use ttp_base::NodeSet;
use ttp_world::{Back, Medl, SLOT_LIMIT, Script};

/// What the next slot makes of the nodes that are faulty before it, once some of them have come back. The
/// slot is kept.
pub(crate) fn back_faults_in(
    list: &Medl,
    script: &Script,
    start: Start,
    jumps: Jumps,
    newest: &mut NewestSlots,
    faulty: NodeSet,
    kept: &mut KeptIncidents,
) -> SlotFaults
    requires valid { IsValid list.now }
    requires script { IsValidScript list.now script.now }
    requires inside { jumps ≡ Jumps.Far → disturbance_broken list.now script.now ≡ None }
    requires bound { newest.old.end < SLOT_LIMIT + 3 * most_nodes }
    requires newest { AreNewest list.now script.now (told_start start) newest.old }
    requires faulty { HaveSameNodes faulty
        (numbers_of (faulty_since (slots_before list.now script.now (told_start start) newest.old.end))) }
    requires kept { AreKeptFrom list.now script.now newest.old.end kept.old }
    ensures kept { AreKeptFrom list.now script.now (newest.old.end + 1) kept.new }
    ensures end { newest.new.end ≡ newest.old.end + 1 }
    ensures newest { AreNewest list.now script.now (told_start start) newest.new }
    ensures faults { AreFaultsOf (back_course list.now script.now (told_start start)) newest.old.end result }
    ensures nodes { AreFaultsIn list.now script.now (told_start start) newest.old.end
        (faulty_at list.now script.now (told_start start) newest.old.end) result }
{
    let slot = newest.end;
    let rounds = four_rounds(list);
    let then = faulty_then(newest, rounds);
    let stayed = stayed_in(script, then, slot.saturating_sub(rounds), faulty);
    let faults = faults_in(list, script, start, jumps, slot, stayed, kept);
    add_slot(
        newest,
        FaultySlot {
            stayed,
            joined: faults.count,
        },
    );
    faults
}

// The walk over one slot more, unless the slot's losses are those of more than one fault.
fn back_over(
    list: &Medl,
    script: &Script,
    start: Start,
    newest: &mut NewestSlots,
    walk: Walk,
    kept: &mut KeptIncidents,
) -> Option<Walk>
    requires valid { IsValid list.now }
    requires script { IsValidScript list.now script.now }
    requires inside { disturbance_broken list.now script.now ≡ None }
    requires bound { newest.old.end < SLOT_LIMIT + 3 * most_nodes }
    requires newest { AreNewest list.now script.now (told_start start) newest.old }
    requires walked { HasWalked list.now script.now (told_start start)
        (back_course list.now script.now (told_start start)) newest.old.end walk }
    requires kept { AreKeptFrom list.now script.now newest.old.end kept.old }
    ensures kept { AreKeptFrom list.now script.now (newest.old.end + 1) kept.new }
    ensures end { newest.new.end ≡ newest.old.end + 1 }
    ensures newest { AreNewest list.now script.now (told_start start) newest.new }
    ensures walk { MatchOption result
        ((newest.old.end < script.now.slots)
        × (breaks_back_in list.now script.now (told_start start) newest.old.end ≡ true))
        (λ walk. HasWalked list.now script.now (told_start start)
        (back_course list.now script.now (told_start start)) (newest.old.end + 1) walk) }
{
    let slot = newest.end;
    let faults = back_faults_in(list, script, start, Jumps::Far, newest, walk.faulty, kept);
    walk_with(list, script, start, slot, walk, faults)
}

// The first slot with a node that is armed and does not meet what is asked of it, where the run has ended
// and no slot that four rounds of it follow is one.
fn late_arms_broken(
    list: &Medl,
    script: &Script,
    start: Start,
    jumps: Jumps,
    newest: &NewestSlots,
    kept: &mut KeptIncidents,
) -> Option<u32>
    requires valid { IsValid list.now }
    requires script { IsValidScript list.now script.now }
    requires end { newest.now.end ≡ script.now.slots }
    requires newest { AreNewest list.now script.now (told_start start) newest.now }
    requires inside { jumps ≡ Jumps.Far → disturbance_broken list.now script.now ≡ None }
    requires kept { AreKeptFrom list.now script.now (script.now.slots + 1 - four_rounds list.now) kept.old }
    requires before { (t : ℕ) → t + four_rounds list.now ≤ script.now.slots
        → breaks_arm_in list.now script.now (told_start start) t ≡ false }
    ensures { result ≡ arms_broken list.now script.now (told_start start) }
{
    let from = (script.slots + 1).saturating_sub(four_rounds(list));
    for slot in from..script.slots {
        if breaks_arm_in(list, script, start, jumps, newest, slot, kept) {
            return Some(slot);
        }
    }
    None
}

/// The first slot with a node that is armed and does not meet what is asked of it. Each is asked about once
/// four rounds from it on have come, or the run has ended.
pub(crate) fn arms_broken(list: &Medl, script: &Script, start: Start, jumps: Jumps) -> Option<u32>
    requires valid { IsValid list.now }
    requires script { IsValidScript list.now script.now }
    requires inside { jumps ≡ Jumps.Far → disturbance_broken list.now script.now ≡ None }
    ensures { result ≡ arms_broken list.now script.now (told_start start) }
{
    let rounds = four_rounds(list);
    let mut newest = no_slots();
    let mut faulty = NodeSet::empty();
    let mut kept = nothing_kept();
    let mut arms = nothing_kept();
    for slot in 0..script.slots {
        faulty = back_faults_in(list, script, start, jumps, &mut newest, faulty, &mut kept).faulty;
        let has_come = slot + 1 >= rounds;
        if has_come
            && breaks_arm_in(
                list,
                script,
                start,
                jumps,
                &newest,
                slot + 1 - rounds,
                &mut arms,
            )
        {
            return Some(slot + 1 - rounds);
        }
    }
    late_arms_broken(list, script, start, jumps, &newest, &mut arms)
}

// What a walk over the whole run says of the rules on the distances of faults, on nodes to measure and on
// arm lines.
fn walked_back(list: &Medl, script: &Script, start: Start, walk: Walk) -> Back
    requires valid { IsValid list.now }
    requires script { IsValidScript list.now script.now }
    requires inside { disturbance_broken list.now script.now ≡ None }
    ensures { result ≡ unless_back 6 walk.early (unless_back 7 walk.unsteady
        (unless_back 8 (arms_broken list.now script.now (told_start start)) (back.Yes start.slot))) }
{
    if let Some(slot) = walk.early {
        return Back::No { rule: 6, slot };
    }
    if let Some(slot) = walk.unsteady {
        return Back::No { rule: 7, slot };
    }
    match arms_broken(list, script, start, Jumps::Far) {
        Some(slot) => Back::No { rule: 8, slot },
        None => Back::Yes { start: start.slot },
    }
}

/// Whether each armed node is guaranteed its place by the rules on faults and arm lines, where its cluster
/// starts. The walk goes to the slot of the start also where the run ends before it.
pub(crate) fn started_back(list: &Medl, script: &Script, start: Start) -> Back
    requires valid { IsValid list.now }
    requires script { IsValidScript list.now script.now }
    requires inside { disturbance_broken list.now script.now ≡ None }
    requires starts { start_of list.now script.now ≡ Some (told_start start) }
    requires bound { start.slot < SLOT_LIMIT + 3 * most_nodes }
    ensures { result ≡ started_back list.now script.now (Some (told_start start)) }
{
    let mut walk = first_walk(list, start);
    let mut newest = no_slots();
    let mut kept = nothing_kept();
    for slot in 0..script.slots.max(start.slot) {
        match back_over(list, script, start, &mut newest, walk, &mut kept) {
            Some(next) => walk = next,
            None => return Back::No { rule: 5, slot },
        }
    }
    walked_back(list, script, start, walk)
}
