//! The law of clocks with one two-faced sender, and what holds of a script that may have one. The functions do nothing,
//! and take no memory; their contracts are the laws.
ghost use Rattle.std.specs.Prelude.{◌≡◌, ℕ, suc, ◌+◌, ◌<◌, ◌≤◌, ◌-ℤ◌, ◌≤ℤ◌, [], length, IsTrue};
ghost use Rattle.ttp_world.specs.declared.medl.Medl.{Medl};
ghost use Rattle.ttp_world.specs.declared.node.Phase.TheVariants as phase;
ghost use Rattle.ttp_world.specs.declared.script.Script.{Script};
ghost use Rattle.ttp_world.specs.Diary.{History};
ghost use Rattle.ttp_world.specs.Hypothesis.{ClusterStart};
ghost use Rattle.ttp_world.specs.Legal.{IsLegal};
ghost use Rattle.ttp_world.specs.Medl.{IsValid};
ghost use Rattle.ttp_world.specs.Reception.{is_within_window};
ghost use Rattle.ttp_world.specs.Safety.{newest_slot, members_of_node};
ghost use Rattle.ttp_world.specs.Script.{IsValidScript, is_on};
ghost use Rattle.ttp_world.specs.World.{Numbers, node_past, world};
ghost use Rattle.precision.specs.Together.{measured};
ghost use Rattle.safety_laws.specs.Plan.{FaultPlan};
ghost use Rattle.safety_laws.specs.Kept.{FollowsPlan};
ghost use Rattle.safety_laws.specs.NotedByPlan.{IsSoundIn, NotedByPlan};
ghost use Rattle.two_faced.specs.declared.faced.Faced.TheVariants as faced;
ghost use Rattle.two_faced.specs.Errors.{bound, HasFacedClocks};
ghost use Rattle.two_faced.specs.Faced.{faced_of};
ghost use Rattle.two_faced.specs.Halved.{JudgedCorrectSince};
ghost use Rattle.two_faced.specs.Seen.{seen_of};

use ttp_world::{Medl, Script};

/// By a plan that loses no node, after each slot up to which the nodes noted by it, the clocks of any two
/// of them are no further apart than the bound (`clocks`), and in the next slot what one measures of
/// another lies within the list's window (`window`).
pub fn clocks_near()
    ensures clocks { (list : Medl) (script : Script) (start : ClusterStart) (z : ℕ) (plan : FaultPlan) (slot : ℕ)
        (history : History)
        → IsValid list → FollowsPlan list script start plan → plan.incidents ≡ []
        → HasFacedClocks list script start z → NotedByPlan list script start plan slot history
        → length history ≤ script.slots
        → (j k : ℕ) → IsSoundIn list plan slot j → IsSoundIn list plan slot k
        → ((node_past list script history j).offset -ℤ (node_past list script history k).offset) ≤ℤ bound list }
    ensures window { (list : Medl) (script : Script) (start : ClusterStart) (z : ℕ) (plan : FaultPlan) (slot : ℕ)
        (history : History)
        → IsValid list → FollowsPlan list script start plan → plan.incidents ≡ []
        → HasFacedClocks list script start z → NotedByPlan list script start plan slot history
        → start.slot + suc slot < script.slots
        → (r p : ℕ) → IsSoundIn list plan (suc slot) r → IsSoundIn list plan (suc slot) p
        → IsTrue (is_within_window list (measured list script history r p)) }
{}

/// What holds of a script in which `node` may be two-faced, and whose cluster starts in slot `start`. After
/// each slot from that one on, and for all legal message numbers, every node that is on is active
/// (`active`), and in each slot after the start it judged the frame of each other node that sent correct
/// (`correct`). All nodes that are on hold one membership (`members`), and the clocks of any two of them,
/// that of the two-faced node too, are no further apart than the bound (`clocks`), in microticks. So what
/// [`find_seen`](crate::find_seen) answers is no more than the bound (`seen`).
pub fn halved(list: &Medl, script: &Script, node: u8, start: u32)
    requires valid { IsValid list.now }
    requires script { IsValidScript list.now script.now }
    requires faced { faced_of list.now script.now node ≡ faced.Yes start }
    ensures active { (numbers : Numbers) → IsLegal list.now script.now numbers
        → start < length numbers → length numbers ≤ script.now.slots
        → (let history = world list.now script.now numbers in
        (k : ℕ) → k < length list.now.slots → IsTrue (is_on script.now k (newest_slot history))
        → (node_past list.now script.now history k).phase ≡ phase.Active) }
    ensures correct { (numbers : Numbers) → IsLegal list.now script.now numbers
        → start < length numbers → length numbers ≤ script.now.slots
        → JudgedCorrectSince list.now script.now start (world list.now script.now numbers) }
    ensures members { (numbers : Numbers) → IsLegal list.now script.now numbers
        → start < length numbers → length numbers ≤ script.now.slots
        → (let history = world list.now script.now numbers in
        (j k : ℕ) → j < length list.now.slots → k < length list.now.slots
        → IsTrue (is_on script.now j (newest_slot history)) → IsTrue (is_on script.now k (newest_slot history))
        → members_of_node list.now history j ≡ members_of_node list.now history k) }
    ensures clocks { (numbers : Numbers) → IsLegal list.now script.now numbers
        → start < length numbers → length numbers ≤ script.now.slots
        → (let history = world list.now script.now numbers in
        (j k : ℕ) → j < length list.now.slots → k < length list.now.slots
        → IsTrue (is_on script.now j (newest_slot history)) → IsTrue (is_on script.now k (newest_slot history))
        → ((node_past list.now script.now history j).offset -ℤ (node_past list.now script.now history k).offset)
        ≤ℤ bound list.now) }
    ensures seen { (numbers : Numbers) → IsLegal list.now script.now numbers
        → length numbers ≤ script.now.slots
        → (seen_of list.now script.now numbers node).value ≤ℤ bound list.now }
{}
