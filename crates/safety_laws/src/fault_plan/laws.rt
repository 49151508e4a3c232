//! Laws of plans of faults. The functions do nothing; their contracts are the laws.
ghost use Rattle.std.specs.Prelude.{◌≡◌, ◌≢◌, ◌⊎◌, ℕ, suc, ◌+◌, ◌*◌, ◌<◌, ◌≤◌, true, false, not, length, filter, Some};
ghost use Rattle.std.specs.Prelude.{None};
ghost use Rattle.std.specs.List.{Contains};
ghost use Rattle.ttp_base.specs.NodeSet.{below, has_node};
ghost use Rattle.ttp_world.specs.declared.keep.Keep.TheVariants as keep;
ghost use Rattle.ttp_world.specs.declared.medl.Medl.{Medl};
ghost use Rattle.ttp_world.specs.declared.script.Script.{Script};
ghost use Rattle.ttp_world.specs.Hypothesis.{keeps};
ghost use Rattle.ttp_world.specs.Medl.{IsValid};
ghost use Rattle.safety_laws.specs.Plan.{Change, Receiving, Incident, Return, FaultPlan, sender, incident_at};
ghost use Rattle.safety_laws.specs.Plan.{is_armed_by, enters};
ghost use Rattle.safety_laws.specs.Fates.{Falling, Fallen, Listening, fate_of, is_absent, lost_since, may_stay, is_sound_after};
ghost use Rattle.safety_laws.specs.Fates.{lasting_nodes, is_good_slot, is_first_slot};
ghost use Rattle.safety_laws.specs.Fates.{tally, is_measured};
ghost use Rattle.safety_laws.specs.Ledger.{planned_members, ledger_of};
ghost use Rattle.safety_laws.specs.Places.{planned_place};
ghost use Rattle.safety_laws.specs.GoodPlan.{IsGoodPlan};
ghost use Rattle.safety_laws.specs.Kept.{KeepsByPlan};
ghost use Rattle.safety_laws.specs.SlotKind.{Good, Idle, slot_kind, is_good_kind, is_first_kind, IsKindAfter};
ghost use Rattle.safety_laws.specs.Told.{IsTold, IsSenderLost, IsLedgerOf};

/// A script whose test says that its cluster starts in a slot keeps to a good plan of faults from
/// that slot on, which is the plan of the hypothesis's faulty nodes.
pub fn kept_by_plan()
    ensures { (list : Medl) (script : Script) (slot : ℕ) → IsValid list → keeps list script ≡ keep.Yes slot
        → KeepsByPlan list script slot }
{}

/// Each node has a slot in each round, its slots are a round apart, and at the place of a slot in the
/// cluster cycle it is its node's turn. The start is the slot of the
/// starter, which is sound, as are all that begin.
pub fn turns_known()
    ensures next { (plan : FaultPlan) (from k : ℕ) → 0 < plan.nodes → k < plan.nodes
        → (turn : ℕ) × ((from ≤ turn) × (turn < from + plan.nodes) × (sender plan turn ≡ k)) }
    ensures apart { (plan : FaultPlan) (turn later : ℕ) → 0 < plan.nodes → turn < later
        → sender plan turn ≡ sender plan later
        → turn + plan.nodes ≤ later }
    ensures place { (list : Medl) (plan : FaultPlan) (slot : ℕ) → plan.nodes ≡ length list.slots
        → plan.starter < plan.nodes
        → (planned_place list plan slot).slot ≡ sender plan slot }
    ensures first { (plan : FaultPlan) → IsGoodPlan plan → sender plan 0 ≡ plan.starter }
    ensures sound { (plan : FaultPlan) (k : ℕ) → IsGoodPlan plan → is_sound_after plan 0 k ≡ has_node plan.begin k }
{}

/// What the fate of a node tells. One lost node at most may still stay after a slot, and none that
/// was lost before when the next incident comes. A sound node was so since the start or its entry.
pub fn lost_one_by_one()
    ensures told { (plan : FaultPlan) (slot k : ℕ) → IsGoodPlan plan → IsTold plan slot k (fate_of plan slot k) }
    ensures one { (plan : FaultPlan) (slot j k : ℕ) → IsGoodPlan plan
        → may_stay plan.nodes slot (fate_of plan slot j) ≡ true
        → may_stay plan.nodes slot (fate_of plan slot k) ≡ true
        → j ≡ k }
    ensures none { (plan : FaultPlan) (slot k : ℕ) (incident : Incident) → IsGoodPlan plan
        → incident_at plan (suc slot) ≡ Some incident
        → may_stay plan.nodes slot (fate_of plan slot k) ≡ false }
    ensures over { (plan : FaultPlan) (slot k since : ℕ) → IsGoodPlan plan
        → lost_since (fate_of plan slot k) ≡ Some since → since + 2 * plan.nodes ≤ suc slot
        → may_stay plan.nodes slot (fate_of plan slot k) ≡ false }
    ensures absent { (plan : FaultPlan) (slot k : ℕ) → IsGoodPlan plan
        → is_absent (fate_of plan slot k) ≡ not (has_node plan.begin k) }
    ensures sound_before { (plan : FaultPlan) (slot later k : ℕ) → slot ≤ later
        → is_sound_after plan later k ≡ true
        → ((turn : ℕ) → slot < turn → turn ≤ later → enters plan turn k ≡ false)
        → is_sound_after plan slot k ≡ true }
{}

/// What a slot is by the fate of the node whose slot it is, and what that tells of the slot: who was
/// sound before, and which incidents can come in it. While a lost node may still stay none comes, and
/// each slot that is not that node's own is good or idle.
pub fn slots_known()
    ensures kind { (plan : FaultPlan) (slot : ℕ) → IsGoodPlan plan → IsKindAfter plan slot (slot_kind plan (suc slot)) }
    ensures good { (plan : FaultPlan) (slot : ℕ) → is_good_slot plan slot ≡ is_good_kind (slot_kind plan slot) }
    ensures first { (plan : FaultPlan) (slot : ℕ) → IsGoodPlan plan
        → is_first_slot plan slot ≡ is_first_kind (slot_kind plan slot) }
    ensures others { (plan : FaultPlan) (slot k : ℕ) → IsGoodPlan plan
        → may_stay plan.nodes slot (fate_of plan slot k) ≡ true → sender plan (suc slot) ≢ k
        → (slot_kind plan (suc slot) ≡ Good) ⊎ (slot_kind plan (suc slot) ≡ Idle) }
    ensures quiet { (plan : FaultPlan) (slot k : ℕ) → IsGoodPlan plan
        → may_stay plan.nodes slot (fate_of plan slot k) ≡ true
        → incident_at plan (suc slot) ≡ None }
{}

/// A sound node that has had a slot of its own is a member, and a lost one isn't once its first own
/// slot has come. Until then the sender whose frame a receiver lost stays sound and a member.
pub fn members_known()
    ensures sound { (plan : FaultPlan) (slot k : ℕ) → IsGoodPlan plan → k < plan.nodes
        → is_sound_after plan slot k ≡ true → (ledger_of plan slot k).own ≡ true
        → has_node (planned_members plan slot) k ≡ true }
    ensures fallen { (plan : FaultPlan) (slot k since shown : ℕ) (change : Change) → IsGoodPlan plan → k < plan.nodes
        → fate_of plan slot k ≡ Fallen change since shown
        → has_node (planned_members plan slot) k ≡ false }
    ensures falling { (plan : FaultPlan) (slot k since : ℕ) → IsGoodPlan plan
        → fate_of plan slot k ≡ Falling Receiving since
        → IsSenderLost plan slot since }
    ensures nodes { (plan : FaultPlan) (slot : ℕ) → IsGoodPlan plan
        → planned_members plan slot ≡ filter (has_node (planned_members plan slot)) (below plan.nodes) }
{}

/// A node that returns was lost two rounds before it is armed (`armed`). It listens until it enters
/// (`listens`), in a good slot of another node (`entry`); and no node is lost in all that time (`quiet`).
pub fn returns_known()
    ensures armed { (plan : FaultPlan) (slot k : ℕ) → IsGoodPlan plan → is_armed_by plan (suc slot) k ≡ true
        → (change : Change) × ((since : ℕ) × ((shown : ℕ)
        × ((fate_of plan slot k ≡ Fallen change since shown) × (since + 2 * plan.nodes ≤ suc slot)))) }
    ensures listens { (plan : FaultPlan) (r : Return) (slot : ℕ) → IsGoodPlan plan → Contains plan.returns r
        → r.armed ≤ slot → slot < r.entered
        → fate_of plan slot r.node ≡ Listening r.armed }
    ensures entry { (plan : FaultPlan) (slot k : ℕ) → IsGoodPlan plan → enters plan slot k ≡ true
        → (is_good_slot plan slot ≡ true) × (sender plan slot ≢ k) }
    ensures quiet { (plan : FaultPlan) (r : Return) (slot : ℕ) → IsGoodPlan plan → Contains plan.returns r
        → r.armed ≤ slot → slot ≤ r.entered
        → incident_at plan slot ≡ None }
{}

/// What a node has counted since its own slot: at most one first own slot of a lost node, and none in
/// its first round, after the start or its entry; and when its next slot comes, a good slot of each other
/// node that was sound in all of the last round, of which there are three or more. In each round four
/// good slots or more are measured.
pub fn counts_known()
    ensures ledger { (plan : FaultPlan) (slot k : ℕ) → IsGoodPlan plan → k < plan.nodes
        → IsLedgerOf plan slot k (ledger_of plan slot k) }
    ensures bad { (plan : FaultPlan) (slot k : ℕ) → IsGoodPlan plan → k < plan.nodes → (ledger_of plan slot k).bad ≤ 1 }
    ensures bad_at_first { (plan : FaultPlan) (slot k : ℕ) → IsGoodPlan plan → k < plan.nodes
        → (ledger_of plan slot k).own ≡ false
        → (ledger_of plan slot k).bad ≡ 0 }
    ensures seen { (plan : FaultPlan) (slot k : ℕ) → IsGoodPlan plan → k < plan.nodes → sender plan (suc slot) ≡ k
        → (ledger_of plan slot k).own ≡ true
        → length (lasting_nodes plan slot) ≤ suc (ledger_of plan slot k).seen }
    ensures lasting { (plan : FaultPlan) (slot : ℕ) → IsGoodPlan plan → slot < plan.slots
        → 4 ≤ length (lasting_nodes plan slot) }
    ensures measured { (plan : FaultPlan) (slot from : ℕ) → IsGoodPlan plan → slot < plan.slots
        → from + plan.nodes ≡ suc slot
        → 4 ≤ tally (is_measured plan) from plan.nodes }
{}
