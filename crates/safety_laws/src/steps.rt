//! The laws of membership under single faults, slot by slot: an invariant that each slot of a planned run
//! keeps, and the safety that follows. The functions do nothing; their contracts are the laws.
//!
//! After the slot of the start, and after each slot more, each node is what its fate by the plan says
//! (`HoldsAfter` of `specs/PlanTurn.antt`, `IsByFate` of `specs/ByFate.antt`): a sound node stands where
//! the plan stands, and its members, counts and acknowledgement are those of the plan; a lost node has
//! left, or no frame answers its own; an absent node is off; one that is armed listens, and enters on the
//! first frame of a sound node that it can join on.
//!
//! Of clocks a slot takes as a premise what it needs (`ClocksHold` of `specs/ClocksHold.antt`): between
//! sound nodes a deviation lies inside the window, and a node whose clock jumped is outside it, and they
//! outside its own, up to its first own slot. Of the plan a caller shows that it is good, and that the
//! script follows it (`IsBegunAlone` of `specs/PlannedRun.antt`, `FollowsPlan` of `fault_plan`).
//!
//! The proof of a step goes by the fate of the slot's sender: `proofs/Arrivals.antt` says what comes,
//! `proofs/Receivers.antt` and `SoundSteps.antt` what a sound receiver makes of it, `LostSteps.antt` what
//! a lost node does, `Returners.antt` what an armed one does, and `WorldSteps.antt` joins them. Others cite
//! `WorldSteps.antt`, `SafeByFate.antt` and `PlanTurns.antt`, and `rejoin` `SafeBack.antt`.
ghost use Rattle.std.specs.Prelude.{◌≡◌, ℕ, suc, ◌+◌, ◌*◌, ◌<◌, ◌≤◌, true, ◌∷◌, length, Some};
ghost use Rattle.ttp_world.specs.declared.medl.Medl.{Medl};
ghost use Rattle.ttp_world.specs.declared.node.Phase.TheVariants as phase;
ghost use Rattle.ttp_world.specs.declared.script.Script.{Script};
ghost use Rattle.ttp_world.specs.BackSafety.{IsBackSafe};
ghost use Rattle.ttp_world.specs.Diary.{History};
ghost use Rattle.ttp_world.specs.Hypothesis.{ClusterStart, is_correct_after};
ghost use Rattle.ttp_world.specs.Returning.{is_back_correct_after};
ghost use Rattle.ttp_world.specs.Safety.{newest_slot, IsSafe};
ghost use Rattle.ttp_world.specs.World.{SlotNumbers, Numbers, node_past, world};
ghost use Rattle.safety_laws.specs.Plan.{Change, Sending, FaultPlan};
ghost use Rattle.safety_laws.specs.Fates.{Fallen, fate_of, lost_since};
ghost use Rattle.safety_laws.specs.ByFate.{IsSoundAt};
ghost use Rattle.safety_laws.specs.Gone.{FaultyLeave};
ghost use Rattle.safety_laws.specs.PlanTurn.{HoldsAfter, IsTurn};
ghost use Rattle.safety_laws.specs.PlannedRun.{IsBegunAlone, StandsWithFaults, StandsBack};

/// After the slot of the start each node is what its fate says (`first`), and so it is after each turn
/// more (`next`), if deviations lie as `ClocksHold` says in the turn's slot: whichever faults the plan
/// brings, of senders, of receivers or of clocks that jump.
pub fn by_fate()
    ensures first { (list : Medl) (script : Script) (start : ClusterStart) (plan : FaultPlan) (new : SlotNumbers)
        (numbers : Numbers) → IsBegunAlone list script start plan → length numbers ≡ start.slot
        → HoldsAfter list script plan 0 (world list script (new ∷ numbers)) }
    ensures next { (list : Medl) (script : Script) (start : ClusterStart) (plan : FaultPlan) (turn : ℕ)
        (new : SlotNumbers)
        (numbers : Numbers) → IsTurn list script start plan turn new numbers
        → HoldsAfter list script plan (suc turn) (world list script (new ∷ numbers)) }
{}

/// What that says of the nodes that the hypothesis test calls correct and faulty. A correct node holds the
/// plan's members, and in doubt the node that it doubts (`correct`). A node that was lost has left a round
/// after its first own slot since then (`gone`): so a sender has left a round after it was lost
/// (`sender`), and every other node two rounds after, less two slots (`other`). By then no correct node
/// holds it either (`leave`). And the tests of safety hold (`safe`).
pub fn safe_by_fate()
    ensures correct { (list : Medl) (script : Script) (start : ClusterStart) (plan : FaultPlan) (turn : ℕ)
        (history : History) → StandsWithFaults list script start plan turn history
        → (k : ℕ) → k < length list.slots → is_correct_after list script (newest_slot history) k ≡ true
        → IsSoundAt list plan turn k (node_past list script history k) }
    ensures gone { (list : Medl) (script : Script) (start : ClusterStart) (plan : FaultPlan) (turn : ℕ)
        (history : History)
        → StandsWithFaults list script start plan turn history
        → (k since shown : ℕ) (change : Change) → k < length list.slots
        → fate_of plan turn k ≡ Fallen change since shown → shown + plan.nodes ≤ turn
        → (node_past list script history k).phase ≡ phase.Left }
    ensures sender { (list : Medl) (script : Script) (start : ClusterStart) (plan : FaultPlan) (turn : ℕ)
        (history : History)
        → StandsWithFaults list script start plan turn history
        → (k since shown : ℕ) → k < length list.slots → fate_of plan turn k ≡ Fallen Sending since shown
        → since + plan.nodes ≤ turn
        → (node_past list script history k).phase ≡ phase.Left }
    ensures other { (list : Medl) (script : Script) (start : ClusterStart) (plan : FaultPlan) (turn : ℕ)
        (history : History)
        → StandsWithFaults list script start plan turn history
        → (k since : ℕ) → k < length list.slots → lost_since (fate_of plan turn k) ≡ Some since
        → since + 2 * plan.nodes ≤ suc (suc turn)
        → (node_past list script history k).phase ≡ phase.Left }
    ensures leave { (list : Medl) (script : Script) (start : ClusterStart) (plan : FaultPlan) (turn : ℕ)
        (history : History)
        → StandsWithFaults list script start plan turn history
        → FaultyLeave list script history }
    ensures safe { (list : Medl) (script : Script) (start : ClusterStart) (plan : FaultPlan) (turn : ℕ)
        (history : History)
        → StandsWithFaults list script start plan turn history
        → IsSafe list script history }
{}

/// The same by a plan in which lost nodes return: the tests of safety with armed nodes hold (`safe`), and
/// each node that is correct by that test is a sound one of the plan (`correct`). So a node that was armed
/// four rounds ago has entered, holds the members that each such node holds, and is one of them.
pub fn back_safe_by_fate()
    ensures correct { (list : Medl) (script : Script) (start : ClusterStart) (plan : FaultPlan) (turn : ℕ)
        (history : History) → StandsBack list script start plan turn history
        → (k : ℕ) → k < length list.slots → is_back_correct_after list script (newest_slot history) k ≡ true
        → IsSoundAt list plan turn k (node_past list script history k) }
    ensures safe { (list : Medl) (script : Script) (start : ClusterStart) (plan : FaultPlan) (turn : ℕ)
        (history : History)
        → StandsBack list script start plan turn history
        → IsBackSafe list script history }
{}
