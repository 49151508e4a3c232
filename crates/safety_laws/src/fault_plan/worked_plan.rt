//! Plans that were worked out by hand. The functions have no code: their contracts are the cases, and
//! the check computes them.
ghost use Rattle.std.specs.Prelude.{◌≡◌, true, false, [], ◌∷◌, map, Some};
ghost use Rattle.ttp_world.specs.declared.keep.Keep.TheVariants as keep;
ghost use Rattle.ttp_world.specs.Hypothesis.{keeps, start_of};
ghost use Rattle.safety_laws.specs.Plan.{Sending, Receiving, Jumping, fault_plan_of};
ghost use Rattle.safety_laws.specs.Fates.{Sound, Falling, Fallen, Listening, fate_of, lasting_nodes};
ghost use Rattle.safety_laws.specs.Ledger.{planned_members, ledger_of};
ghost use Rattle.safety_laws.specs.SlotKind.{Idle, Good, Lost, Shown, Last, slot_kind};
ghost use Rattle.safety_laws.specs.WorkedPlan.{seven_nodes, three_faults, first_start, three_losses, one_return};

/// A script with a fault of each kind keeps the hypothesis, and this is its plan. Its slots are counted
/// from slot 14 on.
///
/// Node 2 is lost in its own slot 16, which is its first own slot as a lost node. Node 5 is lost in
/// slot 31, in which node 3 sends, and its own slot is 33. So until then it is a member, and node 3
/// counts it in slot 33 as a bad one, after node 4's good one in slot 32. Node 0's clock jumps in
/// slot 46, and its own slot is 49.
fn one_of_each()
    ensures keeps { keeps seven_nodes three_faults ≡ keep.Yes 14 }
    ensures start { start_of seven_nodes three_faults ≡ Some first_start }
    ensures plan { fault_plan_of seven_nodes three_faults first_start ≡ three_losses }
    ensures sender { fate_of three_losses 20 2 ≡ Fallen Sending 16 16 }
    ensures receiver { fate_of three_losses 32 5 ≡ Falling Receiving 31 }
    ensures receiver_shown { fate_of three_losses 33 5 ≡ Fallen Receiving 31 33 }
    ensures jumper { fate_of three_losses 48 0 ≡ Falling Jumping 46 }
    ensures jumper_shown { fate_of three_losses 49 0 ≡ Fallen Jumping 46 49 }
    ensures left { lasting_nodes three_losses 49 ≡ 1 ∷ 3 ∷ 4 ∷ 6 ∷ [] }
    ensures members { planned_members three_losses 32 ≡ 0 ∷ 1 ∷ 3 ∷ 4 ∷ 5 ∷ 6 ∷ [] }
    ensures members_then { planned_members three_losses 33 ≡ 0 ∷ 1 ∷ 3 ∷ 4 ∷ 6 ∷ [] }
    ensures kinds { map (slot_kind three_losses) (15 ∷ 16 ∷ 17 ∷ 23 ∷ 30 ∷ 33 ∷ 46 ∷ 49 ∷ 56 ∷ [])
        ≡ Good ∷ Lost Sending ∷ Good ∷ Last Sending 16 16 ∷ Idle ∷ Shown Receiving 31 ∷ Good ∷ Shown Jumping 46
        ∷ Last Jumping 46 49 ∷ [] }
    ensures ledger { ledger_of three_losses 33 3 ≡ record { own = true; base = 31; seen = 1; bad = 1 } }
    ensures first_ledger { ledger_of three_losses 2 3 ≡ record { own = false; base = 0; seen = 2; bad = 0 } }
{}

/// A node returns. It listens from its arm slot on, and is sound from the slot in which it enters. It is
/// no member before its own slot, the sixth after that one, in which it has seen the five good slots in
/// between; and it counts among the nodes that last once a round is over since its entry.
fn one_comes_back()
    ensures lost { fate_of one_return 29 2 ≡ Fallen Sending 16 16 }
    ensures armed { fate_of one_return 30 2 ≡ Listening 30 }
    ensures entered { fate_of one_return 31 2 ≡ Sound }
    ensures kinds { map (slot_kind one_return) (23 ∷ 30 ∷ 31 ∷ 37 ∷ [])
        ≡ Last Sending 16 16 ∷ Idle ∷ Good ∷ Good ∷ [] }
    ensures ledger { ledger_of one_return 36 2 ≡ record { own = false; base = 31; seen = 5; bad = 0 } }
    ensures own_ledger { ledger_of one_return 37 2 ≡ record { own = true; base = 37; seen = 0; bad = 0 } }
    ensures members { planned_members one_return 36 ≡ 0 ∷ 1 ∷ 3 ∷ 4 ∷ 5 ∷ 6 ∷ [] }
    ensures members_then { planned_members one_return 37 ≡ 0 ∷ 1 ∷ 2 ∷ 3 ∷ 4 ∷ 5 ∷ 6 ∷ [] }
    ensures lasting { lasting_nodes one_return 37 ≡ 0 ∷ 1 ∷ 3 ∷ 4 ∷ 5 ∷ 6 ∷ [] }
    ensures lasting_then { lasting_nodes one_return 38 ≡ 0 ∷ 1 ∷ 2 ∷ 3 ∷ 4 ∷ 5 ∷ 6 ∷ [] }
{}
