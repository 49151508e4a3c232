//! The rules at lists and scripts that were worked out by hand. The functions have no code: their
//! contracts are the cases, and the check computes them.
ghost use Rattle.std.specs.Prelude.{◌≡◌, [], ◌∷◌, pos, negsuc, Some, None, replicate};
ghost use Rattle.ttp_world.specs.declared.script.Event.TheVariants as event;
ghost use Rattle.ttp_world.specs.declared.script.Fault.TheVariants as fault;
ghost use Rattle.two_faced.specs.declared.faced.Faced.TheVariants as faced;
ghost use Rattle.two_faced.specs.Faced.{bound, faced_of};
ghost use Rattle.two_faced.specs.Seen.{seen_of};
ghost use Rattle.two_faced.specs.WorkedCases.{one_starter, two_starters, four_on_script, gaining_script, both};
ghost use Rattle.two_faced.specs.WorkedCases.{no_numbers_in_run};

/// Two receivers see node 3's clock 28 microticks apart in its slot 19, each 14 off, which is the window
/// less the bound.
fn two_faced_sender()
    ensures answer { faced_of (one_starter (pos 64))
        (four_on_script (event.Error 0 (pos 14) 19 19 ∷ event.Error 1 (negsuc 13) 19 19 ∷ [])) 3 ≡ faced.Yes 8 }
    ensures bound { bound (one_starter (pos 64)) ≡ pos 50 }
{}

/// The list has no such node, which is told before a drift or an error.
fn no_such_node()
    ensures { faced_of (one_starter (pos 64)) (four_on_script (event.Error 0 (pos 15) 19 19 ∷ [])) 4 ≡ faced.No 0 0 }
{}

/// Reading errors that go too far, in a slot of another node, and before two rounds have passed; errors of
/// one slot add up. Where two nodes would start in one slot, no error goes further than the list's.
fn errors_past_their_bound()
    ensures too_far { faced_of (one_starter (pos 64)) (four_on_script (event.Error 0 (pos 15) 19 19 ∷ [])) 3
        ≡ faced.No 1 19 }
    ensures too_far_together { faced_of (one_starter (pos 64))
        (four_on_script (event.Error 0 (pos 14) 19 19 ∷ event.Error 0 (pos 1) 19 19 ∷ [])) 3 ≡ faced.No 1 19 }
    ensures other_sender { faced_of (one_starter (pos 64)) (four_on_script (event.Error 0 (pos 1) 18 19 ∷ [])) 3
        ≡ faced.No 1 18 }
    ensures too_early { faced_of (one_starter (pos 64)) (four_on_script (event.Error 0 (pos 1) 15 15 ∷ [])) 3
        ≡ faced.No 1 15 }
    ensures two_starters { faced_of two_starters
        (gaining_script (Some 1 ∷ replicate 3 (Some 0)) (event.Error 0 (pos 1) 20 20 ∷ [])) 3 ≡ faced.No 1 20 }
{}

/// The narrowest window, and one that is narrower by one.
fn windows()
    ensures narrow { faced_of (one_starter (pos 49)) (four_on_script []) 3 ≡ faced.No 2 0 }
    ensures wide { faced_of (one_starter (pos 50)) (four_on_script []) 3 ≡ faced.Yes 8 }
{}

/// Other faults, of which the least slot is named. An armed node is none.
fn other_faults()
    ensures least { faced_of (one_starter (pos 64)) (four_on_script (event.Flip 1 both 16 23
        ∷ event.Receive 2 both fault.Noise 21 25 ∷ event.Jump 2 (pos 1) 22 ∷ [])) 3 ≡ faced.No 3 21 }
    ensures sent { faced_of (one_starter (pos 64)) (four_on_script (event.Send 3 both fault.Silence 20 27 ∷ [])) 3
        ≡ faced.No 3 20 }
    ensures armed { faced_of (one_starter (pos 64)) (four_on_script (event.Arm 2 20 ∷ [])) 3 ≡ faced.Yes 8 }
{}

/// A node that comes on after the start, and one that never does, so that three are left to measure.
fn nodes_that_are_off()
    ensures late { faced_of (one_starter (pos 64))
        (gaining_script (Some 0 ∷ Some 9 ∷ Some 0 ∷ Some 0 ∷ []) (event.Error 0 (pos 14) 19 19 ∷ [])) 3 ≡ faced.No 4 0 }
    ensures never { faced_of (one_starter (pos 64)) (gaining_script (Some 0 ∷ None ∷ Some 0 ∷ Some 0 ∷ []) []) 3
        ≡ faced.No 5 0 }
{}

/// In that run node 0 notes 0, -4, -5 and 8 over the round that ends with slot 19, so it corrects by -2 and
/// shows 13. After slot 22 it shows 16 and node 1 shows 8.
#[tactic(auto, unfolding(ttp_base::specs::NodeSet::with_node, ttp_base::specs::NodeSet::members_in))]
fn clocks_beside_it()
    ensures { seen_of (one_starter (pos 64))
        (four_on_script (event.Error 0 (pos 14) 19 19 ∷ event.Error 1 (negsuc 13) 19 19 ∷ [])) no_numbers_in_run 3
        ≡ record { value = pos 8; slot = 22 } }
{}
