//! The single-fault hypothesis: which rule is broken first, and in which slot.
ghost use Rattle.std.specs.Prelude.{◌≡◌, [], ◌∷◌, pos, negsuc, Some, None, replicate};
ghost use Rattle.ttp_world.specs.declared.keep.Keep.TheVariants as keep;
ghost use Rattle.ttp_world.specs.declared.script.Event.TheVariants as event;
ghost use Rattle.ttp_world.specs.declared.script.Fault.TheVariants as fault;
ghost use Rattle.ttp_world.specs.Hypothesis.{keeps};
ghost use Rattle.world_rows.specs.Cases.{bare_list, bare_list_of, drifting_list, drifting_script, all_on_script};
ghost use Rattle.world_rows.specs.Cases.{script_on, both, only_a};

/// Drifts and reading errors past their bounds. Errors of one slot add up, and a drift is named
/// before an error.
pub fn clocks_past_their_bounds()
    ensures drift { keeps (bare_list 4) (drifting_script 16 (event.Error 1 (pos 1) 5 6 ∷ [])) ≡ keep.No 1 0 }
    ensures error { keeps (bare_list 4)
        (all_on_script 4 16 (event.Error 1 (pos 1) 5 6 ∷ event.Error 2 (negsuc 0) 4 4 ∷ []))
        ≡ keep.No 1 4 }
    ensures errors_that_cancel { keeps (bare_list 4)
        (all_on_script 4 16 (event.Error 1 (pos 1) 5 6 ∷ event.Error 1 (negsuc 0) 5 5 ∷ [])) ≡ keep.No 1 6 }
{}

/// A window that is too narrow by one, and one that is wide enough.
pub fn narrow_windows()
    ensures narrow { keeps (drifting_list (pos 16)) (all_on_script 4 16 []) ≡ keep.No 2 0 }
    ensures wide { keeps (drifting_list (pos 17)) (all_on_script 4 16 []) ≡ keep.Yes 8 }
{}

/// Flipped bits, armed nodes and jumps that are too short, of which the least slot is named, also of a
/// jump by nothing.
pub fn faults_outside_the_hypothesis()
    ensures flip { keeps (bare_list 4) (all_on_script 4 16 (event.Flip 1 both 16 12 ∷ event.Jump 2 (pos 1) 13 ∷ []))
        ≡ keep.No 3 12 }
    ensures jump { keeps (bare_list 4) (all_on_script 4 16 (event.Flip 1 only_a 16 12 ∷ event.Jump 2 (pos 0) 11 ∷ []))
        ≡ keep.No 3 11 }
    ensures arm { keeps (bare_list 4) (all_on_script 4 16
        (event.Flip 1 both 16 12 ∷ event.Arm 2 9 ∷ event.Jump 2 (pos 1) 11 ∷ [])) ≡ keep.No 3 9 }
    ensures flip_before_a_far_jump { keeps (bare_list 4)
        (all_on_script 4 16 (event.Flip 1 both 16 12 ∷ event.Jump 2 (pos 4) 11 ∷ [])) ≡ keep.No 3 12 }
{}

/// No starter, two that reach the same slot, and a node that comes too late; two starters of which
/// one comes later, and a node that is switched on in the very slot of the start, are in order. The
/// start may lie past the end of the run.
pub fn starters()
    ensures nobody_may { keeps (bare_list_of 5 []) (all_on_script 5 20 []) ≡ keep.No 4 0 }
    ensures starter_is_off { keeps (bare_list 5) (script_on 20 (None ∷ replicate 4 (Some 0)) []) ≡ keep.No 4 0 }
    ensures two_at_once { keeps (bare_list_of 5 (0 ∷ 1 ∷ [])) (script_on 20 (Some 1 ∷ replicate 4 (Some 0)) [])
        ≡ keep.No 4 0 }
    ensures too_late { keeps (bare_list 5) (script_on 20 (Some 0 ∷ Some 11 ∷ replicate 3 (Some 0)) []) ≡ keep.No 4 0 }
    ensures just_in_time { keeps (bare_list 5) (script_on 20 (Some 0 ∷ Some 10 ∷ replicate 3 (Some 0)) [])
        ≡ keep.Yes 10 }
    ensures two_in_turn { keeps (bare_list_of 5 (0 ∷ 1 ∷ [])) (all_on_script 5 20 []) ≡ keep.Yes 10 }
    ensures past_the_end { keeps (bare_list 5) (all_on_script 5 3 []) ≡ keep.Yes 10 }
{}

/// Two of five receivers lose a frame; one loses it, or all do, or the second has a channel left.
pub fn losses()
    ensures two { keeps (bare_list 6) (all_on_script 6 48
        (event.Receive 1 both fault.Noise 26 26 ∷ event.Receive 3 both fault.Silence 26 26 ∷ [])) ≡ keep.No 5 26 }
    ensures one { keeps (bare_list 6) (all_on_script 6 48
        (event.Receive 1 both fault.Noise 26 26 ∷ event.Receive 3 only_a fault.Silence 26 26 ∷ [])) ≡ keep.Yes 12 }
    ensures all { keeps (bare_list 6) (all_on_script 6 48
        (event.Send 2 both fault.Silence 26 26 ∷ event.Receive 3 both fault.Silence 26 26 ∷ [])) ≡ keep.Yes 12 }
    ensures own_frame { keeps (bare_list 6) (all_on_script 6 48 (event.Receive 2 both fault.Noise 26 26 ∷ []))
        ≡ keep.Yes 12 }
{}

/// Faults too close to one another or to the start. The first fault may come two rounds after the
/// start and the next two rounds after the one before.
pub fn distances_of_faults()
    ensures too_close { keeps (bare_list 7)
        (all_on_script 7 70 (event.Receive 3 both fault.Noise 28 28 ∷ event.Send 6 both fault.Noise 41 41 ∷ []))
        ≡ keep.No 6 41 }
    ensures far_enough { keeps (bare_list 7)
        (all_on_script 7 70 (event.Receive 3 both fault.Noise 28 28 ∷ event.Send 0 both fault.Noise 42 42 ∷ []))
        ≡ keep.Yes 14 }
    ensures too_early { keeps (bare_list 7) (all_on_script 7 70 (event.Receive 3 both fault.Noise 27 27 ∷ []))
        ≡ keep.No 6 27 }
{}

/// Too few nodes for the clocks: after a fault, and at the start itself, be it past the end.
pub fn too_few_for_the_clocks()
    ensures after_a_fault { keeps (bare_list 4) (all_on_script 4 30 (event.Send 0 both fault.Noise 16 16 ∷ []))
        ≡ keep.No 7 16 }
    ensures at_the_start { keeps (bare_list 4) (script_on 30 (Some 0 ∷ Some 0 ∷ Some 0 ∷ None ∷ []) []) ≡ keep.No 7 8 }
    ensures past_the_end { keeps (bare_list 4) (script_on 3 (Some 0 ∷ Some 0 ∷ Some 0 ∷ None ∷ []) []) ≡ keep.No 7 8 }
{}
