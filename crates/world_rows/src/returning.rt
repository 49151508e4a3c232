//! Whether an armed node is guaranteed its place again.
ghost use Rattle.std.specs.Prelude.{◌≡◌, [], ◌∷◌};
ghost use Rattle.ttp_world.specs.declared.keep.Back.TheVariants as back;
ghost use Rattle.ttp_world.specs.declared.script.Event.TheVariants as event;
ghost use Rattle.ttp_world.specs.declared.script.Fault.TheVariants as fault;
ghost use Rattle.ttp_world.specs.Returning.{returns};
ghost use Rattle.world_rows.specs.Cases.{bare_list, both, only_a};
ghost use Rattle.world_rows.specs.Rejoining.{window_of_two, rearmed_in, implicit_list, armed_until};

/// Node 2 became faulty in slot 26. Armed in slot 40 it is guaranteed its place; three slots earlier it is
/// not, since slot 26 lies in the two rounds up to slot 37. A window of one is too narrow.
pub fn owed_its_place()
    ensures owed { returns window_of_two (rearmed_in 40) ≡ back.Yes 12 }
    ensures too_early { returns window_of_two (rearmed_in 37) ≡ back.No 8 37 }
    ensures narrow_window { returns (bare_list 6) (rearmed_in 40) ≡ back.No 2 0 }
{}

/// Where no frame carries the C-state there is none to join on. That is not asked where the run ends
/// before the two rounds from slot 40 on are over.
pub fn nothing_to_join_on()
    ensures implicit_frames { returns implicit_list (armed_until 52 []) ≡ back.No 8 40 }
    ensures short_run { returns implicit_list (armed_until 51 []) ≡ back.Yes 12 }
{}

/// In the four rounds from slot 40 on, which end with slot 63: the same line again; another node that is
/// armed, in the last of these slots and in the one after it, where that node is not faulty; a line that
/// speaks of node 2 in the last slot; a node that does not hear it in slot 44, on both channels and on
/// one.
pub fn lines_near_an_arm_line()
    ensures again { returns window_of_two (armed_until 72 (event.Arm 2 40 ∷ [])) ≡ back.No 8 40 }
    ensures another { returns window_of_two (armed_until 72 (event.Arm 3 63 ∷ [])) ≡ back.No 8 40 }
    ensures another_later { returns window_of_two (armed_until 72 (event.Arm 3 64 ∷ [])) ≡ back.No 8 64 }
    ensures own_line { returns window_of_two (armed_until 72 (event.Receive 2 only_a fault.Noise 63 65 ∷ []))
        ≡ back.No 8 40 }
    ensures unheard { returns window_of_two (armed_until 72 (event.Receive 3 both fault.Silence 44 44 ∷ []))
        ≡ back.No 8 40 }
    ensures heard_on_one { returns window_of_two (armed_until 72 (event.Receive 3 only_a fault.Silence 44 44 ∷ []))
        ≡ back.Yes 12 }
{}

/// Another node becomes faulty in the last of the four rounds' slots, or in the one after it, in which
/// node 2 is faulty no longer. It is so until then: two others that become faulty leave too few nodes to
/// measure.
pub fn faults_near_an_arm_line()
    ensures near { returns window_of_two (armed_until 72 (event.Receive 1 both fault.Noise 63 63 ∷ []))
        ≡ back.No 8 40 }
    ensures after { returns window_of_two
        (armed_until 72 (event.Receive 1 both fault.Noise 64 64 ∷ [])) ≡ back.Yes 12 }
    ensures faulty_still { returns window_of_two (armed_until 60
        (event.Receive 1 both fault.Noise 39 39 ∷ event.Receive 5 both fault.Noise 52 52 ∷ [])) ≡ back.No 7 52 }
    ensures faulty_no_longer { returns window_of_two (armed_until 80
        (event.Receive 1 both fault.Noise 64 64 ∷ event.Receive 3 both fault.Noise 76 76 ∷ [])) ≡ back.Yes 12 }
{}
