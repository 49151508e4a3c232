//! Clocks that jump: what a node that jumped four windows or more hears and does, which jumps the
//! hypothesis allows, and who is faulty by them.
ghost use Rattle.std.specs.Prelude.{◌≡◌, [], ◌∷◌, ◌++◌, pos, negsuc, true, false, codes};
ghost use Rattle.ttp_world.specs.declared.keep.Keep.TheVariants as keep;
ghost use Rattle.ttp_world.specs.declared.script.Event.TheVariants as event;
ghost use Rattle.ttp_world.specs.declared.script.Fault.TheVariants as fault;
ghost use Rattle.ttp_world.specs.Hypothesis.{keeps, faulty_after, faulty_nodes_after, is_correct_after};
ghost use Rattle.world_rows.specs.Cases.{bare_list, all_on_script, script_on, bare_run, lines_in, hold_from};
ghost use Rattle.world_rows.specs.Cases.{is_safe_from, both};
ghost use Rattle.world_rows.specs.Jumps.{far_jump, jumps_and_a_loss, without_node_3, late_node_3, six_nodes_keep};
ghost use Rattle.world_rows.specs.Jumps.{late_nodes_keep, wide_window_keeps};

/// Node 3's clock jumps by four windows in slot 26. From then on it takes no frame for one, nobody
/// takes its own, and it leaves in its second next slot; the others go on without it.
pub fn far_jump_of_a_clock()
    ensures run { let run = bare_run (bare_list 6) far_jump 36 in
        (lines_in (bare_list 6) far_jump run ((26, 3) ∷ (27, 3) ∷ (27, 2) ∷ (33, 3) ∷ [])
        ≡ codes "slot 26 node 3 invalid peer 2 msg - mem 003b acc 5 rej 1 ack none clock 4\n"
        ++ codes "slot 27 node 3 send peer 3 msg - mem 003b acc 1 rej 0 ack first clock 4\n"
        ++ codes "slot 27 node 2 invalid peer 3 msg - mem 0037 acc 1 rej 1 ack first clock 0\n"
        ++ codes "slot 33 node 3 unacknowledged peer 3 msg - mem 0000 acc 0 rej 0 ack none clock 4\n")
        × (hold_from 33 (bare_list 6) run (0 ∷ 1 ∷ 2 ∷ 4 ∷ 5 ∷ []) (0 ∷ 1 ∷ 2 ∷ 4 ∷ 5 ∷ []) ≡ true)
        × (is_safe_from 26 (bare_list 6) far_jump run ≡ true) }
    ensures keeps { keeps (bare_list 6) far_jump ≡ keep.Yes 12 }
{}

/// A jump by three windows, a second jump of a node, and a jump too early.
pub fn jumps_that_break_a_rule()
    ensures near { six_nodes_keep 48 (event.Jump 3 (pos 3) 26 ∷ []) ≡ keep.No 3 26 }
    ensures second { six_nodes_keep 48 (event.Jump 3 (pos 4) 26 ∷ event.Jump 3 (negsuc 3) 40 ∷ []) ≡ keep.No 3 40 }
    ensures second_by_nothing { six_nodes_keep 41 (event.Jump 3 (pos 4) 26 ∷ event.Jump 3 (pos 0) 40 ∷ [])
        ≡ keep.No 3 40 }
    ensures early { six_nodes_keep 48 (event.Jump 3 (pos 4) 20 ∷ []) ≡ keep.No 6 20 }
{}

/// Two lines of one slot are one jump, by what they add up to.
pub fn jumps_that_add_up()
    ensures too_little { six_nodes_keep 27 (event.Jump 3 (pos 2) 26 ∷ event.Jump 3 (pos 1) 26 ∷ []) ≡ keep.No 3 26 }
    ensures enough { six_nodes_keep 27 (event.Jump 3 (pos 2) 26 ∷ event.Jump 3 (pos 2) 26 ∷ []) ≡ keep.Yes 12 }
    ensures enough_back { six_nodes_keep 27 (event.Jump 3 (negsuc 0) 26 ∷ event.Jump 3 (negsuc 2) 26 ∷ [])
        ≡ keep.Yes 12 }
    ensures against_each_other { six_nodes_keep 27 (event.Jump 3 (pos 5) 26 ∷ event.Jump 3 (negsuc 1) 26 ∷ [])
        ≡ keep.No 3 26 }
    ensures that_cancel { six_nodes_keep 27 (event.Jump 3 (pos 4) 26 ∷ event.Jump 3 (negsuc 3) 26 ∷ []) ≡ keep.No 3 26 }
{}

/// Four windows are enough, in either direction, and one microtick less is not: with a window of one
/// microtick, and of five.
pub fn jumps_of_four_windows()
    ensures ahead { six_nodes_keep 27 (event.Jump 3 (pos 4) 26 ∷ []) ≡ keep.Yes 12 }
    ensures back { six_nodes_keep 27 (event.Jump 3 (negsuc 3) 26 ∷ []) ≡ keep.Yes 12 }
    ensures less_back { six_nodes_keep 27 (event.Jump 3 (negsuc 2) 26 ∷ []) ≡ keep.No 3 26 }
    ensures five_ahead { wide_window_keeps (pos 20) ≡ keep.Yes 12 }
    ensures five_less_ahead { wide_window_keeps (pos 19) ≡ keep.No 3 26 }
    ensures five_back { wide_window_keeps (negsuc 19) ≡ keep.Yes 12 }
    ensures five_less_back { wide_window_keeps (negsuc 18) ≡ keep.No 3 26 }
{}

/// A jump of a node that is off is held to the rule on jumps like any other, but makes no node
/// faulty: node 3 is never on, or is switched on in slot 8.
pub fn jumps_of_nodes_that_are_off()
    ensures near { late_nodes_keep 27 without_node_3 (event.Jump 3 (pos 3) 26 ∷ []) ≡ keep.No 3 26 }
    ensures far { late_nodes_keep 27 without_node_3 (event.Jump 3 (pos 4) 26 ∷ []) ≡ keep.Yes 12 }
    ensures early { late_nodes_keep 13 without_node_3 (event.Jump 3 (pos 4) 5 ∷ []) ≡ keep.Yes 12 }
    ensures second { late_nodes_keep 27 without_node_3 (event.Jump 3 (pos 4) 5 ∷ event.Jump 3 (pos 4) 26 ∷ [])
        ≡ keep.No 3 26 }
    ensures before_it_is_on { late_nodes_keep 13 late_node_3 (event.Jump 3 (pos 4) 7 ∷ []) ≡ keep.Yes 12 }
    ensures as_it_is_switched_on { late_nodes_keep 13 late_node_3 (event.Jump 3 (pos 4) 8 ∷ []) ≡ keep.No 6 8 }
    ensures before_it_is_on_and_later { late_nodes_keep 27 late_node_3
        (event.Jump 3 (pos 4) 7 ∷ event.Jump 3 (pos 4) 26 ∷ []) ≡ keep.No 3 26 }
    ensures nobody_faulty { faulty_after (bare_list 6) (script_on 27 without_node_3 (event.Jump 3 (pos 4) 26 ∷ [])) 26
        ≡ [] }
{}

/// The start is in slot 12, and the first fault may come in slot 24. A jump before the start is a
/// fault too.
pub fn jumps_near_the_start()
    ensures first_slot { six_nodes_keep 13 (event.Jump 3 (pos 4) 0 ∷ []) ≡ keep.No 6 0 }
    ensures before { six_nodes_keep 13 (event.Jump 3 (pos 4) 11 ∷ []) ≡ keep.No 6 11 }
    ensures at_the_start { six_nodes_keep 13 (event.Jump 3 (pos 4) 12 ∷ []) ≡ keep.No 6 12 }
    ensures too_early { six_nodes_keep 24 (event.Jump 3 (pos 4) 23 ∷ []) ≡ keep.No 6 23 }
    ensures far_enough { six_nodes_keep 25 (event.Jump 3 (pos 4) 24 ∷ []) ≡ keep.Yes 12 }
{}

/// Two nodes that jump in one slot are two faults, and so are a jump and the loss of another node's
/// frame. A node that jumped is asked neither as a sender nor as a receiver.
pub fn jumps_beside_other_faults()
    ensures two_at_once { six_nodes_keep 27 (event.Jump 3 (pos 4) 26 ∷ event.Jump 1 (pos 4) 26 ∷ []) ≡ keep.No 6 26 }
    ensures too_close { six_nodes_keep 38 (event.Jump 3 (pos 4) 26 ∷ event.Jump 1 (pos 4) 37 ∷ []) ≡ keep.No 6 37 }
    ensures far_apart { six_nodes_keep 39 (event.Jump 3 (pos 4) 26 ∷ event.Jump 1 (pos 4) 38 ∷ []) ≡ keep.Yes 12 }
    ensures with_a_loss { six_nodes_keep 27 (event.Jump 3 (pos 4) 26 ∷ event.Send 2 both fault.Noise 26 26 ∷ [])
        ≡ keep.No 6 26 }
    ensures of_the_sender { six_nodes_keep 27 (event.Jump 2 (pos 4) 26 ∷ event.Send 2 both fault.Noise 26 26 ∷ [])
        ≡ keep.Yes 12 }
    ensures of_the_receiver { six_nodes_keep 27 (event.Jump 3 (pos 4) 26 ∷ event.Receive 3 both fault.Noise 26 26 ∷ [])
        ≡ keep.Yes 12 }
    ensures of_one_of_two_receivers { six_nodes_keep 27
        (event.Jump 3 (pos 4) 26 ∷ event.Receive 3 both fault.Noise 26 26 ∷ event.Receive 1 both fault.Noise 26 26 ∷ [])
        ≡ keep.No 6 26 }
    ensures then_deaf { six_nodes_keep 31 (event.Jump 3 (pos 4) 26 ∷ event.Receive 3 both fault.Noise 30 30 ∷ [])
        ≡ keep.Yes 12 }
    ensures one_of_four { keeps (bare_list 4) (all_on_script 4 17 (event.Jump 0 (pos 4) 16 ∷ [])) ≡ keep.No 7 16 }
    ensures one_of_five { keeps (bare_list 5) (all_on_script 5 21 (event.Jump 0 (pos 4) 20 ∷ [])) ≡ keep.Yes 10 }
{}

/// A node is faulty from the slot of its jump on, and correct until then.
pub fn faulty_by_a_jump()
    ensures before { faulty_after (bare_list 6) far_jump 25 ≡ [] }
    ensures since { faulty_nodes_after (bare_list 6) far_jump 26 ≡ record { slot = 26; node = 3 } ∷ [] }
    ensures for_good { faulty_after (bare_list 6) far_jump 47 ≡ 3 ∷ [] }
    ensures correct_before { is_correct_after (bare_list 6) far_jump 25 3 ≡ true }
    ensures no_longer_correct { is_correct_after (bare_list 6) far_jump 26 3 ≡ false }
    ensures others_correct { is_correct_after (bare_list 6) far_jump 26 2 ≡ true }
    ensures all_three { faulty_after (bare_list 6) jumps_and_a_loss 26 ≡ 2 ∷ 1 ∷ 3 ∷ [] }
{}
