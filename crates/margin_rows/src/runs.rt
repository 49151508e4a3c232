//! Sweeps of small clusters, of whose nodes 0 starts.

ghost use Rattle.std.specs.Prelude.{◌≡◌, [], ◌∷◌, map, pos, negsuc, None, Some};
ghost use Rattle.clock_margins.specs.MarginText.{sweep_lines, margin_lines, lines_of_values};
ghost use Rattle.clock_margins.specs.Outcomes.{told_of_value};
ghost use Rattle.clock_margins.specs.Sweeps.{drift_sweep, jump_sweep, reach, sweeps, values_from};
ghost use Rattle.ttp_world.specs.ZerosWorld.{zeros_world};
ghost use Rattle.margin_rows.specs.Clusters.{bus_within, quiet_run, drifting_bus, in_turns, armed_in_34, few};
ghost use Rattle.margin_rows.specs.Texts.{behind_start, with_a_late_node, at_the_edge, far_jumps, jumps_where_armed, four_text, no_text};

/// Node 1 sends in the slot after the start. Past the window its frame is noise there, which ends the cluster; a clock that is
/// one microtick off costs its own node.
pub fn a_clock_behind_the_start()
    ensures { sweep_lines (bus_within 5 1) (quiet_run 5 45) 4 (drift_sweep 1) ≡ behind_start }
{}

/// Clocks that drift in turns: a jump by 24, the window, costs nobody, and one by 25 costs node 3, which had no fault, while
/// node 1 stays. A jump by four windows is a fault that the hypothesis allows, and one by less is none.
pub fn a_jump_at_the_edge()
    ensures edge { lines_of_values drifting_bus 1 (jump_sweep 21 1)
        (map (told_of_value drifting_bus in_turns (jump_sweep 21 1)) (values_from (pos 24) 2)) ≡ at_the_edge }
    ensures far { lines_of_values drifting_bus 1 (jump_sweep 21 1)
        (map (told_of_value drifting_bus in_turns (jump_sweep 21 1)) (values_from (pos 95) 2)) ≡ far_jumps }
{}

/// Node 2 leaves in slot 24 and is armed in slot 34, so that the test is the one on armed nodes. What it costs before the jump
/// is told of each value.
pub fn while_a_node_returns()
    ensures { lines_of_values (bus_within 5 2) 8 (jump_sweep 31 0)
        (map (told_of_value (bus_within 5 2) armed_in_34 (jump_sweep 31 0)) (values_from (pos 2) 2)) ≡ jumps_where_armed }
{}

/// Node 2 is never on, and node 3 comes late: it has a sweep of its drift, and a slot in which it is off has none of its jump.
pub fn nodes_that_are_swept()
    ensures drifts { sweeps (bus_within 4 1) few (zeros_world (bus_within 4 1) few 24) None
        ≡ drift_sweep 0 ∷ drift_sweep 1 ∷ drift_sweep 3 ∷ [] }
    ensures jumps { sweeps (bus_within 4 1) few (zeros_world (bus_within 4 1) few 24) (Some (record { first = 8; last = 9 }))
        ≡ jump_sweep 9 0 ∷ jump_sweep 9 1 ∷ [] }
    ensures split { sweep_lines (bus_within 4 1) few 4 (jump_sweep 15 0) ≡ with_a_late_node }
{}

/// The whole text of four nodes over their drifts; and over slots that the script does not have.
pub fn a_whole_text()
    ensures drifts { margin_lines (bus_within 4 1) (quiet_run 4 24) None ≡ four_text }
    ensures none { margin_lines (bus_within 4 1) (quiet_run 4 24) (Some (record { first = 30; last = 31 })) ≡ no_text }
{}

/// How far values go: four windows, or what a line of a script may say.
pub fn the_reach_of_values()
    ensures drift { reach (bus_within 8 36) None ≡ 144 }
    ensures wide { reach (bus_within 8 1301) None ≡ 1000 }
    ensures jump { reach (bus_within 8 1301) (Some (record { first = 40; last = 40 })) ≡ 5204 }
    ensures widest { reach (bus_within 8 250001) (Some (record { first = 40; last = 40 })) ≡ 1000000 }
{}
