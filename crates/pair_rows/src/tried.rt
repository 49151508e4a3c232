//! Which pairs there are.

ghost use Rattle.std.specs.Prelude.{◌≡◌, pos, negsuc, [], ◌∷◌, map};
ghost use Rattle.ttp_world.specs.declared.script.Event.TheVariants as event;
ghost use Rattle.ttp_world.specs.declared.script.Fault.TheVariants as fault;
ghost use Rattle.ttp_base.specs.NodeSet.{below};
ghost use Rattle.campaign.specs.Tried.{both_channels};
ghost use Rattle.ttp_world.specs.ZerosWorld.{zeros_world};
ghost use Rattle.fault_pairs.specs.Pairs.{firsts_from, seconds_of, second_apart};
ghost use Rattle.pair_rows.specs.Clusters.{plain_bus, quiet_run, node_0_alone};
ghost use Rattle.pair_rows.specs.Told.{first_in, how_many_apart, how_many_of};

/// The first faults of a slot, each with those behind it. Slots that the script does not have have none.
pub fn first_faults()
    ensures slot { firsts_from (plain_bus 4 1) node_0_alone (zeros_world (plain_bus 4 1) node_0_alone 12) 10 10
        ≡ record { slot = 10; fault = event.Jump 0 (pos 4) 10; behind = event.Jump 0 (negsuc 3) 10 ∷ event.Jump 0 (pos 1) 10 ∷ event.Jump 0 (negsuc 0) 10 ∷ [] }
        ∷ record { slot = 10; fault = event.Jump 0 (negsuc 3) 10; behind = event.Jump 0 (pos 1) 10 ∷ event.Jump 0 (negsuc 0) 10 ∷ [] }
        ∷ record { slot = 10; fault = event.Jump 0 (pos 1) 10; behind = event.Jump 0 (negsuc 0) 10 ∷ [] }
        ∷ record { slot = 10; fault = event.Jump 0 (negsuc 0) 10; behind = [] } ∷ [] }
    ensures past { firsts_from (plain_bus 4 1) node_0_alone (zeros_world (plain_bus 4 1) node_0_alone 12) 12 30 ≡ [] }
{}

/// The second faults of the last of them: none of its own slot, and those of the one slot behind it that the script has.
pub fn second_faults()
    ensures { seconds_of (plain_bus 4 1) node_0_alone 3 (first_in 10 (event.Jump 0 (negsuc 0) 10))
        ≡ second_apart 1 (event.Jump 0 (pos 4) 11) ∷ second_apart 1 (event.Jump 0 (negsuc 3) 11)
        ∷ second_apart 1 (event.Jump 0 (pos 1) 11) ∷ second_apart 1 (event.Jump 0 (negsuc 0) 11) ∷ [] }
{}

/// A frame of node 3 is lost in slot 15, and node 3 leaves two slots later: from the third slot behind on it has no faults,
/// though in the script's own run it has. In its slot 19 nobody sends, and the three others have jumps alone.
pub fn a_node_that_left_has_no_faults()
    ensures all { map (how_many_apart (seconds_of (plain_bus 4 1) (quiet_run 4 24) 4
        (first_in 15 (event.Send 3 both_channels fault.Silence 15 15)))) (below 6) ≡ 0 ∷ 64 ∷ 64 ∷ 48 ∷ 12 ∷ 0 ∷ [] }
    ensures own { map (how_many_of 3 (seconds_of (plain_bus 4 1) (quiet_run 4 24) 4
        (first_in 15 (event.Send 3 both_channels fault.Silence 15 15)))) (below 6) ≡ 0 ∷ 16 ∷ 16 ∷ 0 ∷ 0 ∷ 0 ∷ [] }
{}
