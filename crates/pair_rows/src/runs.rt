//! Pairs of small clusters, of whose nodes 0 starts.

ghost use Rattle.std.specs.Prelude.{◌≡◌, pos, true, false};
ghost use Rattle.ttp_world.specs.declared.script.Event.TheVariants as event;
ghost use Rattle.ttp_world.specs.declared.script.Fault.TheVariants as fault;
ghost use Rattle.campaign.specs.Tried.{both_channels, only_a, only_b};
ghost use Rattle.fault_pairs.specs.declared.pair.PairClass.TheVariants as class;
ghost use Rattle.fault_pairs.specs.PairText.{pairs_lines};
ghost use Rattle.pair_rows.specs.Clusters.{plain_bus, quiet_run, two_deaf_on_a, armed_in_34, node_3_gone, node_0_alone};
ghost use Rattle.pair_rows.specs.Told.{told_case, class_case, yes_case};
ghost use Rattle.pair_rows.specs.Texts.{third_where_deaf, third_where_armed, third_of_three, torn_apart, all_dead, lone_text};

/// Nodes 3 and 4 hear nothing on channel A. Node 0 misses the frame of node 2, which is lost on channel B besides: then node 1
/// leaves, which had no fault.
pub fn two_receivers_of_one_frame()
    ensures { told_case (plain_bus 5 1) two_deaf_on_a 22 0 (event.Receive 0 both_channels fault.Silence 22 22)
        (event.Send 2 only_b fault.Silence 22 22)
        ≡ record { apart = 0; yes = false; class = class.Third; line = third_where_deaf } }
{}

/// Two jumps where node 2 is armed, so that the test is the one on armed nodes.
pub fn two_jumps_where_a_node_is_armed()
    ensures { told_case (plain_bus 5 2) armed_in_34 32 0 (event.Jump 0 (pos 8) 32) (event.Jump 3 (pos 8) 32)
        ≡ record { apart = 0; yes = false; class = class.Third; line = third_where_armed } }
{}

/// Node 3 has left in the script's own run: it is no third node, and leaves by neither fault alone.
pub fn a_node_that_is_not_there()
    ensures { told_case (plain_bus 4 1) node_3_gone 18 0 (event.Receive 0 both_channels fault.Silence 18 18)
        (event.Receive 1 both_channels fault.Silence 18 18)
        ≡ record { apart = 0; yes = false; class = class.Third; line = third_of_three } }
{}

/// Two losses that last, the second in the slot behind, leave two memberships; and a jump beside a noisy frame leaves none.
pub fn what_four_nodes_do_not_bear()
    ensures torn { told_case (plain_bus 4 1) (quiet_run 4 26) 16 1 (event.Send 0 only_a fault.Silence 16 25)
        (event.Receive 2 only_b fault.Silence 17 25)
        ≡ record { apart = 1; yes = false; class = class.Torn; line = torn_apart } }
    ensures dead { told_case (plain_bus 4 1) (quiet_run 4 26) 16 0 (event.Send 0 both_channels fault.Noise 16 16)
        (event.Jump 1 (pos 4) 16)
        ≡ record { apart = 0; yes = false; class = class.Dead; line = all_dead } }
{}

/// A and B of one receiver are a whole loss, which costs its node.
pub fn two_halves_of_a_loss()
    ensures class { class_case (plain_bus 5 1) (quiet_run 5 45) 22 (event.Receive 0 only_a fault.Silence 22 22)
        (event.Receive 0 only_b fault.Silence 22 22) ≡ class.Own }
    ensures yes { yes_case (plain_bus 5 1) (quiet_run 5 45) 22 (event.Receive 0 only_a fault.Silence 22 22)
        (event.Receive 0 only_b fault.Silence 22 22) ≡ true }
{}

/// A frame that is not sent spares the receiver that would have missed it alone.
pub fn a_frame_that_nobody_hears()
    ensures class { class_case (plain_bus 5 1) (quiet_run 5 45) 22 (event.Receive 0 both_channels fault.Silence 22 22)
        (event.Send 2 both_channels fault.Silence 22 22) ≡ class.Less }
    ensures yes { yes_case (plain_bus 5 1) (quiet_run 5 45) 22 (event.Receive 0 both_channels fault.Silence 22 22)
        (event.Send 2 both_channels fault.Silence 22 22) ≡ true }
{}

/// Two receivers that miss one frame hold another membership than the rest until they leave.
pub fn two_that_miss_one_frame()
    ensures class { class_case (plain_bus 5 1) (quiet_run 5 45) 22 (event.Receive 0 both_channels fault.Silence 22 22)
        (event.Receive 1 both_channels fault.Silence 22 22) ≡ class.Divided }
    ensures yes { yes_case (plain_bus 5 1) (quiet_run 5 45) 22 (event.Receive 0 both_channels fault.Silence 22 22)
        (event.Receive 1 both_channels fault.Silence 22 22) ≡ false }
{}

/// The whole text of one slot and up to three slots behind it, where node 0 is alone and the script ends in the slot behind.
pub fn a_whole_text()
    ensures { pairs_lines (plain_bus 4 1) node_0_alone 10 10 3 ≡ lone_text }
{}
