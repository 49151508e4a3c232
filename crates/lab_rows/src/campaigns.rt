//! Worked lines of campaigns.
//!
//! Each function does nothing. Its contract is a case: the lines that the definitions of the crate
//! campaign give for a literal list, script and fault are these bytes, and the check computes them.
//! They are the lines of five nodes in one round, of which node 0 starts in slot 10, and a campaign
//! of two nodes as a whole.

ghost use Rattle.std.specs.Prelude.{◌≡◌, codes, map, pos, negsuc};
ghost use Rattle.ttp_world.specs.declared.script.Event.TheVariants as event;
ghost use Rattle.ttp_world.specs.declared.script.Fault.TheVariants as fault;
ghost use Rattle.campaign.specs.Lines.{own_line, run_line, summary, campaign_lines};
ghost use Rattle.campaign.specs.Tried.{both_channels, only_a, only_b};
ghost use Rattle.lab_rows.specs.Cases.{bare_list_within, five, eventless_script, latent, six, armed};
ghost use Rattle.lab_rows.specs.Whole.{two_of_four, two_lines};

/// Nothing goes wrong.
pub fn a_quiet_run()
    ensures own { own_line five (summary five eventless_script)
        ≡ codes "slot - node - keeps yes start 10 left - hurt - split - - end 001f fault -\n" }
{}

/// In slot 22 node 2 sends, and the hypothesis covers its faults. A node that misses one frame leaves, and
/// nobody else does; one that hears on a channel stays. One that stays deaf leaves five slots later.
pub fn a_deaf_receiver()
    ensures once { run_line five eventless_script (event.Receive 0 both_channels fault.Silence 22 22)
        ≡ codes "slot 22 node 0 keeps yes start 10 left 0:25:clique hurt - split - - end 001e fault receive 0 AB silence 22 22\n" }
    ensures on_one_channel { run_line five eventless_script (event.Receive 0 only_a fault.Silence 22 22)
        ≡ codes "slot 22 node 0 keeps yes start 10 left - hurt - split - - end 001f fault receive 0 A silence 22 22\n" }
    ensures for_good { run_line five eventless_script (event.Receive 0 both_channels fault.Silence 22 44)
        ≡ codes "slot 22 node 0 keeps yes start 10 left 0:30:unacknowledged hurt - split - - end 001e fault receive 0 AB silence 22 44\n" }
{}

/// The sender of that slot, whose frame is lost, and whose clock jumps far or not.
pub fn a_faulty_sender()
    ensures lost { run_line five eventless_script (event.Send 2 both_channels fault.Silence 22 22)
        ≡ codes "slot 22 node 2 keeps yes start 10 left 2:24:denied hurt - split - - end 001b fault send 2 AB silence 22 22\n" }
    ensures far { run_line five eventless_script (event.Jump 2 (pos 4) 22)
        ≡ codes "slot 22 node 2 keeps yes start 10 left 2:27:unacknowledged hurt - split - - end 001b fault jump 2 4 22\n" }
    ensures near { run_line five eventless_script (event.Jump 2 (pos 1) 22)
        ≡ codes "slot 22 node 2 keeps no H3 22 left - hurt - split - - end 001f fault jump 2 1 22\n" }
{}

/// The slot after the start. A starter that is deaf from then on starts again into the others' frames; and
/// where the first frame behind the cold start is noise, all but the starter leave.
pub fn after_the_start()
    ensures deaf { run_line five eventless_script (event.Receive 0 both_channels fault.Silence 11 44)
        ≡ codes "slot 11 node 0 keeps no H6 11 left 1:23:denied,2:34:denied,4:44:unacknowledged hurt 1,2,4 split 21 43 end 0001,0008 fault receive 0 AB silence 11 44\n" }
    ensures noise { run_line five eventless_script (event.Send 1 both_channels fault.Noise 11 11)
        ≡ codes "slot 11 node 1 keeps no H6 11 left 1:16:unacknowledged,2:12:clique,3:13:clique,4:14:clique hurt 2,3,4 split - - end 0001 fault send 1 AB noise 11 11\n" }
{}

/// Receivers 3 and 4 are dead on channel A, which nothing shows. One frame that is lost on channel B alone
/// costs them and its sender, which they deny.
pub fn a_second_fault()
    ensures own { own_line five (summary five latent)
        ≡ codes "slot - node - keeps yes start 10 left - hurt - split - - end 001f fault -\n" }
    ensures second { run_line five latent (event.Send 2 only_b fault.Silence 22 22)
        ≡ codes "slot 22 node 2 keeps no H5 22 left 2:24:denied,3:28:clique,4:29:unacknowledged hurt 2,3,4 split 22 28 end 0003 fault send 2 B silence 22 22\n" }
{}

/// Node 2 of six left, is armed in slot 40, and sends again in slot 44. A node that misses that frame by
/// noise is hurt: the frame of a node that is faulty still is not asked for by the rules on losses, but by
/// that on arm lines.
pub fn while_a_node_returns()
    ensures missed { run_line six armed (event.Receive 5 both_channels fault.Noise 44 44)
        ≡ codes "slot 44 node 5 returns no Q8 40 left 2:28:denied,5:47:clique hurt 5 split 44 46 end 001f fault receive 5 AB noise 44 44\n" }
{}

/// A campaign over one slot, from its head to its counts. A range that the run doesn't reach has no faults.
pub fn a_whole_campaign()
    ensures all { campaign_lines (bare_list_within 4 1) two_of_four 9 9 ≡ two_lines }
{}
