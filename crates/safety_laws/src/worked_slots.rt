//! Slots that were worked out by hand. The functions have no code: their contracts are the cases, and
//! the check computes them. They show that the conditions of the laws can be met.
//!
//! Node 0 of four starts in slot 8, and node 1's first frame comes in slot 9.
ghost use Rattle.std.specs.Prelude.{◌≡◌, [], ◌∷◌, pos, Some, None, IsTrue};
ghost use Rattle.ttp_world.specs.declared.node.Ack.TheVariants as ack;
ghost use Rattle.ttp_world.specs.declared.node.Entry.TheVariants as entry;
ghost use Rattle.ttp_world.specs.declared.node.Phase.TheVariants as phase;
ghost use Rattle.ttp_world.specs.declared.node.Reason.TheVariants as reason;
ghost use Rattle.ttp_world.specs.declared.node.Verdict.TheVariants as verdict;
ghost use Rattle.ttp_world.specs.Hypothesis.{start_of};
ghost use Rattle.safety_laws.specs.Groups.{HoldsGroup, IsUnanswered, HearsNoAnswer};
ghost use Rattle.safety_laws.specs.Heard.{HearsNoFrame, HearsSilence};
ghost use Rattle.safety_laws.specs.Listening.{ListensInSlot, HearsPlace, HearsNoPlace};
ghost use Rattle.safety_laws.specs.NodeSlot.{entry_made, candidates_of};
ghost use Rattle.safety_laws.specs.Senders.{SendsAlone};
ghost use Rattle.safety_laws.specs.Start.{IsStartHeard};
ghost use Rattle.safety_laws.specs.Turns.{IsJudging, HearsMembers, HearsOutside, IsAtOwnSlot, HasPayload};
ghost use Rattle.safety_laws.specs.WorkedSlots.{four_kinds, early_start, faultless, first_frame_lost, silent_and_deaf};
ghost use Rattle.safety_laws.specs.WorkedSlots.{rearmed, deaf, jumping, unheard_start, run, chosen_in, at};

/// The start is known and heard.
fn a_start()
    ensures known { start_of four_kinds faultless ≡ Some early_start }
    ensures heard { IsStartHeard four_kinds faultless early_start }
{}

/// Node 1's first frame is correct to node 0, which waited for an answer to its cold start.
fn a_correct_frame()
    ensures judging { IsJudging (at faultless 9 0) }
    ensures hears { HearsMembers (at faultless 9 0) 1 (0 ∷ 1 ∷ []) }
    ensures first { (candidates_of (at faultless 9 0)).first ≡ 0 ∷ 1 ∷ [] }
    ensures entry { entry_made (at faultless 9 0) ≡ entry.Judged 1 verdict.Correct (pos 0) }
{}

/// Node 1's frame is lost. Node 2's, without a C-state, has node 1 no longer among its members, and is
/// tentative to node 1; node 3's denies it. In node 1's slot nobody heard a frame.
fn a_lost_frame()
    ensures nothing { HearsSilence (at first_frame_lost 9 0).hearing }
    ensures judging { IsJudging (at first_frame_lost 10 1) }
    ensures waits { (at first_frame_lost 10 1).past.ack ≡ ack.First }
    ensures hears { HearsMembers (at first_frame_lost 10 1) 2 (0 ∷ 2 ∷ []) }
    ensures tentative { entry_made (at first_frame_lost 10 1) ≡ entry.Judged 2 verdict.Tentative (pos 0) }
    ensures judging_again { IsJudging (at first_frame_lost 11 1) }
    ensures doubts { (at first_frame_lost 11 1).past.ack ≡ ack.Doubt 2 }
    ensures hears_again { HearsMembers (at first_frame_lost 11 1) 3 (0 ∷ 2 ∷ 3 ∷ []) }
    ensures denied { entry_made (at first_frame_lost 11 1) ≡ entry.Left reason.Denied 3 }
{}

/// Node 3 hears noise in node 1's slot, and so finds node 2's frame incorrect, which has node 1 among its
/// members. In its own slot it has accepted no more than it rejected.
fn a_deaf_node()
    ensures noise { HearsNoFrame (at deaf 9 3).hearing }
    ensures invalid { entry_made (at deaf 9 3) ≡ entry.Judged 1 verdict.Invalid (pos 0) }
    ensures judging { IsJudging (at deaf 10 3) }
    ensures hears { HearsMembers (at deaf 10 3) 2 (0 ∷ 1 ∷ 2 ∷ []) }
    ensures expects { (candidates_of (at deaf 10 3)).first ≡ 0 ∷ 2 ∷ [] }
    ensures alone { (candidates_of (at deaf 10 3)).second ≡ None }
    ensures own { IsAtOwnSlot (at deaf 11 3) }
    ensures closed { (at deaf 11 3).past.ack ≡ ack.Closed }
    ensures accepted { (at deaf 11 3).past.accepted ≡ 1 }
    ensures rejected { (at deaf 11 3).past.rejected ≡ 2 }
    ensures clique { entry_made (at deaf 11 3) ≡ entry.Left reason.Clique 3 }
{}

/// Node 1's clock is four windows ahead, so its frame comes too late.
fn a_jumped_clock()
    ensures judging { IsJudging (at jumping 9 0) }
    ensures hears { HearsOutside (at jumping 9 0) 1 }
    ensures invalid { entry_made (at jumping 9 0) ≡ entry.Judged 1 verdict.Invalid (pos 4) }
{}

/// Node 2 sends a frame with payload. Node 1, whose frame is lost and which then hears nothing, leaves as
/// unacknowledged, and node 0, whose cold start nobody heard, withdraws it.
fn own_slots()
    ensures own { IsAtOwnSlot (at faultless 10 2) }
    ensures closed { (at faultless 10 2).past.ack ≡ ack.Closed }
    ensures payload { HasPayload (at faultless 10 2) }
    ensures sends { entry_made (at faultless 10 2) ≡ entry.Sent (Some 0) }
    ensures own_again { IsAtOwnSlot (at silent_and_deaf 13 1) }
    ensures waits { (at silent_and_deaf 13 1).past.ack ≡ ack.First }
    ensures unacknowledged { entry_made (at silent_and_deaf 13 1) ≡ entry.Left reason.Unacknowledged 1 }
    ensures starter { IsAtOwnSlot (at unheard_start 12 0) }
    ensures cold_start { IsTrue (at unheard_start 12 0).past.cold_start }
    ensures retries { entry_made (at unheard_start 12 0) ≡ entry.Retried }
{}

/// In slot 9 node 1 alone sends, and node 0 holds the group of node 0. Where node 1's frame is lost, it is
/// not answered by node 2's; in doubt about node 2 it holds the group of nodes 0 and 1.
fn one_group()
    ensures sends { SendsAlone four_kinds faultless (run faultless 9) (chosen_in faultless 9) 1 }
    ensures holds { HoldsGroup four_kinds 0 (0 ∷ []) (at faultless 9 0).past }
    ensures unacknowledged { IsUnanswered 1 (at first_frame_lost 10 1).past.ack }
    ensures no_answer { HearsNoAnswer (at first_frame_lost 10 1) }
    ensures in_doubt { HoldsGroup four_kinds 1 (0 ∷ 1 ∷ []) (at first_frame_lost 11 1).past }
{}

/// Node 1, which left in slot 13, is armed in slot 14. Node 2's frame carries no C-state, so it waits, and
/// counts no silent slot; on node 3's it joins, in which the nodes are members that go on without it.
fn a_return()
    ensures left { entry_made (at rearmed 13 1) ≡ entry.Left reason.Unacknowledged 1 }
    ensures listens { ListensInSlot (at rearmed 14 1) }
    ensures no_place { HearsNoPlace (at rearmed 14 1) 2 }
    ensures waits { entry_made (at rearmed 14 1) ≡ entry.Waited }
    ensures goes_on { ListensInSlot (at rearmed 15 1) }
    ensures none_counted { (at rearmed 15 1).past.silent_slots ≡ 0 }
    ensures limit { (at rearmed 15 1).past.limit ≡ 9 }
    ensures place { HearsPlace (at rearmed 15 1) 3 (record { time = 7; round = 0; slot = 3 }) (0 ∷ 2 ∷ 3 ∷ []) }
    ensures joins { entry_made (at rearmed 15 1)
        ≡ entry.Joined 3 (record { time = 7; round = 0; slot = 3; members = 0 ∷ 2 ∷ 3 ∷ [] }) (pos 0) }
{}
