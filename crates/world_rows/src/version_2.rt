//! Lists of version 2: up to 24 nodes, whose frames carry one byte of members more.
ghost use Rattle.std.specs.Prelude.{◌≡◌, [], ◌∷◌, ◌++◌, true, false, None, Some, codes};
ghost use Rattle.ttp_base.specs.NodeSet.{below};
ghost use Rattle.ttp_base.specs.Text.{hex_bytes};
ghost use Rattle.ttp_world.specs.declared.keep.Keep.TheVariants as keep;
ghost use Rattle.ttp_world.specs.Fitting.{fits, joinable};
ghost use Rattle.ttp_world.specs.Frame.{frame};
ghost use Rattle.ttp_world.specs.Hypothesis.{keeps};
ghost use Rattle.ttp_world.specs.Legal.{is_legal};
ghost use Rattle.ttp_world.specs.Medl.{member_bytes, node_limit, member_limit};
ghost use Rattle.ttp_world.specs.Past.{state_of, past_of};
ghost use Rattle.ttp_world.specs.Trace.{trace_head, member_digits, node_line, read_lines};
ghost use Rattle.ttp_world.specs.World.{world};
ghost use Rattle.world_rows.specs.Cases.{bare_list, all_on_script, bare_run, bare_lines, hold_from, reading_numbers};
ghost use Rattle.world_rows.specs.Frames.{cstate, cold_start};
ghost use Rattle.world_rows.specs.Scripts.{reading_status};
ghost use Rattle.world_rows.specs.Version2.{wide_list, wide_frame, wide_cold_start, last_of_24, first_round_of_24};

/// The cold-start frame of node 0, a frame in which all of 24 nodes are members, and two whose
/// members don't fit two bytes: one with implicit C-state, and one with two bytes of payload.
pub fn wide_frames()
    ensures cold_start { hex_bytes wide_cold_start ≡ codes "03000000000000015e19a1" }
    ensures all_members { hex_bytes (wide_frame 1 last_of_24) ≡ codes "0100470017ffffffe1049c" }
    ensures implicit { hex_bytes (wide_frame 0 (cstate 0 0 0 (0 ∷ 16 ∷ 23 ∷ []))) ≡ codes "009de5b9" }
    ensures payload { hex_bytes (frame (member_bytes true) 2 (cstate 300 1 17 (0 ∷ 17 ∷ [])) (10 ∷ 11 ∷ []) 4660)
        ≡ codes "02012c01110200010a0b10b12c" }
{}

/// A frame with implicit C-state tells members past 15 too.
pub fn wide_frames_tell_their_members()
    ensures own { fits (member_bytes true) (wide_frame 0 (cstate 0 0 0 (0 ∷ 16 ∷ 23 ∷ []))) 0 0 0
        (cstate 0 0 0 (0 ∷ 16 ∷ 23 ∷ [])) ≡ true }
    ensures others { fits (member_bytes true) (wide_frame 0 (cstate 0 0 0 (0 ∷ 16 ∷ 23 ∷ []))) 0 0 0
        (cstate 0 0 0 (0 ∷ 16 ∷ [])) ≡ false }
{}

/// Frames on which a node joins, and those of the other version, which it can't join.
pub fn joinable_wide_frames()
    ensures cold_start { joinable (wide_list 5) wide_cold_start ≡ Some (cstate 0 0 0 (0 ∷ [])) }
    ensures all_members { joinable (wide_list 24) (wide_frame 1 last_of_24) ≡ Some last_of_24 }
    ensures no_such_member { joinable (wide_list 23) (wide_frame 1 (cstate 70 0 22 (below 24))) ≡ None }
    ensures of_version_1 { joinable (wide_list 5) cold_start ≡ None }
    ensures in_version_1 { joinable (bare_list 5) wide_cold_start ≡ None }
{}

/// How many nodes a list of each version may have, and below which number its members lie as a word.
pub fn limits_by_version()
    ensures nodes { node_limit (wide_list 5) ≡ 24 }
    ensures members { member_limit (wide_list 5) ≡ 16777216 }
    ensures nodes_of_version_1 { node_limit (bare_list 5) ≡ 16 }
    ensures members_of_version_1 { member_limit (bare_list 5) ≡ 65536 }
{}

/// The first line of a trace names the version, and members have six digits: a start, a join, a
/// judgement and two frames of a cluster of five.
pub fn lines_of_five_nodes()
    ensures head { trace_head (wide_list 5) (all_on_script 5 15 [])
        ≡ codes "ttpbench trace 2 nodes 5 rounds 1 slots 15 schedule 000000\n" }
    ensures lines { bare_lines (wide_list 5) (all_on_script 5 15 []) 15
        ((10, 0) ∷ (10, 1) ∷ (11, 0) ∷ (11, 1) ∷ (14, 4) ∷ [])
        ≡ codes "slot 10 node 0 start peer 0 msg - mem 000001 acc 1 rej 0 ack first clock 0\n"
        ++ codes "slot 10 node 1 join peer 0 msg - mem 000001 acc 1 rej 0 ack none clock 0\n"
        ++ codes "slot 11 node 0 correct peer 1 msg - mem 000003 acc 2 rej 0 ack none clock 0\n"
        ++ codes "slot 11 node 1 send peer 1 msg - mem 000003 acc 1 rej 0 ack first clock 0\n"
        ++ codes "slot 14 node 4 send peer 4 msg - mem 00001f acc 1 rej 0 ack first clock 0\n" }
    ensures members { hold_from 14 (wide_list 5) (bare_run (wide_list 5) (all_on_script 5 15 []) 15) (below 5) (below 5)
        ≡ true }
    ensures keeps { keeps (wide_list 5) (all_on_script 5 15 []) ≡ keep.Yes 10 }
{}

/// Node 0 of 24 at the end of the round in which it started: it holds all for members.
pub fn lines_of_24_nodes()
    ensures head { trace_head (wide_list 24) (all_on_script 24 72 [])
        ≡ codes "ttpbench trace 2 nodes 24 rounds 1 slots 72 schedule 000000\n" }
    ensures line { node_line (member_digits (wide_list 24)) 71 0
        (state_of (past_of (wide_list 24) 0 first_round_of_24 [])) None
        ≡ codes "slot 71 node 0 correct peer 23 msg - mem ffffff acc 24 rej 0 ack none clock 0\n" }
    ensures keeps { keeps (wide_list 24) (all_on_script 24 72 []) ≡ keep.Yes 48 }
{}

/// The C-state in a status message has 56 bits: time 1, round 0, slot 1, and members 0 and 1.
pub fn wide_status()
    ensures read { read_lines (wide_list 5) reading_status 11 (world (wide_list 5) reading_status (reading_numbers 12))
        (12 ∷ [])
        ≡ codes "slot 11 host 1 read status 12 000000000000000b000000000000002900000100010000030000000000000100\n"
        ∷ [] }
    ensures legal { is_legal (wide_list 5) reading_status (reading_numbers 12) ≡ true }
{}
