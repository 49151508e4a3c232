//! Starts: how a cluster comes up, and how a late node joins it.
ghost use Rattle.std.specs.Prelude.{◌≡◌, [], ◌∷◌, ◌++◌, pos, true, None, codes, replicate};
ghost use Rattle.ttp_world.specs.declared.keep.Keep.TheVariants as keep;
ghost use Rattle.ttp_world.specs.declared.node.Entry.TheVariants as entry;
ghost use Rattle.ttp_world.specs.declared.script.Channel.TheVariants as channel;
ghost use Rattle.ttp_world.specs.Hypothesis.{keeps};
ghost use Rattle.ttp_world.specs.Medium.{Noise, heard, senders_in};
ghost use Rattle.ttp_world.specs.Safety.{IsSafe};
ghost use Rattle.ttp_world.specs.Trace.{trace_lines};
ghost use Rattle.world_rows.specs.Cases.{bare_list, bare_list_of, all_on_script, bare_numbers, bare_run, newest_row};
ghost use Rattle.world_rows.specs.Cases.{after_slot, entry_at, bare_lines, picked_lines, hold_from, is_safe_from};
ghost use Rattle.world_rows.specs.Frames.{cstate};
ghost use Rattle.world_rows.specs.Scripts.{two_starters_of_five, colliding, noisy_start, deaf_on_a, late};

/// Five nodes that are on from slot 0: node 0 starts in slot 10, the others join and send one after
/// the other. The lines are those of the whole trace with these numbers.
pub fn fault_free_start()
    ensures lines { picked_lines (trace_lines (bare_list 5) (all_on_script 5 15 []) (bare_numbers (bare_list 5) 15))
        (52 ∷ 53 ∷ 57 ∷ 58 ∷ 77 ∷ [])
        ≡ codes "slot 10 node 0 start peer 0 msg - mem 0001 acc 1 rej 0 ack first clock 0\n"
        ∷ codes "slot 10 node 1 join peer 0 msg - mem 0001 acc 1 rej 0 ack none clock 0\n"
        ∷ codes "slot 11 node 0 correct peer 1 msg - mem 0003 acc 2 rej 0 ack none clock 0\n"
        ∷ codes "slot 11 node 1 send peer 1 msg - mem 0003 acc 1 rej 0 ack first clock 0\n"
        ∷ codes "keeps yes start 10\n"
        ∷ [] }
    ensures run { let run = bare_run (bare_list 5) (all_on_script 5 15 []) 15 in
        (entry_at run 10 4 ≡ entry.Joined 0 (cstate 0 0 0 (0 ∷ [])) (pos 0))
        × (entry_at run 14 4 ≡ entry.Sent None)
        × (IsSafe (bare_list 5) (all_on_script 5 15 []) run)
        × (is_safe_from 10 (bare_list 5) (all_on_script 5 15 []) run ≡ true) }
{}

/// Two starters that reach the same slot: both send, the others hear noise, and both retry a round
/// later. Node 0, whose limit is now the shorter, then starts alone.
pub fn colliding_starters()
    ensures noise_on_a { heard colliding 11 2 channel.A (senders_in (entry.Started ∷ entry.Started ∷ [])) ≡ Noise }
    ensures noise_on_b { heard colliding 11 2 channel.B (senders_in (entry.Started ∷ entry.Started ∷ [])) ≡ Noise }
    ensures run { let run = bare_run two_starters_of_five colliding 24 in
        (newest_row (after_slot run 11)
        ≡ entry.Started ∷ entry.Started ∷ entry.Waited ∷ entry.Waited ∷ entry.Waited ∷ [])
        × (newest_row (after_slot run 16)
        ≡ entry.Retried ∷ entry.Retried ∷ entry.Waited ∷ entry.Waited ∷ entry.Waited ∷ [])
        × (entry_at run 21 0 ≡ entry.Waited)
        × (entry_at run 22 0 ≡ entry.Started)
        × (entry_at run 22 1 ≡ entry.Joined 0 (cstate 0 0 0 (0 ∷ [])) (pos 0))
        × (entry_at run 23 1 ≡ entry.Sent None) }
    ensures keeps { keeps two_starters_of_five colliding ≡ keep.No 4 0 }
{}

/// Noise resets a starter's count: node 0 starts in slot 10 with noise on both channels, so node 1,
/// which would start in slot 11, waits. Node 0 retries in slot 15 and starts again in slot 21, after
/// five silent slots and before node 1 has counted eleven.
pub fn noise_before_a_start()
    ensures { let run = bare_run two_starters_of_five noisy_start 22 in
        (entry_at run 10 0 ≡ entry.Started)
        × (entry_at run 11 1 ≡ entry.Waited)
        × (entry_at run 15 0 ≡ entry.Retried)
        × (newest_row run ≡ entry.Started ∷ replicate 4 (entry.Joined 0 (cstate 0 0 0 (0 ∷ [])) (pos 0))) }
{}

/// Where the list lets no node start, all listen for good.
pub fn nobody_may_start()
    ensures waits { newest_row (bare_run (bare_list_of 5 []) (all_on_script 5 30 []) 30) ≡ replicate 5 entry.Waited }
{}

/// A node whose channel A is disturbed joins on channel B.
pub fn join_on_channel_b()
    ensures disturbed { heard deaf_on_a 10 4 channel.A (senders_in (entry.Started ∷ [])) ≡ Noise }
    ensures joins { entry_at (bare_run (bare_list 5) deaf_on_a 11) 10 4
        ≡ entry.Joined 0 (cstate 0 0 0 (0 ∷ [])) (pos 0) }
{}

/// A fifth node that is switched on in slot 30 joins in that very slot on the frame of node 0, and
/// sends in slot 34, after which all hold it for a member.
pub fn late_node()
    ensures lines { bare_lines (bare_list 5) late 35 ((29, 4) ∷ (30, 4) ∷ (34, 4) ∷ [])
        ≡ codes "slot 29 node 4 off peer - msg - mem 0000 acc 0 rej 0 ack none clock 0\n"
        ++ codes "slot 30 node 4 join peer 0 msg - mem 000f acc 1 rej 0 ack none clock 0\n"
        ++ codes "slot 34 node 4 send peer 4 msg - mem 001f acc 1 rej 0 ack first clock 0\n" }
    ensures members { hold_from 34 (bare_list 5) (bare_run (bare_list 5) late 40) (0 ∷ 1 ∷ 2 ∷ 3 ∷ 4 ∷ [])
        (0 ∷ 1 ∷ 2 ∷ 3 ∷ 4 ∷ []) ≡ true }
    ensures keeps { keeps (bare_list 5) late ≡ keep.No 4 0 }
{}
