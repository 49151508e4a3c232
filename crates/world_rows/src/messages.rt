//! Messages: what a host writes, what a frame carries, and what another host may read.
ghost use Rattle.std.specs.Prelude.{◌≡◌, [], ◌∷◌, ◌++◌, true, false, codes};
ghost use Rattle.ttp_world.specs.Legal.{is_legal, IsLegal};
ghost use Rattle.ttp_world.specs.Trace.{write_lines, read_lines};
ghost use Rattle.ttp_world.specs.TraceNumbers.{numbers_in};
ghost use Rattle.ttp_world.specs.Words.{words_of_payload};
ghost use Rattle.ttp_world.specs.World.{world};
ghost use Rattle.world_rows.specs.Cases.{bare_list, all_on_script, loaded_list, loaded_numbers, reading_numbers};
ghost use Rattle.world_rows.specs.Cases.{sending_slot, no_slot_numbers, lines_in};
ghost use Rattle.world_rows.specs.Scripts.{written_and_read, reading_status};

/// Node 2's host writes its message 1 in the slot in which node 2 sends, so the frame carries message
/// 0 or 1. It is message 2 of the ring at node 0, after the zeros and the frame of slot 12, and
/// node 0's host reads it or the message before it.
pub fn message_written_while_it_is_sent()
    ensures frame { lines_in loaded_list written_and_read (world loaded_list written_and_read (loaded_numbers 1 2))
        ((17, 2) ∷ (17, 0) ∷ [])
        ≡ codes "slot 17 node 2 send peer 2 msg 1 mem 001f acc 1 rej 0 ack first clock 0\n"
        ++ codes "slot 17 node 0 correct peer 2 msg 2 mem 001f acc 3 rej 0 ack none clock 0\n" }
    ensures write { write_lines loaded_list written_and_read 17 ≡ codes "slot 17 host 2 write 1\n" ∷ [] }
    ensures new_read { read_lines loaded_list written_and_read 17
        (world loaded_list written_and_read (loaded_numbers 1 2)) (2 ∷ [])
        ≡ codes "slot 17 host 0 read 2 2 0102030405060708\n" ∷ [] }
    ensures zeros_sent { read_lines loaded_list written_and_read 17
        (world loaded_list written_and_read (loaded_numbers 0 2)) (2 ∷ [])
        ≡ codes "slot 17 host 0 read 2 2 0000000000000000\n" ∷ [] }
    ensures old_read { read_lines loaded_list written_and_read 17
        (world loaded_list written_and_read (loaded_numbers 1 1)) (1 ∷ [])
        ≡ codes "slot 17 host 0 read 2 1 0000000000000000\n" ∷ [] }
{}

/// Of the frame's numbers 0 and 1 are legal, and of the read's 1 and 2.
pub fn legal_numbers()
    ensures any { IsLegal loaded_list written_and_read (loaded_numbers 1 2) }
    ensures old_old { is_legal loaded_list written_and_read (loaded_numbers 0 1) ≡ true }
    ensures old_new { is_legal loaded_list written_and_read (loaded_numbers 0 2) ≡ true }
    ensures new_old { is_legal loaded_list written_and_read (loaded_numbers 1 1) ≡ true }
    ensures new_new { is_legal loaded_list written_and_read (loaded_numbers 1 2) ≡ true }
    ensures not_written { is_legal loaded_list written_and_read (loaded_numbers 2 1) ≡ false }
    ensures older_than_the_slot { is_legal loaded_list written_and_read (loaded_numbers 0 0) ≡ false }
    ensures not_delivered { is_legal loaded_list written_and_read (loaded_numbers 0 3) ≡ false }
{}

/// A status message's four words, for both of its legal readings: of slot 10, in which node 1 joined,
/// and of slot 11, in which it sent. Another number is not legal.
pub fn status_messages()
    ensures slot_before { read_lines (bare_list 5) reading_status 11
        (world (bare_list 5) reading_status (reading_numbers 11)) (11 ∷ [])
        ≡ codes "slot 11 host 1 read status 11 000000000000000a000000000000000100000000000000010000000000000100\n"
        ∷ [] }
    ensures slot_itself { read_lines (bare_list 5) reading_status 11
        (world (bare_list 5) reading_status (reading_numbers 12)) (12 ∷ [])
        ≡ codes "slot 11 host 1 read status 12 000000000000000b000000000000002900000001000100030000000000000100\n"
        ∷ [] }
    ensures legal_before { is_legal (bare_list 5) reading_status (reading_numbers 11) ≡ true }
    ensures legal_itself { is_legal (bare_list 5) reading_status (reading_numbers 12) ≡ true }
    ensures too_old { is_legal (bare_list 5) reading_status (reading_numbers 10) ≡ false }
    ensures too_new { is_legal (bare_list 5) reading_status (reading_numbers 13) ≡ false }
{}

/// The numbers that lines name are those of the `send` lines that have one and of the `read` lines,
/// slot by slot; those of `write` and `correct` lines are counts.
pub fn numbers_that_lines_name()
    ensures slots { numbers_in loaded_list (all_on_script 5 2 [])
        (codes "slot 0 node 1 send peer 1 msg - mem 001f acc 1 rej 0 ack first clock 0\n"
        ∷ codes "slot 1 node 0 correct peer 2 msg 7 mem 001f acc 3 rej 0 ack none clock 0\n"
        ∷ codes "slot 1 node 2 send peer 2 msg 4 mem 001f acc 1 rej 0 ack first clock 0\n"
        ∷ codes "slot 1 host 2 write 5\n"
        ∷ codes "slot 1 host 0 read 2 3 0000000000000000\n"
        ∷ [])
        ≡ sending_slot 4 (3 ∷ []) ∷ no_slot_numbers 5 ∷ [] }
{}

/// The words of payloads of no byte, of eight, and of nine.
pub fn words_of_payloads()
    ensures none { words_of_payload [] ≡ [] }
    ensures full { words_of_payload (1 ∷ 2 ∷ 3 ∷ 4 ∷ 5 ∷ 6 ∷ 7 ∷ 8 ∷ []) ≡ 72623859790382856 ∷ [] }
    ensures begun { words_of_payload (0 ∷ 0 ∷ 0 ∷ 0 ∷ 0 ∷ 0 ∷ 1 ∷ 2 ∷ 3 ∷ []) ≡ 258 ∷ 216172782113783808 ∷ [] }
{}
