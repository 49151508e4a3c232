//! The four tests of safety. Each row has a run by one script, asked as if it were that of another one, so that one test
//! fails alone: correct nodes hold one membership, those that have sent are members, none has left, and faulty nodes have.
ghost use Rattle.std.specs.Prelude.{◌≡◌, [], ◌∷◌, true, false};
ghost use Rattle.world_rows.specs.Cases.{bare_list, all_on_script, bare_run, after_slot, four_tests};
ghost use Rattle.world_rows.specs.Rejoining.{never_armed};
ghost use Rattle.world_rows.specs.Scripts.{deaf_before_its_slot, silent_sender, deaf_before_its_first, faulty_but_one};

/// In slot 26 node 3 does not hear node 2's frame, and takes it from its membership. Asked as if node 2 were faulty, and so
/// no sender that has to be a member.
pub fn memberships_differ()
    ensures { four_tests (bare_list 6) never_armed (bare_run (bare_list 6) deaf_before_its_slot 27)
        ≡ false ∷ true ∷ true ∷ true ∷ [] }
{}

/// Node 2 was silent in slot 22, and is no member of the others. After slot 23 it is in doubt, so its own membership is not
/// compared with theirs. Asked as if it were correct.
pub fn a_sender_is_no_member()
    ensures { four_tests (bare_list 5) (all_on_script 5 25 []) (bare_run (bare_list 5) silent_sender 24)
        ≡ true ∷ false ∷ true ∷ true ∷ [] }
{}

/// Node 4 leaves in its first own slot, 14, and has never sent. Asked as if it alone were correct.
pub fn a_correct_node_has_left()
    ensures { four_tests (bare_list 5) faulty_but_one (bare_run (bare_list 5) deaf_before_its_first 15)
        ≡ true ∷ true ∷ false ∷ true ∷ [] }
{}

/// Nothing happens to five nodes. Asked as if node 2 were faulty from slot 22 on: in slot 30 that is not yet two rounds ago,
/// and after slot 31 it is.
pub fn a_faulty_node_stays()
    ensures { let run = bare_run (bare_list 5) (all_on_script 5 40 []) 32 in
        (four_tests (bare_list 5) silent_sender (after_slot run 30) ≡ true ∷ true ∷ true ∷ true ∷ [])
        × (four_tests (bare_list 5) silent_sender run ≡ true ∷ true ∷ true ∷ false ∷ []) }
{}
