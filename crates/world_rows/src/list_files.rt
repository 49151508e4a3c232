//! Rows of the definitions of a list file and its slot table.
#![tactic(auto)]

ghost use Rattle.std.specs.Prelude.{◌≡◌, [], pos, true, false, Ok, Err, None, Some, codes, ◌∷◌};
ghost use Rattle.toml.specs.Data.{string, integer, boolean, no_items, item};
ghost use Rattle.ttp_world.specs.declared.medl.Kind.TheVariants as kinds;
ghost use Rattle.medl_text.specs.declared.error.FieldName.TheVariants as names;
ghost use Rattle.medl_text.specs.declared.error.MedlError.TheVariants as errors;
ghost use Rattle.medl_text.specs.ListFile.{at_top, at_slot, element_of, slot_faults, slot_plan_of, medl_in, medl_of};
ghost use Rattle.medl_text.specs.Schedule.{slot_table};
ghost use Rattle.world_rows.specs.ListFiles.{four_in_one_mode, modal_nodes, many_nodes, mixed_nodes, short_list};
ghost use Rattle.world_rows.specs.ListFiles.{one_mode_slot, live_slot, payload_slot, four_nodes_table};
ghost use Rattle.world_rows.specs.ListFiles.{mixed_nodes_table, four_nodes_text, modal_nodes_text, file_of, many_slots};
ghost use Rattle.world_rows.specs.ListFiles.{four_slots, two_slots, one, slots_mean, modes_mean, slot_of, modal_slot};
ghost use Rattle.world_rows.specs.ListFiles.{first_slot, other_slot, fast_slot, slot_live_in, answers, asking};
ghost use Rattle.world_rows.specs.ListFiles.{asking_slot, asking_plan, numbered_slot};

/// Slot tables: four nodes in one round, and a slot with every kind of frame.
pub fn tables()
    ensures four_nodes { slot_table four_in_one_mode ≡ four_nodes_table }
    ensures mixed { slot_table mixed_nodes ≡ mixed_nodes_table }
{}

/// What texts mean: right lists of each version, an empty file, and a text that is no TOML.
pub fn texts()
    ensures right { medl_of four_nodes_text ≡ Ok four_in_one_mode }
    ensures with_modes { medl_of modal_nodes_text ≡ Ok modal_nodes }
    ensures empty { medl_of [] ≡ Err (errors.Missing (at_top names.Version)) }
    ensures cut { medl_of (codes "version = \"") ≡ Err errors.NotToml }
{}

/// What tables mean: a right list, and lists with something wrong at the top.
pub fn wrong_at_the_top()
    ensures right { slots_mean (four_slots other_slot other_slot other_slot) ≡ Ok four_in_one_mode }
    ensures text_for_a_number { medl_in (file_of (string (codes "1")) (four_slots other_slot other_slot other_slot))
        ≡ Err (errors.WrongKind (at_top names.Rounds)) }
    ensures past_the_range { medl_in (file_of (integer (pos 65)) (four_slots other_slot other_slot other_slot))
        ≡ Err (errors.OutOfRange (at_top names.Rounds) (pos 65)) }
    ensures no_slots { slots_mean no_items ≡ Err (errors.SlotCount 0) }
    ensures numbers_for_slots { slots_mean (item one (item one no_items)) ≡ Err (errors.WrongKind (at_top names.Slot)) }
{}

/// Slots with payload, of the largest size and of none.
pub fn right_payload()
    ensures most_and_none { slots_mean
        (four_slots other_slot (slot_of (codes "N") 240 true false) (slot_of (codes "X") 0 true false))
        ≡ Ok (short_list 1 1
        (one_mode_slot true ∷ one_mode_slot false ∷ payload_slot kinds.N 240 ∷ payload_slot kinds.X 0 ∷ [])) }
{}

/// Lists with something wrong in a slot.
pub fn wrong_in_a_slot()
    ensures two_letters_for_one { slots_mean (four_slots other_slot (slot_of (codes "II") 0 true false) other_slot)
        ≡ Err (errors.Kinds 2) }
    ensures payload_of_no_frame { slots_mean (four_slots other_slot other_slot (slot_of (codes "I") 8 true false))
        ≡ Err (errors.OutOfRange (at_slot 3 names.DataSize) (pos 8)) }
    ensures too_much_payload { slots_mean (four_slots other_slot (slot_of (codes "X") 241 true false) other_slot)
        ≡ Err (errors.OutOfRange (at_slot 2 names.DataSize) (pos 241)) }
    ensures unknown_before_sync { slots_mean (four_slots fast_slot other_slot (slot_of (codes "I") 0 false false))
        ≡ Err (errors.Unknown (Some 1)) }
    ensures three_with_sync { slots_mean (four_slots other_slot other_slot (slot_of (codes "I") 0 false false))
        ≡ Err (errors.NoSync 3) }
{}

/// How many slots a list has in each version, of which there are two.
pub fn slots_of_a_version()
    ensures sixteen { medl_in (many_slots 1 15) ≡ Ok (many_nodes 1 15) }
    ensures seventeen { medl_in (many_slots 1 16) ≡ Err (errors.SlotCount 17) }
    ensures wide_three { medl_in (many_slots 2 2) ≡ Err (errors.SlotCount 3) }
    ensures wide_seventeen { medl_in (many_slots 2 16) ≡ Ok (many_nodes 2 16) }
    ensures wide_twenty_four { medl_in (many_slots 2 23) ≡ Ok (many_nodes 2 23) }
    ensures wide_twenty_five { medl_in (many_slots 2 24) ≡ Err (errors.SlotCount 25) }
    ensures version_3 { medl_in (many_slots 3 3) ≡ Err (errors.OutOfRange (at_top names.Version) (pos 3)) }
{}

/// Keys for modes that are right, or absent: a slot is then live in all modes, and asks for none.
pub fn right_modes()
    ensures all_of_eight { modes_mean (integer (pos 8)) (two_slots other_slot other_slot)
        ≡ Ok (short_list 1 8
        (live_slot false 255 ∷ live_slot false 255 ∷ live_slot false 255 ∷ live_slot false 255 ∷ [])) }
    ensures none_of_one { slots_mean (two_slots other_slot (answers (codes "n")))
        ≡ Ok (short_list 1 1 (one_mode_slot false ∷ live_slot false 0 ∷ one_mode_slot false ∷ one_mode_slot false ∷ [])) }
    ensures asking_for_none { slots_mean
        (four_slots (asking (boolean false)) other_slot other_slot) ≡ Ok four_in_one_mode }
    ensures asking_plan { slot_plan_of 3 1 (element_of asking_slot) ≡ asking_plan }
    ensures asking_list { modes_mean (integer (pos 3)) (two_slots other_slot asking_slot)
        ≡ Ok (short_list 1 3 (live_slot false 7 ∷ asking_plan ∷ live_slot false 7 ∷ live_slot false 7 ∷ [])) }
    ensures asking_without_fault { slot_faults 1 3 1 (element_of asking_slot) ≡ [] }
{}

/// Keys for modes that are wrong.
pub fn wrong_modes()
    ensures no_modes { modes_mean (integer (pos 0)) (two_slots other_slot other_slot)
        ≡ Err (errors.OutOfRange (at_top names.Modes) (pos 0)) }
    ensures nine_modes { modes_mean (integer (pos 9)) (two_slots other_slot other_slot)
        ≡ Err (errors.OutOfRange (at_top names.Modes) (pos 9)) }
    ensures text_for_modes { modes_mean (string (codes "1")) (two_slots other_slot other_slot)
        ≡ Err (errors.WrongKind (at_top names.Modes)) }
    ensures number_for_requests { slots_mean (two_slots (asking one) other_slot)
        ≡ Err (errors.WrongKind (at_slot 0 names.Requests)) }
    ensures requests_without_data { slots_mean (two_slots (asking (boolean true)) other_slot)
        ≡ Err (errors.NoRequestData 0) }
    ensures flag_for_live { slots_mean (two_slots other_slot (slot_live_in (boolean true)))
        ≡ Err (errors.WrongKind (at_slot 1 names.Live)) }
    ensures live_in_no_mode { slots_mean (two_slots other_slot (answers [])) ≡ Err (errors.Live 1) }
    ensures live_in_two_of_one { slots_mean (two_slots other_slot (answers (codes "yy"))) ≡ Err (errors.Live 1) }
    ensures live_in_one_of_two { modes_mean (integer (pos 2)) (two_slots first_slot (answers (codes "y")))
        ≡ Err (errors.Live 1) }
    ensures live_of_another_letter { slots_mean (two_slots other_slot (answers (codes "Y"))) ≡ Err (errors.Live 1) }
{}

/// Which of several wrong things is told.
pub fn first_of_wrong_modes()
    ensures slots_before_modes { modes_mean (integer (pos 9)) (item one no_items)
        ≡ Err (errors.WrongKind (at_top names.Slot)) }
    ensures modes_before_their_number { modes_mean (integer (pos 9)) no_items
        ≡ Err (errors.OutOfRange (at_top names.Modes) (pos 9)) }
    ensures data_before_requests { slots_mean
        (two_slots other_slot (modal_slot None (Some (boolean true)) (codes "I") 8 true false))
        ≡ Err (errors.OutOfRange (at_slot 1 names.DataSize) (pos 8)) }
    ensures start_before_requests { slots_mean (two_slots other_slot numbered_slot)
        ≡ Err (errors.WrongKind (at_slot 1 names.Start)) }
    ensures requests_before_live { slots_mean
        (two_slots other_slot (modal_slot (Some (string [])) (Some (boolean true)) (codes "I") 0 true false))
        ≡ Err (errors.NoRequestData 1) }
    ensures first_slot { slots_mean (two_slots (answers []) (asking (boolean true))) ≡ Err (errors.Live 0) }
    ensures live_before_unknown { slots_mean (four_slots fast_slot (answers []) other_slot) ≡ Err (errors.Live 2) }
{}
