//! Rows of the definition of a script file.
#![tactic(auto, unfolding(script_text::specs::Lines::lines_of_file, script_text::specs::Lines::words_of_line, script_text::specs::Faults::statement_faults, script_text::specs::Faults::stated_faults, script_text::specs::Faults::form_faults, script_text::specs::Faults::line_faults, script_text::specs::Faults::statements_after, script_text::specs::ScriptFile::stated_script, script_text::specs::ScriptFile::lines_script, script_text::specs::ScriptFile::script_of))]

ghost use Rattle.std.specs.Prelude.{◌≡◌, [], ◌∷◌, ◌++◌, pos, negsuc, true};
ghost use Rattle.std.specs.Prelude.{false, Ok, None, Some, codes, replicate};
ghost use Rattle.ttp_world.specs.declared.script.Source.TheVariants as source;
ghost use Rattle.ttp_world.specs.declared.script.Fault.TheVariants as kind;
ghost use Rattle.ttp_world.specs.declared.script.Event.TheVariants as event;
ghost use Rattle.script_text.specs.declared.error.LineFault.TheVariants as faults;
ghost use Rattle.script_text.specs.ScriptFile.{script_of};
ghost use Rattle.world_rows.specs.ScriptFiles.{buffered_nodes, told_by, fault_at, four_node_script, quiet_script};
ghost use Rattle.world_rows.specs.ScriptFiles.{event_script, five_with_one_payload, full_list, all_on};
ghost use Rattle.world_rows.specs.BusyScript.{eight_nodes, busy_text, busy_script};

/// Bad scripts: the run's slots, and when nodes are switched on.
pub fn bad_slots_and_on()
    ensures on_before_slots { told_by (codes "on 0 0\n") ≡ fault_at 1 faults.NoSlots }
    ensures too_many_slots { told_by (codes "slots 20001\n") ≡ fault_at 1 faults.Range }
    ensures ten_digits { told_by (codes "slots 1234567890\n") ≡ fault_at 1 faults.Number }
    ensures slots_again { told_by (codes "slots 20\nslots 20\n") ≡ fault_at 2 faults.Repeat }
    ensures no_node { told_by (codes "slots 20\non 4 0\n") ≡ fault_at 2 faults.NoNode }
    ensures past_the_run { told_by (codes "slots 20\non 0 20\n") ≡ fault_at 2 faults.Range }
    ensures on_again { told_by (codes "slots 20\non 0 0\non 0 1\n") ≡ fault_at 3 faults.Repeat }
{}

/// Bad scripts: faults and clocks.
pub fn bad_faults_and_clocks()
    ensures channels { told_by (codes "slots 20\nsend 0 BA noise 0 0\n") ≡ fault_at 2 faults.Word }
    ensures backwards { told_by (codes "slots 20\nsend 0 AB noise 5 4\n") ≡ fault_at 2 faults.Range }
    ensures past_the_last_bit { told_by (codes "slots 20\nflip 0 A 2048 3\n") ≡ fault_at 2 faults.Range }
    ensures drift_too_far { told_by (codes "slots 20\ndrift 0 -1001\n") ≡ fault_at 2 faults.Range }
    ensures sign_alone { told_by (codes "slots 20\ndrift 0 -\n") ≡ fault_at 2 faults.Number }
{}

/// Bad scripts: what hosts write and read.
pub fn bad_writes_and_reads()
    ensures no_payload_to_write { told_by (codes "slots 20\nwrite 0 3 0102\n") ≡ fault_at 2 faults.NoData }
    ensures message_too_short { told_by (codes "slots 20\nwrite 1 3 01\n") ≡ fault_at 2 faults.Range }
    ensures no_digits { told_by (codes "slots 20\nwrite 1 3 zz01\n") ≡ fault_at 2 faults.Number }
    ensures reads_itself { told_by (codes "slots 20\nread 1 3 1\n") ≡ fault_at 2 faults.Range }
    ensures no_payload_to_read { told_by (codes "slots 20\nread 0 3 2\n") ≡ fault_at 2 faults.NoData }
    ensures too_many_writes { told_by (codes "slots 20\nwrite 1 3 0102\nwrite 1 3 0102\n") ≡ fault_at 3 faults.TooMany }
    ensures one_buffer { script_of (buffered_nodes 1) (codes "slots 20\nwrite 1 3 0102\n")
        ≡ fault_at 2 faults.NoBuffer }
    ensures three_of_three { script_of (buffered_nodes 3)
        (codes "slots 20\nwrite 1 3 0102\nwrite 1 3 0102\nwrite 1 3 0102\n") ≡ fault_at 4 faults.TooMany }
{}

/// Words that name no form.
pub fn words_of_no_form()
    ensures wait { told_by (codes "slots 20\nwait 0 3\n") ≡ fault_at 2 faults.Word }
    ensures writes { told_by (codes "slots 20\nwrites 1 3 0102\n") ≡ fault_at 2 faults.Word }
    ensures upper_case { told_by (codes "slots 20\nRead 1 3 status\n") ≡ fault_at 2 faults.Word }
{}

/// The order of a line's faults: each line here has two or more.
pub fn first_faults()
    ensures word_before_no_slots { told_by (codes "on 0\n") ≡ fault_at 1 faults.Word }
    ensures word_before_no_slots_of_a_write { told_by (codes "write 1 3\n") ≡ fault_at 1 faults.Word }
    ensures no_slots_before_number { told_by (codes "on x y\n") ≡ fault_at 1 faults.NoSlots }
    ensures no_slots_before_number_of_a_write { told_by (codes "write x 3 zz\n") ≡ fault_at 1 faults.NoSlots }
    ensures number_before_no_node_of_a_write { told_by (codes "slots 20\nwrite 4 3 zz\n") ≡ fault_at 2 faults.Number }
    ensures number_before_no_node { told_by (codes "slots 20\non 9 x\n") ≡ fault_at 2 faults.Number }
    ensures no_node_before_range { told_by (codes "slots 20\nflip 4 A 7 3\n") ≡ fault_at 2 faults.NoNode }
    ensures range_before_repeat_of_drift { told_by (codes "slots 20\ndrift 0 1\ndrift 0 1001\n")
        ≡ fault_at 3 faults.Range }
    ensures no_node_before_no_data { told_by (codes "slots 20\nread 4 3 2\n") ≡ fault_at 2 faults.NoNode }
    ensures no_data_before_range { told_by (codes "slots 20\nwrite 0 99 0\n") ≡ fault_at 2 faults.NoData }
    ensures no_data_before_reading_itself { told_by (codes "slots 20\nread 2 3 2\n") ≡ fault_at 2 faults.NoData }
    ensures range_before_repeat { told_by (codes "slots 20\non 0 0\non 0 20\n") ≡ fault_at 3 faults.Range }
    ensures range_of_slots_before_repeat { told_by (codes "slots 20\nslots 0\n") ≡ fault_at 2 faults.Range }
    ensures range_before_no_buffer { script_of (buffered_nodes 1) (codes "slots 20\nwrite 1 20 0102\n")
        ≡ fault_at 2 faults.Range }
    ensures range_before_too_many { told_by (codes "slots 20\nwrite 1 3 0102\nwrite 1 3 010\n")
        ≡ fault_at 3 faults.Range }
    ensures first_line_first { told_by (codes "slots 20\non 0 20\nwait\n") ≡ fault_at 2 faults.Range }
{}

/// A script that never says `slots`, told of the line after its last.
pub fn without_slots()
    ensures empty { told_by [] ≡ fault_at 1 faults.NoSlots }
    ensures blank_lines { told_by (codes "\n \n\t\n") ≡ fault_at 4 faults.NoSlots }
    ensures comments { told_by (codes "# one\n\n  # two\n# three") ≡ fault_at 5 faults.NoSlots }
    ensures return_alone { told_by (13 ∷ []) ≡ fault_at 1 faults.NoSlots }
    ensures two_returns { told_by (13 ∷ 13 ∷ []) ≡ fault_at 1 faults.Word }
    ensures line_feed_and_return { told_by (10 ∷ 13 ∷ []) ≡ fault_at 2 faults.NoSlots }
{}

/// Lines that let a node listen again.
pub fn arm_lines()
    ensures once { told_by (codes "slots 20\narm 2 19\n") ≡ Ok (event_script (event.Arm 2 19)) }
    ensures again_and_again { told_by (codes "slots 20\narm 3 9\narm 3 0\narm 3 9\n")
        ≡ Ok (four_node_script 20 (replicate 4 None) (event.Arm 3 9 ∷ event.Arm 3 0 ∷ event.Arm 3 9 ∷ [])) }
    ensures word_too_few { told_by (codes "slots 20\narm 2\n") ≡ fault_at 2 faults.Word }
    ensures word_too_many { told_by (codes "slots 20\narm 2 3 4\n") ≡ fault_at 2 faults.Word }
    ensures upper_case { told_by (codes "slots 20\nArm 2 3\n") ≡ fault_at 2 faults.Word }
    ensures before_slots { told_by (codes "arm 2 3\nslots 20\n") ≡ fault_at 1 faults.NoSlots }
    ensures node_of_no_number { told_by (codes "slots 20\narm x 3\n") ≡ fault_at 2 faults.Number }
    ensures slot_of_no_number { told_by (codes "slots 20\narm 2 -3\n") ≡ fault_at 2 faults.Number }
    ensures no_node { told_by (codes "slots 20\narm 4 3\n") ≡ fault_at 2 faults.NoNode }
    ensures past_the_run { told_by (codes "slots 20\narm 2 20\n") ≡ fault_at 2 faults.Range }
    ensures word_before_no_slots { told_by (codes "arm 2\n") ≡ fault_at 1 faults.Word }
    ensures no_slots_before_number { told_by (codes "arm x y\n") ≡ fault_at 1 faults.NoSlots }
    ensures number_before_no_node { told_by (codes "slots 20\narm 4 x\n") ≡ fault_at 2 faults.Number }
    ensures no_node_before_range { told_by (codes "slots 20\narm 4 20\n") ≡ fault_at 2 faults.NoNode }
{}

/// How a file is cut into lines and words.
pub fn lines_and_words()
    ensures plain { told_by (codes "slots 20\n") ≡ Ok (quiet_script 20) }
    ensures no_last_line_feed { told_by (codes "slots 20") ≡ Ok (quiet_script 20) }
    ensures tabs_and_spaces { told_by (codes "\t slots \t\t20 \n") ≡ Ok (quiet_script 20) }
    ensures comments { told_by (codes "# a run\n\t# of twenty\nslots 20\n#on 0 0\n") ≡ Ok (quiet_script 20) }
    ensures no_comment_after_words { told_by (codes "slots 20 # twenty\n") ≡ fault_at 1 faults.Word }
    ensures no_comment_in_a_word { told_by (codes "slots 20#\n") ≡ fault_at 1 faults.Number }
    ensures return_dropped { told_by (codes "slots 20" ++ 13 ∷ 10 ∷ []) ≡ Ok (quiet_script 20) }
    ensures return_dropped_at_the_end { told_by (codes "slots 20" ++ 13 ∷ []) ≡ Ok (quiet_script 20) }
    ensures one_return_of_two { told_by (codes "slots 20" ++ 13 ∷ 13 ∷ 10 ∷ []) ≡ fault_at 1 faults.Number }
    ensures return_within { told_by (codes "slots" ++ 13 ∷ codes " 20\n") ≡ fault_at 1 faults.Word }
    ensures form_feed { told_by (codes "slots" ++ 12 ∷ codes "20\n") ≡ fault_at 1 faults.Word }
    ensures upper_case { told_by (codes "Slots 20\n") ≡ fault_at 1 faults.Word }
    ensures empty_lines_count { told_by (codes "\n\nslots 0\n") ≡ fault_at 3 faults.Range }
{}

/// How numbers are spelled.
pub fn numbers()
    ensures least { told_by (codes "slots 1\n") ≡ Ok (quiet_script 1) }
    ensures most { told_by (codes "slots 20000\n") ≡ Ok (quiet_script 20000) }
    ensures none { told_by (codes "slots 0\n") ≡ fault_at 1 faults.Range }
    ensures leading_zeros { told_by (codes "slots 000000020\n") ≡ Ok (quiet_script 20) }
    ensures ten_digits { told_by (codes "slots 0000000020\n") ≡ fault_at 1 faults.Number }
    ensures nine_digits { told_by (codes "slots 999999999\n") ≡ fault_at 1 faults.Range }
    ensures plus { told_by (codes "slots +20\n") ≡ fault_at 1 faults.Number }
    ensures minus_where_none_is_due { told_by (codes "slots 20\non -0 0\n") ≡ fault_at 2 faults.Number }
    ensures hexadecimal { told_by (codes "slots 0x14\n") ≡ fault_at 1 faults.Number }
    ensures minus_zero { told_by (codes "slots 20\njump 0 -0 3\n")
        ≡ Ok (four_node_script 20 (replicate 4 None) (event.Jump 0 (pos 0) 3 ∷ [])) }
    ensures minus_and_ten_digits { told_by (codes "slots 20\njump 0 -0000000001 3\n") ≡ fault_at 2 faults.Number }
    ensures minus_and_nine_digits { told_by (codes "slots 20\njump 0 -000000001 3\n")
        ≡ Ok (four_node_script 20 (replicate 4 None) (event.Jump 0 (negsuc 0) 3 ∷ [])) }
    ensures two_signs { told_by (codes "slots 20\njump 0 --1 3\n") ≡ fault_at 2 faults.Number }
    ensures plus_and_value { told_by (codes "slots 20\njump 0 +1 3\n") ≡ fault_at 2 faults.Number }
{}

/// Scripts without a fault: each form of a line, with what it says.
pub fn right_lines()
    ensures on { told_by (codes "slots 20\non 0 0\non 3 19\n")
        ≡ Ok (four_node_script 20 (Some 0 ∷ None ∷ None ∷ Some 19 ∷ []) []) }
    ensures on_in_another_order { told_by (codes "slots 20\non 3 19\non 0 0\n")
        ≡ Ok (four_node_script 20 (Some 0 ∷ None ∷ None ∷ Some 19 ∷ []) []) }
    ensures drift { told_by (codes "slots 20\ndrift 3 -1000\ndrift 1 7\n") ≡ Ok (record {
      slots = 20;
      on = replicate 4 None;
      drift = pos 0 ∷ pos 7 ∷ pos 0 ∷ negsuc 999 ∷ [];
      events = [];
    }) }
    ensures send { told_by (codes "slots 20\nsend 2 AB noise 3 19\n")
        ≡ Ok (event_script (event.Send 2 (record { a = true; b = true }) kind.Noise 3 19)) }
    ensures receive { told_by (codes "slots 20\nreceive 2 B silence 4 4\n")
        ≡ Ok (event_script (event.Receive 2 (record { a = false; b = true }) kind.Silence 4 4)) }
    ensures flip { told_by (codes "slots 20\nflip 2 A 2047 3\n")
        ≡ Ok (event_script (event.Flip 2 (record { a = true; b = false }) 2047 3)) }
    ensures error { told_by (codes "slots 20\nerror 2 -10000 0 19\n")
        ≡ Ok (event_script (event.Error 2 (negsuc 9999) 0 19)) }
    ensures jump { told_by (codes "slots 20\njump 2 1000000 3\n")
        ≡ Ok (event_script (event.Jump 2 (pos 1000000) 3)) }
    ensures write { told_by (codes "slots 20\nwrite 1 3 aF09\n") ≡ Ok (event_script (event.Write 1 3 (175 ∷ 9 ∷ []))) }
    ensures read_status { told_by (codes "slots 20\nread 1 3 status\n")
        ≡ Ok (event_script (event.Read 1 3 source.Status)) }
    ensures read_node { told_by (codes "slots 20\nread 0 3 1\n") ≡ Ok (event_script (event.Read 0 3 (source.Node 1))) }
    ensures in_order { told_by (codes "slots 20\njump 0 1 9\non 0 0\nread 0 3 1\njump 0 1 4\n")
        ≡ Ok (four_node_script 20 (Some 0 ∷ None ∷ None ∷ None ∷ [])
        (event.Jump 0 (pos 1) 9 ∷ event.Read 0 3 (source.Node 1) ∷ event.Jump 0 (pos 1) 4 ∷ [])) }
    ensures writes_apart { told_by (codes "slots 20\nwrite 1 3 0102\nwrite 1 4 0102\n")
        ≡ Ok (four_node_script 20 (replicate 4 None)
        (event.Write 1 3 (1 ∷ 2 ∷ []) ∷ event.Write 1 4 (1 ∷ 2 ∷ []) ∷ [])) }
{}

/// One past the end of a range.
pub fn past_a_range()
    ensures flips_the_header { told_by (codes "slots 20\nflip 2 A 7 3\n") ≡ fault_at 2 faults.Range }
    ensures drift { told_by (codes "slots 20\ndrift 0 1001\n") ≡ fault_at 2 faults.Range }
    ensures error { told_by (codes "slots 20\nerror 0 10001 0 0\n") ≡ fault_at 2 faults.Range }
    ensures error_below { told_by (codes "slots 20\nerror 0 -10001 0 0\n") ≡ fault_at 2 faults.Range }
    ensures jump { told_by (codes "slots 20\njump 0 1000001 0\n") ≡ fault_at 2 faults.Range }
    ensures jump_below { told_by (codes "slots 20\njump 0 -1000001 0\n") ≡ fault_at 2 faults.Range }
    ensures last_slot { told_by (codes "slots 20\nreceive 0 A noise 19 20\n") ≡ fault_at 2 faults.Range }
    ensures write_slot { told_by (codes "slots 20\nwrite 1 20 0102\n") ≡ fault_at 2 faults.Range }
    ensures read_slot { told_by (codes "slots 20\nread 1 20 status\n") ≡ fault_at 2 faults.Range }
    ensures message_too_long { told_by (codes "slots 20\nwrite 1 3 010203\n") ≡ fault_at 2 faults.Range }
    ensures half_a_byte { told_by (codes "slots 20\nwrite 1 3 010\n") ≡ fault_at 2 faults.Range }
    ensures source_of_no_node { told_by (codes "slots 20\nread 0 3 4\n") ≡ fault_at 2 faults.NoNode }
    ensures source_of_no_number { told_by (codes "slots 20\nread 0 3 Status\n") ≡ fault_at 2 faults.Number }
    ensures drift_again { told_by (codes "slots 20\ndrift 0 1\ndrift 0 1\n") ≡ fault_at 3 faults.Repeat }
    ensures fault_in_upper_case { told_by (codes "slots 20\nsend 0 A Noise 0 0\n") ≡ fault_at 2 faults.Word }
    ensures fault_misspelled { told_by (codes "slots 20\nreceive 0 A noises 0 0\n") ≡ fault_at 2 faults.Word }
    ensures flip_on_no_channel { told_by (codes "slots 20\nflip 0 ab 8 0\n") ≡ fault_at 2 faults.Word }
    ensures word_too_many { told_by (codes "slots 20\nread 0 3 1 2\n") ≡ fault_at 2 faults.Word }
    ensures word_too_few { told_by (codes "slots 20\nerror 0 1 2\n") ≡ fault_at 2 faults.Word }
{}

/// A list of five nodes, of which node 2 sends eight bytes.
pub fn five_nodes_on()
    ensures all_on { script_of five_with_one_payload all_on ≡ Ok (record {
      slots = 20;
      on = replicate 5 (Some 0);
      drift = replicate 5 (pos 0);
      events = [];
    }) }
    ensures write_and_read { script_of five_with_one_payload (all_on
        ++ codes "write 2 17 0102030405060708\nread 0 17 2\n") ≡ Ok (record {
          slots = 20;
          on = replicate 5 (Some 0);
          drift = replicate 5 (pos 0);
          events = event.Write 2 17 (1 ∷ 2 ∷ 3 ∷ 4 ∷ 5 ∷ 6 ∷ 7 ∷ 8 ∷ []) ∷ event.Read 0 17 (source.Node 2) ∷ [];
        }) }
    ensures two_writes { script_of five_with_one_payload (all_on
        ++ codes "write 2 17 0102030405060708\nwrite 2 17 0102030405060708\n")
        ≡ fault_at 8 faults.TooMany }
    ensures send_past_the_run { script_of five_with_one_payload (codes "slots 20\nsend 2 AB noise 22 22\n")
        ≡ fault_at 2 faults.Range }
{}

/// A list of as many nodes as there may be.
pub fn wide_list_lines()
    ensures last_node { script_of full_list (codes "slots 72\non 23 5\n") ≡ Ok (record {
      slots = 72;
      on = replicate 23 None ++ Some 5 ∷ [];
      drift = replicate 24 (pos 0);
      events = [];
    }) }
    ensures no_node { script_of full_list (codes "slots 72\non 24 5\n") ≡ fault_at 2 faults.NoNode }
    ensures arm { script_of full_list (codes "slots 72\narm 23 71\n") ≡ Ok (record {
      slots = 72;
      on = replicate 24 None;
      drift = replicate 24 (pos 0);
      events = event.Arm 23 71 ∷ [];
    }) }
    ensures arms_no_node { script_of full_list (codes "slots 72\narm 24 71\n") ≡ fault_at 2 faults.NoNode }
{}

/// A whole script for eight nodes, seventy-five lines of all forms but `flip`, `jump` and `arm`.
pub fn busy_hosts()
    ensures script { script_of eight_nodes busy_text ≡ Ok busy_script }
{}
