//! Worked cases of the text of a campaign.
//!
//! Each function does nothing. Its contract is a case, or some: what the definitions of the crate whole_campaign say of a
//! literal text or line equals what was worked out from the rules of docs/CAMPAIGNS.md and docs/CHARTS.md, and the check
//! computes it.

ghost use Rattle.std.specs.Prelude.{◌≡◌, ◌++◌, [], true, false, Ok, Some, None, codes};
ghost use Rattle.lab_rows.specs.SmallCampaign.{small_campaign, small_text, quiet_words, loss_text, jump_text, says_yes_5};
ghost use Rattle.lab_rows.specs.SmallCampaign.{is_first, is_behind_loss, is_behind_jump, with_test, with_cost};
ghost use Rattle.lab_rows.specs.Bare.{wrong_in, bare_head, bare_own, bare_kept, bare_broken, with_head, with_own};
ghost use Rattle.lab_rows.specs.Bare.{with_piece};
ghost use Rattle.whole_campaign.specs.Whole.{campaign_in};

/// A text as a whole: losses and jumps of which some cost nothing, some their own node, and some others.
pub fn a_small_campaign()
    ensures { campaign_in small_text ≡ Ok small_campaign }
{}

/// A campaign has all its lines, and nothing behind them.
pub fn missing_lines()
    ensures whole { wrong_in (with_head bare_head) ≡ None }
    ensures empty { wrong_in [] ≡ Some 1 }
    ensures no_own_run { wrong_in bare_head ≡ Some 2 }
    ensures no_counts { wrong_in (bare_head ++ bare_own) ≡ Some 3 }
    ensures no_broken { wrong_in (bare_head ++ bare_own ++ bare_kept) ≡ Some 4 }
    ensures no_feed { wrong_in (with_own bare_own ++ codes "ttplab") ≡ Some 5 }
    ensures empty_line { wrong_in (with_own bare_own ++ codes "\n") ≡ Some 5 }
{}

/// First lines that are none.
pub fn wrong_heads()
    ensures few_nodes { wrong_in (with_head (codes "ttplab campaign 1 nodes 3 slots 30 from 8 to 9\n")) ≡ Some 1 }
    ensures many_nodes { wrong_in (with_head (codes "ttplab campaign 1 nodes 25 slots 30 from 8 to 9\n")) ≡ Some 1 }
    ensures no_slots { wrong_in (with_head (codes "ttplab campaign 1 nodes 4 slots 0 from 8 to 9\n")) ≡ Some 1 }
    ensures many_slots { wrong_in (with_head (codes "ttplab campaign 1 nodes 4 slots 20001 from 8 to 9\n")) ≡ Some 1 }
    ensures backwards { wrong_in (with_head (codes "ttplab campaign 1 nodes 4 slots 30 from 9 to 8\n")) ≡ Some 1 }
    ensures zero { wrong_in (with_head (codes "ttplab campaign 1 nodes 4 slots 30 from 08 to 9\n")) ≡ Some 1 }
    ensures ten_digits { wrong_in (with_head (codes "ttplab campaign 1 nodes 4 slots 30 from 8 to 1000000000\n")) ≡ Some 1 }
    ensures nine_digits { wrong_in (with_head (codes "ttplab campaign 1 nodes 4 slots 30 from 8 to 999999999\n")) ≡ None }
    ensures more { wrong_in (with_head (codes "ttplab campaign 1 nodes 4 slots 30 from 8 to 9 \n")) ≡ Some 1 }
{}

/// A later piece.
pub fn later_pieces()
    ensures next { wrong_in (with_piece (codes "ttplab campaign 1 nodes 4 slots 30 from 10 to 99\n") bare_own) ≡ None }
    ensures same_range { wrong_in (with_piece bare_head bare_own) ≡ Some 5 }
    ensures last_again { wrong_in (with_piece (codes "ttplab campaign 1 nodes 4 slots 30 from 9 to 12\n") bare_own) ≡ Some 5 }
    ensures nodes { wrong_in (with_piece (codes "ttplab campaign 1 nodes 5 slots 30 from 10 to 12\n") bare_own) ≡ Some 5 }
    ensures slots { wrong_in (with_piece (codes "ttplab campaign 1 nodes 4 slots 31 from 10 to 12\n") bare_own) ≡ Some 5 }
    ensures own_run { wrong_in (with_piece (codes "ttplab campaign 1 nodes 4 slots 30 from 10 to 12\n")
        (codes "slot - node - keeps yes start 5 left - hurt - split - - end 0007 fault -\n")) ≡ Some 6 }
{}

/// The line of the script's own run, and the counts.
pub fn wrong_own_runs_and_counts()
    ensures fault { wrong_in (with_own (codes "slot - node - keeps yes start 5 left - hurt - split - - end 000f fault - \n")) ≡ Some 2 }
    ensures slot { wrong_in (with_own (codes "slot 8 node - keeps yes start 5 left - hurt - split - - end 000f fault -\n")) ≡ Some 2 }
    ensures members { wrong_in (with_own (codes "slot - node - keeps yes start 5 left - hurt - split - - end 001f fault -\n")) ≡ Some 2 }
    ensures returns { wrong_in (with_own (codes "slot - node - returns no Q8 5 left - hurt - split - - end 000f fault -\n")) ≡ None }
    ensures kept { wrong_in (bare_head ++ bare_own ++ codes "kept 1 same 0 hurt 0 split 0 torn 0 dead 0\n" ++ bare_broken) ≡ Some 3 }
    ensures broken { wrong_in (bare_head ++ bare_own ++ bare_kept ++ codes "broken 0 same 0 hurt 0 split 0 torn 0 dead 1\n") ≡ Some 4 }
    ensures twice { wrong_in (bare_head ++ bare_own ++ bare_kept ++ bare_kept) ≡ Some 4 }
{}

/// Which fault may stand behind another.
pub fn places()
    ensures first { is_first (with_cost quiet_words) ≡ true }
    ensures not_second { is_first (loss_text says_yes_5 quiet_words (codes "AB noise 8 8")) ≡ false }
    ensures second { is_behind_loss 0 (loss_text says_yes_5 quiet_words (codes "AB noise 8 8")) ≡ true }
    ensures other_word { is_behind_loss 0 (codes "slot 8 node 1 keeps yes start 5 left - hurt - split - - end 000f fault receive 1 AB noise 8 8") ≡ false }
    ensures other_node { is_behind_loss 0 (codes "slot 8 node 2 keeps yes start 5 left - hurt - split - - end 000f fault send 2 AB noise 8 8") ≡ false }
    ensures node_of_fault { is_behind_loss 0 (loss_text says_yes_5 quiet_words (codes "AB noise 8 9")) ≡ false }
    ensures to_the_end { is_behind_loss 5 (loss_text says_yes_5 quiet_words (codes "AB silence 8 29")) ≡ true }
    ensures jumps { is_behind_loss 11 (codes "slot 8 node 1 keeps yes start 5 left - hurt - split - - end 000f fault jump 1 999999999 8") ≡ true }
    ensures losses_again { is_behind_loss 11 (with_cost quiet_words) ≡ false }
    ensures losses_behind_jumps { is_behind_jump 15 (with_cost quiet_words) ≡ false }
    ensures jumps_again { is_behind_jump 15 (codes "slot 8 node 1 keeps yes start 5 left - hurt - split - - end 000f fault jump 1 4 8") ≡ false }
    ensures next_node { is_behind_jump 15 (codes "slot 8 node 2 keeps yes start 5 left - hurt - split - - end 000f fault jump 2 4 8") ≡ true }
    ensures node_before { is_behind_jump 15 (codes "slot 8 node 0 keeps yes start 5 left - hurt - split - - end 000f fault jump 0 4 8") ≡ false }
    ensures next_slot { is_behind_jump 15 (jump_text says_yes_5 quiet_words (codes "4")) ≡ true }
    ensures past_the_range { is_behind_jump 15 (codes "slot 10 node 0 keeps yes start 5 left - hurt - split - - end 000f fault jump 0 4 10") ≡ false }
    ensures no_node { is_behind_jump 15 (codes "slot 8 node 4 keeps yes start 5 left - hurt - split - - end 000f fault jump 4 4 8") ≡ false }
{}

/// The values of jumps.
pub fn jump_values()
    ensures up { is_behind_jump 11 (jump_text says_yes_5 quiet_words (codes "4")) ≡ true }
    ensures down { is_behind_jump 12 (codes "slot 8 node 1 keeps yes start 5 left - hurt - split - - end 000f fault jump 1 -4 8") ≡ true }
    ensures up_for_down { is_behind_jump 12 (codes "slot 8 node 1 keeps yes start 5 left - hurt - split - - end 000f fault jump 1 4 8") ≡ false }
    ensures down_for_up { is_behind_jump 13 (codes "slot 8 node 1 keeps yes start 5 left - hurt - split - - end 000f fault jump 1 -4 8") ≡ false }
    ensures nothing { is_behind_jump 13 (codes "slot 8 node 1 keeps yes start 5 left - hurt - split - - end 000f fault jump 1 0 8") ≡ false }
    ensures ten_digits { is_behind_jump 13 (codes "slot 8 node 1 keeps yes start 5 left - hurt - split - - end 000f fault jump 1 1000000000 8") ≡ false }
{}

/// What the test may say.
pub fn tests()
    ensures first_rule { is_first (with_test (codes "keeps no H1 99999")) ≡ true }
    ensures last_rule { is_first (with_test (codes "keeps no H7 0")) ≡ true }
    ensures no_rule { is_first (with_test (codes "keeps no H0 8")) ≡ false }
    ensures eighth { is_first (with_test (codes "keeps no H8 8")) ≡ false }
    ensures other_test { is_first (with_test (codes "returns yes start 5")) ≡ false }
    ensures six_digits { is_first (with_test (codes "keeps yes start 100000")) ≡ false }
{}

/// What a run may cost.
pub fn costs()
    ensures all { is_first (with_cost (codes "left 0:0:clique,3:29:denied hurt 0,3 split 0 29 end 00000f,0001")) ≡ true }
    ensures order { is_first (with_cost (codes "left 3:9:denied,0:9:clique hurt - split - - end 000f")) ≡ false }
    ensures twice { is_first (with_cost (codes "left 3:9:denied,3:9:clique hurt - split - - end 000f")) ≡ false }
    ensures no_node { is_first (with_cost (codes "left 4:9:denied hurt - split - - end 000f")) ≡ false }
    ensures past_the_run { is_first (with_cost (codes "left 3:30:denied hurt - split - - end 000f")) ≡ false }
    ensures reason { is_first (with_cost (codes "left 3:9:gone hurt - split - - end 000f")) ≡ false }
    ensures hurt_twice { is_first (with_cost (codes "left - hurt 1,1 split - - end 000f")) ≡ false }
    ensures hurt_no_node { is_first (with_cost (codes "left - hurt 4 split - - end 000f")) ≡ false }
    ensures comma { is_first (with_cost (codes "left - hurt 1, split - - end 000f")) ≡ false }
    ensures half { is_first (with_cost (codes "left - hurt - split - 9 end 000f")) ≡ false }
    ensures backwards { is_first (with_cost (codes "left - hurt - split 9 8 end 000f")) ≡ false }
    ensures split_past { is_first (with_cost (codes "left - hurt - split 9 30 end 000f")) ≡ false }
    ensures members { is_first (with_cost (codes "left - hurt - split - - end 001f")) ≡ false }
    ensures five_digits { is_first (with_cost (codes "left - hurt - split - - end 0000f")) ≡ false }
    ensures upper_case { is_first (with_cost (codes "left - hurt - split - - end 000F")) ≡ false }
{}
