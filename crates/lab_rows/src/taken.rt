//! A worked case of a campaign that is taken.
//!
//! The function does nothing. Its contract is the case: two nodes of four are on, and node 1 sends in slot 9.

ghost use Rattle.std.specs.Prelude.{◌≡◌, [], ◌∷◌, true, false, codes, length, slice_get, Some};
ghost use Rattle.ttp_world.specs.declared.keep.Keep.TheVariants as keep;
ghost use Rattle.whole_campaign.specs.declared.shown.Doing.TheVariants as doing;
ghost use Rattle.whole_campaign.specs.declared.shown.Test.TheVariants as test;
ghost use Rattle.whole_campaign.specs.Due.{no_runs};
ghost use Rattle.lab_rows.specs.TwoRanges.{two_ranges_taken};

/// The campaign over the slots before the start and the one behind it: the first has no faults, and of the second the
/// last loss of node 0 and its first jump.
pub fn two_ranges()
    ensures own { two_ranges_taken.own
        ≡ record {
          text = codes "slot - node - keeps no H7 8 left - hurt - split - - end 0003 fault -";
          test_text = codes "keeps no H7 8";
          cost = codes "left - hurt - split - - end 0003";
          test = test.Keep (keep.No 7 8);
        } }
    ensures pieces { two_ranges_taken.pieces
        ≡ record { first = 0; last = 7; kept = no_runs; broken = no_runs }
        ∷ record {
          first = 9;
          last = 9;
          kept = no_runs;
          broken = record { runs = 32; same = 20; hurt = 0; split = 0; torn = 12; dead = 0 };
        } ∷ [] }
    ensures loss { slice_get two_ranges_taken.faults 11
        ≡ Some (record {
          shown = record {
            slot = 9;
            node = 0;
            doing = doing.Receive;
            place = 11;
            yes = false;
            same = true;
            hurt = 0;
            split = false;
            memberships = 1;
            company = true;
          };
          text = codes "slot 9 node 0 keeps no H7 8 left - hurt - split - - end 0003 fault receive 0 B noise 9 10";
        }) }
    ensures jump { slice_get two_ranges_taken.faults 12
        ≡ Some (record {
          shown = record {
            slot = 9;
            node = 0;
            doing = doing.Jump;
            place = 12;
            yes = false;
            same = false;
            hurt = 0;
            split = false;
            memberships = 2;
            company = true;
          };
          text = codes "slot 9 node 0 keeps no H6 9 left - hurt - split - - end 0001,0003 fault jump 0 4 9";
        }) }
    ensures count { length two_ranges_taken.faults ≡ 32 }
{}
