//! Laws over the definitions. The functions do nothing; their contracts are the laws.
ghost use Rattle.std.specs.Prelude.{◌≡◌, List, ◌∷◌, Ok};
ghost use Rattle.std.specs.List.{concat};
ghost use Rattle.ttp_world.specs.declared.medl.Medl.{Medl};
ghost use Rattle.ttp_world.specs.declared.script.Script.{Script};
ghost use Rattle.ttp_world.specs.Medl.{IsValid};
ghost use Rattle.ttp_world.specs.Script.{IsValidScript};
ghost use Rattle.campaign.specs.declared.cost.Span.{Span};
ghost use Rattle.whole_campaign.specs.Whole.{campaign_in};
ghost use Rattle.lab_laws.specs.Ranges.{AreRanges, lines_over};
ghost use Rattle.lab_laws.specs.TakenCampaign.{campaign_over};

/// The texts of the campaigns over ranges of slots, each behind the one before, are one campaign when they are put together,
/// and are taken for the one over these ranges.
pub fn ranges_are_taken()
    ensures { (list : Medl) (script : Script) (range : Span) (ranges : List Span) → IsValid list
        → IsValidScript list script → AreRanges (range ∷ ranges)
        → campaign_in (concat (lines_over list script (range ∷ ranges))) ≡ Ok (campaign_over list script (range ∷ ranges)) }
{}
