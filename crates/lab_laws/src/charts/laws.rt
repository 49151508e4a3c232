//! Laws over the definitions. The functions do nothing; their contracts are the laws.
ghost use Rattle.std.specs.Prelude.{◌≡◌, List, [], ◌∷◌, Option, Ok};
ghost use Rattle.std.specs.List.{concat};
ghost use Rattle.ttp_world.specs.declared.medl.Medl.{Medl};
ghost use Rattle.ttp_world.specs.declared.script.Script.{Script};
ghost use Rattle.ttp_world.specs.Medl.{IsValid};
ghost use Rattle.ttp_world.specs.Script.{IsValidScript};
ghost use Rattle.campaign.specs.declared.cost.Span.{Span};
ghost use Rattle.campaign.specs.Lines.{campaign_lines};
ghost use Rattle.whole_campaign.specs.Whole.{WholeCampaign, campaign_in};
ghost use Rattle.picture_text.specs.declared.window.Span.{Span as Slots};
ghost use Rattle.lab_laws.specs.Ranges.{AreRanges, lines_over};
ghost use Rattle.lab_laws.specs.TakenCampaign.{campaign_over};
ghost use Rattle.chart_text.specs.Chart.{chart_lines};
ghost use Rattle.lab_laws.specs.Alike.{AreAlike};
ghost use Rattle.lab_laws.specs.Joined.{AreJoined, whole_range};

/// A chart depends on the pieces of a campaign by nothing but the slots that they have and what their counts add up to.
pub fn alike_charts()
    ensures { (one other : WholeCampaign) (asked : Option Slots) → AreAlike one other
        → chart_lines one asked ≡ chart_lines other asked }
{}

/// How a campaign was cut changes nothing. Where ranges join, the campaign over them is alike the one over the whole
/// (`alike`); and whatever the texts of the campaigns over them, put together, and the text of the one over the whole are
/// taken for, their charts are the same (`texts`).
pub fn cut_charts()
    ensures alike { (list : Medl) (script : Script) (range : Span) (ranges : List Span) → AreRanges (range ∷ ranges)
        → AreJoined range ranges
        → AreAlike (campaign_over list script (range ∷ ranges))
        (campaign_over list script (whole_range range ranges ∷ [])) }
    ensures texts { (list : Medl) (script : Script) (range : Span) (ranges : List Span) (asked : Option Slots)
        (one other : WholeCampaign) → IsValid list → IsValidScript list script → AreRanges (range ∷ ranges)
        → AreJoined range ranges → campaign_in (concat (lines_over list script (range ∷ ranges))) ≡ Ok one
        → campaign_in (concat (campaign_lines list script (whole_range range ranges).first (whole_range range ranges).last))
        ≡ Ok other
        → chart_lines one asked ≡ chart_lines other asked }
{}
