//! The command `chart CAMPAIGN [FIRST LAST]`.
ghost use Rattle.std.specs.Prelude.{Some};
ghost use Rattle.commands.specs.Outcome.{Follows, ShowsEnding};
ghost use Rattle.commands.specs.Plan.{outside};
ghost use Rattle.commands.specs.Texts.{alone};
ghost use Rattle.lab_top.specs.Forms.{viewed_ending, lab_plan_of};
ghost use Rattle.lab_top.specs.Texts.{ttplab};
ghost use Rattle.lab_top.specs.Views.{chart_view, viewed};
ghost use Rattle.lab_top.specs.Words.{chart};

use crate::refusal::{TextFault, campaign_from, refuse_campaign};
use chart_text::{ChartFault, put_chart};
use commands::{TRACE_LIMIT, load_text};
use picture_text::Span;
use std::alloc::Global;
use ttp_base::{Library, Sink};

// The chart of a text, if it is a campaign with slots to be shown.
fn show_chart<K: Sink>(alloc: Global, text: &[u8], asked: Option<Span>, out: &mut K) -> u8
    ensures { ShowsEnding ttplab (viewed_ending (chart_view asked) (viewed (chart_view asked) text.now))
        (K.output out.old)
        (K.output out.new) (alone result) }
{
    match campaign_from(text) {
        Ok(campaign) => match put_chart(alloc, &campaign, asked, out) {
            Ok(()) => 0,
            Err(ChartFault::NoSlot) => refuse_campaign(out, TextFault::NoSlot),
            Err(ChartFault::Failed) => 6,
            Err(ChartFault::Memory) => 7,
        },
        Err(fault) => refuse_campaign(out, fault),
    }
}

/// The chart of the campaign of this name, of the slots that are asked for, or else of those that are chosen.
pub(crate) fn chart<L: Library, K: Sink>(
    alloc: Global,
    campaign: &str,
    asked: Option<Span>,
    library: &mut L,
    out: &mut K,
) -> u8
    ensures { Follows ttplab (lab_plan_of (Some (chart campaign.now asked)))
        (outside (L.files library.old) (K.output out.old)) (outside (L.files library.new) (K.output out.new))
        (alone result) }
{
    match load_text(
        alloc,
        campaign,
        TRACE_LIMIT,
        b"load: campaign\n",
        library,
        out,
    ) {
        Ok(text) => show_chart(alloc, text.as_slice(), asked, out),
        Err(status) => status,
    }
}
