//! The command `campaign LIST SCRIPT FIRST LAST`.
ghost use Rattle.std.specs.Prelude.{Some};
ghost use Rattle.campaign.specs.Lines.{campaign_lines};
ghost use Rattle.commands.specs.Outcome.{Follows};
ghost use Rattle.commands.specs.Plan.{outside};
ghost use Rattle.commands.specs.Texts.{alone};
ghost use Rattle.lab_top.specs.Forms.{lab_plan_of};
ghost use Rattle.lab_top.specs.Texts.{ttplab};
ghost use Rattle.lab_top.specs.Words.{campaign};

use crate::both::{LinesOf, write_lines};
use fault_runs::{CampaignFault, processors, put_campaign};
use std::alloc::Global;
use std::thread::Threads;
use ttp_base::{Library, Sink};
use ttp_world::{Medl, Script};

// Campaigns over the slots from the first to the last.
#[derive(Clone, Copy)]
struct Faults {
    first: u32,
    last: u32,
}

impl LinesOf for Faults {
    ghost lines = { λ form medl right. campaign_lines medl right form.first form.last };

    fn put<R: Threads + Sync, K: Sink>(
        &self,
        rt: &R,
        alloc: Global,
        list: &Medl,
        script: &Script,
        out: &mut K,
    ) -> Result<(), CampaignFault> {
        put_campaign(
            rt,
            alloc,
            list,
            script,
            self.first,
            self.last,
            processors(rt),
            out,
        )
    }
}

/// The campaign of the script of this name for the list of this name, over the slots from the first to the last.
pub(crate) fn campaign<R: Threads + Sync, L: Library, K: Sink>(
    rt: &R,
    alloc: Global,
    list: &str,
    script: &str,
    first: u32,
    last: u32,
    library: &mut L,
    out: &mut K,
) -> u8
    ensures { Follows ttplab (lab_plan_of (Some (campaign list.now script.now first last)))
        (outside (L.files library.old) (K.output out.old)) (outside (L.files library.new) (K.output out.new))
        (alone result) }
{
    write_lines(
        rt,
        &Faults { first, last },
        alloc,
        list,
        script,
        library,
        out,
    )
}
