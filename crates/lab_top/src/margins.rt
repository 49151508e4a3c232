//! The command `margins LIST SCRIPT [FIRST LAST]`.
ghost use Rattle.std.specs.Prelude.{Some};
ghost use Rattle.clock_margins.specs.MarginText.{margin_lines};
ghost use Rattle.commands.specs.Outcome.{Follows};
ghost use Rattle.commands.specs.Plan.{outside};
ghost use Rattle.commands.specs.Texts.{alone};
ghost use Rattle.lab_top.specs.Forms.{lab_plan_of};
ghost use Rattle.lab_top.specs.Texts.{ttplab};
ghost use Rattle.lab_top.specs.Words.{margins};

use crate::both::{LinesOf, write_lines};
use campaign::Span;
use fault_runs::{CampaignFault, processors};
use margin_runs::put_margins;
use std::alloc::Global;
use std::thread::Threads;
use ttp_base::{Library, Sink};
use ttp_world::{Medl, Script};

// Margins over the drifts of all nodes, or over the jumps in some slots.
#[derive(Clone, Copy)]
struct Clocks {
    asked: Option<Span>,
}

impl LinesOf for Clocks {
    ghost lines = { λ form medl right. margin_lines medl right form.asked };

    fn put<R: Threads + Sync, K: Sink>(
        &self,
        rt: &R,
        alloc: Global,
        list: &Medl,
        script: &Script,
        out: &mut K,
    ) -> Result<(), CampaignFault> {
        put_margins(rt, alloc, list, script, self.asked, processors(rt), out)
    }
}

/// The margins of the script of this name for the list of this name, over the drifts of all nodes, or over the jumps in the slots
/// that are asked for.
pub(crate) fn margins<R: Threads + Sync, L: Library, K: Sink>(
    rt: &R,
    alloc: Global,
    list: &str,
    script: &str,
    asked: Option<Span>,
    library: &mut L,
    out: &mut K,
) -> u8
    ensures { Follows ttplab (lab_plan_of (Some (margins list.now script.now asked)))
        (outside (L.files library.old) (K.output out.old)) (outside (L.files library.new) (K.output out.new))
        (alone result) }
{
    write_lines(rt, &Clocks { asked }, alloc, list, script, library, out)
}
