//! The command `pairs LIST SCRIPT FIRST LAST WITHIN`.
ghost use Rattle.std.specs.Prelude.{◌≡◌, ◌+◌, length, nat_lt, Some, OnOk, IfErr};
ghost use Rattle.ttp_base.specs.Outside.{WroteLines};
ghost use Rattle.ttp_world.specs.declared.script.TheConstants.{EVENT_LIMIT};
ghost use Rattle.ttp_world.specs.Medl.{IsValid};
ghost use Rattle.ttp_world.specs.Script.{IsValidScript};
ghost use Rattle.fault_runs.specs.Ends.{LeftFewerBy};
ghost use Rattle.fault_pairs.specs.PairText.{pairs_lines};
ghost use Rattle.commands.specs.Outcome.{Follows};
ghost use Rattle.commands.specs.Plan.{outside};
ghost use Rattle.commands.specs.Texts.{alone};
ghost use Rattle.lab_top.specs.Forms.{lab_plan_of};
ghost use Rattle.lab_top.specs.Texts.{ttplab};
ghost use Rattle.lab_top.specs.Words.{pairs};

use crate::both::{LinesOf, write_lines};
use fault_runs::{CampaignFault, processors};
use pair_runs::put_pairs;
use std::alloc::Global;
use std::thread::Threads;
use ttp_base::{Library, Sink};
use ttp_world::{EVENT_LIMIT, Medl, Script};

// Pairs of which the first fault begins in the slots from the first to the last, and the second up to so many slots later.
#[derive(Clone, Copy)]
struct TwoFaults {
    first: u32,
    last: u32,
    within: u32,
}

// Whether a script has room for two events more. One that a file holds has, unless it has 131,071 of them.
fn has_room(script: &Script) -> bool
    ensures { result ≡ nat_lt (length script.now.events + 1) EVENT_LIMIT }
{
    script.events.as_slice().len() + 1 < EVENT_LIMIT
}

// Writes the pairs, where the script has room for them.
fn put_with_room<R: Threads + Sync, K: Sink>(
    rt: &R,
    alloc: Global,
    list: &Medl,
    script: &Script,
    form: &TwoFaults,
    out: &mut K,
) -> Result<(), CampaignFault>
    requires valid { IsValid list.now }
    requires script { IsValidScript list.now script.now }
    ensures ok { OnOk result (WroteLines (K.output out.old) (K.output out.new)
        (pairs_lines list.now script.now form.now.first form.now.last form.now.within)) }
    ensures err { IfErr result (λ why. LeftFewerBy why (K.output out.old) (K.output out.new)
        (pairs_lines list.now script.now form.now.first form.now.last form.now.within)) }
{
    if has_room(script) {
        return put_pairs(
            rt,
            alloc,
            list,
            script,
            form.first,
            form.last,
            form.within,
            processors(rt),
            out,
        );
    }
    Err(CampaignFault::Memory)
}

impl LinesOf for TwoFaults {
    ghost lines = { λ form medl right. pairs_lines medl right form.first form.last form.within };

    fn put<R: Threads + Sync, K: Sink>(
        &self,
        rt: &R,
        alloc: Global,
        list: &Medl,
        script: &Script,
        out: &mut K,
    ) -> Result<(), CampaignFault> {
        put_with_room(rt, alloc, list, script, self, out)
    }
}

/// The pairs of the script of this name for the list of this name, of which the first fault begins in the slots from the first to
/// the last, and the second up to so many slots later.
pub(crate) fn pairs<R: Threads + Sync, L: Library, K: Sink>(
    rt: &R,
    alloc: Global,
    list: &str,
    script: &str,
    first: u32,
    last: u32,
    within: u32,
    library: &mut L,
    out: &mut K,
) -> u8
    ensures { Follows ttplab (lab_plan_of (Some (pairs list.now script.now first last within)))
        (outside (L.files library.old) (K.output out.old)) (outside (L.files library.new) (K.output out.new))
        (alone result) }
{
    write_lines(
        rt,
        &TwoFaults {
            first,
            last,
            within,
        },
        alloc,
        list,
        script,
        library,
        out,
    )
}
