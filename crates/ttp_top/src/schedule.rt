//! The command `schedule MEDL`.
ghost use Rattle.std.specs.Prelude.{Some};
ghost use Rattle.ttp_world.specs.Medl.{IsValid};
ghost use Rattle.commands.specs.Outcome.{Follows, Says};
ghost use Rattle.commands.specs.Plan.{outside};
ghost use Rattle.commands.specs.Texts.{alone};
ghost use Rattle.ttp_top.specs.Calls.Answer.{ttpbench};
ghost use Rattle.ttp_top.specs.Calls.Forms.{table_ending, plan_of};
ghost use Rattle.ttp_top.specs.Calls.Words.{schedule};

use commands::load_list;
use medl_text::put_schedule;
use std::alloc::Global;
use ttp_base::{Library, Sink};
use ttp_world::Medl;

// The slot table of a list.
fn show_table<K: Sink>(list: &Medl, out: &mut K) -> u8
    requires { IsValid list.now }
    ensures { Says ttpbench (table_ending list.now) (K.output out.old) (K.output out.new) (alone result) }
{
    match put_schedule(list, out) {
        Ok(()) => 0,
        Err(_) => 6,
    }
}

/// The slot table of the list of this name.
pub(crate) fn schedule<L: Library, K: Sink>(
    alloc: Global,
    list: &str,
    library: &mut L,
    out: &mut K,
) -> u8
    ensures { Follows ttpbench (plan_of (Some (schedule list.now))) (outside (L.files library.old) (K.output out.old))
        (outside (L.files library.new) (K.output out.new)) (alone result) }
{
    match load_list(alloc, list, library, out) {
        Ok(medl) => show_table(&medl, out),
        Err(status) => status,
    }
}
