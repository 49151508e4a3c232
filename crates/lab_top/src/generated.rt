//! The command `script LIST SLOTS NUMBER`.
ghost use Rattle.std.specs.Prelude.{◌≤◌, Some};
ghost use Rattle.ttp_world.specs.declared.script.TheConstants.{SLOT_LIMIT};
ghost use Rattle.ttp_world.specs.Medl.{IsValid};
ghost use Rattle.commands.specs.Outcome.{Follows, ShowsEnding};
ghost use Rattle.commands.specs.Plan.{outside};
ghost use Rattle.commands.specs.Texts.{alone};
ghost use Rattle.lab_top.specs.Forms.{script_ending, lab_plan_of};
ghost use Rattle.lab_top.specs.Texts.{ttplab};
ghost use Rattle.lab_top.specs.Words.{script_by};

use commands::load_list;
use script_gen::generate;
use script_lines::put_script;
use std::alloc::Global;
use ttp_base::{Library, Sink};
use ttp_world::Medl;

// The text of the generated script.
fn show_script<K: Sink>(alloc: Global, list: &Medl, slots: u32, number: u64, out: &mut K) -> u8
    requires valid { IsValid list.now }
    requires slots { (1 ≤ slots) × (slots ≤ SLOT_LIMIT) }
    ensures { ShowsEnding ttplab (script_ending slots number list.now) (K.output out.old) (K.output out.new)
        (alone result) }
{
    let Ok(script) = generate(alloc, list, slots, number) else {
        return 7;
    };
    match put_script(&script, out) {
        Ok(()) => 0,
        Err(_) => 6,
    }
}

/// The text of the script that the number gives for the list of this name, in a run of so many slots.
pub(crate) fn script<L: Library, K: Sink>(
    alloc: Global,
    list: &str,
    slots: u32,
    number: u64,
    library: &mut L,
    out: &mut K,
) -> u8
    requires slots { (1 ≤ slots) × (slots ≤ SLOT_LIMIT) }
    ensures { Follows ttplab (lab_plan_of (Some (script_by list.now slots number)))
        (outside (L.files library.old) (K.output out.old)) (outside (L.files library.new) (K.output out.new))
        (alone result) }
{
    match load_list(alloc, list, library, out) {
        Ok(medl) => show_script(alloc, &medl, slots, number, out),
        Err(status) => status,
    }
}
