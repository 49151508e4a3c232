//! The command `check LIST [SCRIPT]`.
ghost use Rattle.std.specs.Prelude.{Some, None, option_map, IfOk, IfErr};
ghost use Rattle.commands.specs.Files.{list_file, script_file};
ghost use Rattle.commands.specs.Loads.{Loaded, GaveNone};
ghost use Rattle.commands.specs.Outcome.{Follows, ShowsEnding};
ghost use Rattle.commands.specs.Plan.{outside};
ghost use Rattle.commands.specs.Texts.{alone};
ghost use Rattle.check_text.specs.Check.{named_by};
ghost use Rattle.lab_top.specs.Forms.{beside_plan, check_ending, check_plan, lab_plan_of};
ghost use Rattle.lab_top.specs.Texts.{ttplab};
ghost use Rattle.lab_top.specs.Words.{check};

use check_text::{Named, put_check};
use commands::{LIST_LIMIT, SCRIPT_LIMIT, load_text};
use fault_runs::CampaignFault;
use std::alloc::Global;
use ttp_base::{Library, Sink};

// The first bytes of the list of this name, one more than it may have, or the status of a call that got none.
fn load_list_text<L: Library, K: Sink>(
    alloc: Global,
    name: &str,
    library: &mut L,
    out: &mut K,
) -> Result<Vec<u8>, u8>
    ensures ok { IfOk result (λ bytes. Loaded (list_file name.now) (outside (L.files library.old) (K.output out.old))
        (outside (L.files library.new) (K.output out.new)) bytes.items) }
    ensures err { IfErr result (GaveNone (list_file name.now) (outside (L.files library.old) (K.output out.old))
        (outside (L.files library.new) (K.output out.new))) }
{
    load_text(alloc, name, LIST_LIMIT, b"load: list\n", library, out)
}

// Loads the script of this name. Where it can't, the answer is the status.
pub(crate) fn load_script_text<L: Library, K: Sink>(
    alloc: Global,
    name: &str,
    library: &mut L,
    out: &mut K,
) -> Result<Vec<u8>, u8>
    ensures ok { IfOk result (λ bytes. Loaded (script_file name.now) (outside (L.files library.old) (K.output out.old))
        (outside (L.files library.new) (K.output out.new)) bytes.items) }
    ensures err { IfErr result (GaveNone (script_file name.now) (outside (L.files library.old) (K.output out.old))
        (outside (L.files library.new) (K.output out.new))) }
{
    load_text(alloc, name, SCRIPT_LIMIT, b"load: script\n", library, out)
}

// What is wrong with a list, and with a script beside it.
fn show_check<K: Sink>(alloc: Global, list: Named<'_>, script: Option<Named<'_>>, out: &mut K) -> u8
    ensures { ShowsEnding ttplab (check_ending (named_by list.entry) (option_map named_by script.entry)) (K.output out.old)
        (K.output out.new) (alone result) }
{
    match put_check(alloc, list, script, out) {
        Ok(status) => status,
        Err(CampaignFault::Failed) => 6,
        Err(CampaignFault::Memory) => 7,
    }
}

// Writes what is wrong with this list, which has no script beside it, and answers the status.
fn show_list<K: Sink>(alloc: Global, list: &str, text: &[u8], out: &mut K) -> u8
    ensures { ShowsEnding ttplab (check_ending (record { name = list.now; text = text.now }) None) (K.output out.old)
        (K.output out.new) (alone result) }
{
    let file = Named {
        name: list.as_bytes(),
        text,
    };
    show_check(alloc, file, None, out)
}

fn show_both<K: Sink>(
    alloc: Global,
    list: &str,
    text: &[u8],
    script: &str,
    other: &[u8],
    out: &mut K,
) -> u8
    ensures { ShowsEnding ttplab (check_ending (record { name = list.now; text = text.now })
        (Some (record { name = script.now; text = other.now }))) (K.output out.old) (K.output out.new) (alone result) }
{
    let file = Named {
        name: list.as_bytes(),
        text,
    };
    let beside = Named {
        name: script.as_bytes(),
        text: other,
    };
    show_check(alloc, file, Some(beside), out)
}

// What is wrong with the list of this name.
fn check_list<L: Library, K: Sink>(alloc: Global, list: &str, library: &mut L, out: &mut K) -> u8
    ensures { Follows ttplab (check_plan list.now None) (outside (L.files library.old) (K.output out.old))
        (outside (L.files library.new) (K.output out.new)) (alone result) }
{
    match load_list_text(alloc, list, library, out) {
        Ok(text) => show_list(alloc, list, text.as_slice(), out),
        Err(status) => status,
    }
}

// What is wrong with this list, and with the script of this name.
fn check_beside<L: Library, K: Sink>(
    alloc: Global,
    list: &str,
    text: &[u8],
    script: &str,
    library: &mut L,
    out: &mut K,
) -> u8
    ensures { Follows ttplab (beside_plan (record { name = list.now; text = text.now }) script.now)
        (outside (L.files library.old) (K.output out.old)) (outside (L.files library.new) (K.output out.new))
        (alone result) }
{
    match load_script_text(alloc, script, library, out) {
        Ok(other) => show_both(alloc, list, text, script, other.as_slice(), out),
        Err(status) => status,
    }
}

// What is wrong with the list and the script of these names.
fn check_both<L: Library, K: Sink>(
    alloc: Global,
    list: &str,
    script: &str,
    library: &mut L,
    out: &mut K,
) -> u8
    ensures { Follows ttplab (check_plan list.now (Some script.now))
        (outside (L.files library.old) (K.output out.old)) (outside (L.files library.new) (K.output out.new))
        (alone result) }
{
    match load_list_text(alloc, list, library, out) {
        Ok(text) => check_beside(alloc, list, text.as_slice(), script, library, out),
        Err(status) => status,
    }
}

/// What is wrong with the list of this name, or with it and the script of this name.
pub(crate) fn check<L: Library, K: Sink>(
    alloc: Global,
    list: &str,
    script: Option<&str>,
    library: &mut L,
    out: &mut K,
) -> u8
    ensures { Follows ttplab (lab_plan_of (Some (check list.now (option_map (λ s. s.now) script.entry))))
        (outside (L.files library.old) (K.output out.old)) (outside (L.files library.new) (K.output out.new))
        (alone result) }
{
    match script {
        Some(script) => check_both(alloc, list, script, library, out),
        None => check_list(alloc, list, library, out),
    }
}
