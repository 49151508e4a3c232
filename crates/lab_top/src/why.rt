//! The command `why LIST SCRIPT NODE [SLOT]`.
ghost use Rattle.std.specs.Prelude.{◌≡◌, ◌≤◌, Ok, Some, IfOk, IfErr, OnErr, OnOk, Option, length};
ghost use Rattle.ttp_base.specs.Outside.{CutShort, WroteLines};
ghost use Rattle.ttp_base.specs.Sheet.{Puts};
ghost use Rattle.ttp_world.specs.Medl.{IsValid};
ghost use Rattle.ttp_world.specs.Script.{IsValidScript};
ghost use Rattle.commands.specs.Files.{refused_script, script_file};
ghost use Rattle.commands.specs.Loads.{Loaded, TookNone};
ghost use Rattle.commands.specs.Outcome.{Follows, ShowsEnding};
ghost use Rattle.commands.specs.Plan.{outside};
ghost use Rattle.commands.specs.Read.{script_from};
ghost use Rattle.commands.specs.Texts.{alone};
ghost use Rattle.lab_top.specs.Forms.{lab_plan_of};
ghost use Rattle.lab_top.specs.Texts.{ttplab};
ghost use Rattle.lab_top.specs.Why.{ends_why, read_script_plan, why_ending, IsUnread};
ghost use Rattle.lab_top.specs.Words.{why};
ghost use Rattle.why_answers.specs.Answer.{why_answer};

use crate::check::load_script_text;
use commands::{FileFault, SCRIPT_LIMIT, file_fault_line, load_list, say};
use script_text::{ScriptError, read_script};
use std::alloc::Global;
use ttp_base::{Failed, GrowingText, Library, Sheet, Sink};
use ttp_world::{Medl, Script};
use why_answers::{WhyAnswer, why_answer};

/// Why bytes are taken for no script.
#[derive(Clone, Copy)]
pub(crate) enum Unread {
    /// This is wrong with them.
    Told(FileFault),
    /// Memory was refused.
    Memory,
}

// The script that bytes are for a list.
#[tactic(auto, unfolding(commands::specs::Read::script_from))]
fn script_of(alloc: Global, list: &Medl, bytes: &[u8]) -> Result<Script, Unread>
    requires valid { IsValid list.now }
    ensures ok { IfOk result (λ script. script_from list.now bytes.now ≡ Ok script) }
    ensures valid { IfOk result (IsValidScript list.now) }
    ensures size { OnOk result (length bytes.now ≤ 1048576) }
    ensures err { IfErr result (IsUnread (script_from list.now bytes.now)) }
{
    if bytes.len() > SCRIPT_LIMIT {
        return Err(Unread::Told(FileFault::TooLarge));
    }
    match read_script(alloc, list, bytes) {
        Ok(script) => Ok(script),
        Err(ScriptError::Memory) => Err(Unread::Memory),
        Err(fault) => Err(Unread::Told(FileFault::Script(fault))),
    }
}

// The script of this name for a list, with the bytes that it was read from, or the status of a call that found none.
fn load_read<L: Library, K: Sink>(
    alloc: Global,
    list: &Medl,
    name: &str,
    library: &mut L,
    out: &mut K,
) -> Result<(Script, Vec<u8>), u8>
    requires { IsValid list.now }
    ensures valid { IfOk result (λ read. IsValidScript list.now read.0) }
    ensures size { IfOk result (λ read. length read.1.items ≤ 1048576) }
    ensures loaded { IfOk result (λ read. Loaded (script_file name.now)
        (outside (L.files library.old) (K.output out.old)) (outside (L.files library.new) (K.output out.new)) read.1.items) }
    ensures read { IfOk result (λ read. script_from list.now read.1.items ≡ Ok read.0) }
    ensures err { IfErr result (TookNone (script_file name.now) (script_from list.now) refused_script
        (outside (L.files library.old) (K.output out.old)) (outside (L.files library.new) (K.output out.new))) }
{
    match load_script_text(alloc, name, library, out) {
        Ok(bytes) => match script_of(alloc, list, bytes.as_slice()) {
            Ok(script) => Ok((script, bytes)),
            Err(Unread::Told(fault)) => Err(say(out, file_fault_line("script", fault).bytes(), 4)),
            Err(Unread::Memory) => Err(7),
        },
        Err(status) => Err(status),
    }
}

// Writes lines.
fn put_texts<K: Sink>(lines: &[GrowingText], sheet: &mut Sheet, out: &mut K)
    ensures { Puts sheet.old.failed (K.output out.old) sheet.new.failed (K.output out.new) lines.now }
{
    for line in lines {
        sheet.put(line.bytes(), out);
    }
}

// Writes lines, and says whether all were written.
fn write_texts<K: Sink>(lines: &[GrowingText], out: &mut K) -> Result<(), Failed>
    ensures ok { OnOk result (WroteLines (K.output out.old) (K.output out.new) lines.now) }
    ensures failed { OnErr result (CutShort (K.output out.old) (K.output out.new) lines.now) }
{
    let mut sheet = Sheet::new();
    put_texts(lines, &mut sheet, out);
    sheet.end()
}

// Writes an answer.
fn put_answer<K: Sink>(answer: &WhyAnswer, out: &mut K) -> u8
    ensures { ShowsEnding ttplab (why_ending answer.now) (K.output out.old) (K.output out.new) (alone result) }
{
    match write_texts(answer.lines.as_slice(), out) {
        Ok(()) => answer.status,
        Err(_) => 6,
    }
}

// What is due of a right list and a right script.
fn show<K: Sink>(
    alloc: Global,
    list: &Medl,
    script: &Script,
    bytes: &[u8],
    node: u32,
    slot: Option<u32>,
    out: &mut K,
) -> u8
    requires valid { IsValid list.now }
    requires script { IsValidScript list.now script.now }
    requires bytes { length bytes.now ≤ 1048576 }
    ensures { ShowsEnding ttplab (why_ending (why_answer list.now script.now bytes.now node slot)) (K.output out.old)
        (K.output out.new) (alone result) }
{
    match why_answer(alloc, list, script, bytes, node, slot) {
        Ok(answer) => put_answer(&answer, out),
        Err(_) => 7,
    }
}

// Reads the script of this name for a list, writes why its entry is what it is, and answers the status.
fn show_read<L: Library, K: Sink>(
    alloc: Global,
    list: &Medl,
    script: &str,
    node: u32,
    slot: Option<u32>,
    library: &mut L,
    out: &mut K,
) -> u8
    requires { IsValid list.now }
    ensures { Follows ttplab (read_script_plan script.now (ends_why node slot list.now) list.now)
        (outside (L.files library.old) (K.output out.old)) (outside (L.files library.new) (K.output out.new))
        (alone result) }
{
    match load_read(alloc, list, script, library, out) {
        Ok((right, bytes)) => show(alloc, list, &right, bytes.as_slice(), node, slot, out),
        Err(status) => status,
    }
}

/// Why the entry of the node in the slot came about, or its newest departure, in the run of the script of this name for the
/// list of this name.
pub(crate) fn why<L: Library, K: Sink>(
    alloc: Global,
    list: &str,
    script: &str,
    node: u32,
    slot: Option<u32>,
    library: &mut L,
    out: &mut K,
) -> u8
    ensures { Follows ttplab (lab_plan_of (Some (why list.now script.now node slot)))
        (outside (L.files library.old) (K.output out.old)) (outside (L.files library.new) (K.output out.new))
        (alone result) }
{
    match load_list(alloc, list, library, out) {
        Ok(medl) => show_read(alloc, &medl, script, node, slot, library, out),
        Err(status) => status,
    }
}
