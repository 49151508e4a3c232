//! A list, a script and the text of a trace from their files. Where there is none, what is wrong is said, and
//! its status answered.
ghost use Rattle.std.specs.Prelude.{◌<◌, ◌^◌, IfOk, IfErr};
ghost use Rattle.ttp_world.specs.Medl.{IsValid};
ghost use Rattle.ttp_world.specs.Script.{IsValidScript};
ghost use Rattle.commands.specs.Files.{TookList, TookNoList, TookScript, TookNoScript, TookBoth, TookNotBoth};
ghost use Rattle.commands.specs.Files.{trace_file};
ghost use Rattle.commands.specs.Loads.{Loaded, GaveNone};
ghost use Rattle.commands.specs.Plan.{outside};

use crate::faults::file_fault_line;
use crate::read::{LIST_LIMIT, Refusal, SCRIPT_LIMIT, TRACE_LIMIT, list_from, script_from};
use crate::said::say;
use std::alloc::Global;
use ttp_base::{Library, LoadError, Sink};
use ttp_world::{Medl, Script};

/// The list of this name, or the status of a call that found none: 3 for one that is refused, 5 for a file
/// that could not be loaded, 6 where the line that says so could not be written, 7 for want of memory.
pub fn load_list<L: Library, K: Sink>(
    alloc: Global,
    name: &str,
    library: &mut L,
    out: &mut K,
) -> Result<Medl, u8>
    ensures valid { IfOk result IsValid }
    ensures ok { IfOk result (TookList name.now (outside (L.files library.old) (K.output out.old))
        (outside (L.files library.new) (K.output out.new))) }
    ensures err { IfErr result (TookNoList name.now (outside (L.files library.old) (K.output out.old))
        (outside (L.files library.new) (K.output out.new))) }
{
    match library.load(alloc, name, LIST_LIMIT) {
        Ok(bytes) => match list_from(alloc, bytes.as_slice()) {
            Ok(list) => Ok(list),
            Err(Refusal::Told(fault)) => Err(say(out, file_fault_line("list", fault).bytes(), 3)),
            Err(Refusal::Memory) => Err(7),
        },
        Err(LoadError::Failed) => Err(say(out, b"load: list\n", 5)),
        Err(LoadError::Memory) => Err(7),
    }
}

/// The script of this name for a list, or the status of a call that found none: 4 for one that is refused, and
/// the others as for a list.
pub fn load_script<L: Library, K: Sink>(
    alloc: Global,
    list: &Medl,
    name: &str,
    library: &mut L,
    out: &mut K,
) -> Result<Script, u8>
    requires { IsValid list.now }
    ensures valid { IfOk result (IsValidScript list.now) }
    ensures ok { IfOk result (TookScript list.now name.now (outside (L.files library.old) (K.output out.old))
        (outside (L.files library.new) (K.output out.new))) }
    ensures err { IfErr result (TookNoScript list.now name.now (outside (L.files library.old) (K.output out.old))
        (outside (L.files library.new) (K.output out.new))) }
{
    match library.load(alloc, name, SCRIPT_LIMIT) {
        Ok(bytes) => match script_from(alloc, list, bytes.as_slice()) {
            Ok(script) => Ok(script),
            Err(Refusal::Told(fault)) => Err(say(out, file_fault_line("script", fault).bytes(), 4)),
            Err(Refusal::Memory) => Err(7),
        },
        Err(LoadError::Failed) => Err(say(out, b"load: script\n", 5)),
        Err(LoadError::Memory) => Err(7),
    }
}

/// The list and the script of these names, or the status of a call that did not get both. The script is
/// loaded only for a list that is not refused.
pub fn load_both<L: Library, K: Sink>(
    alloc: Global,
    list: &str,
    script: &str,
    library: &mut L,
    out: &mut K,
) -> Result<(Medl, Script), u8>
    ensures valid { IfOk result (λ both. IsValid both.0) }
    ensures script { IfOk result (λ both. IsValidScript both.0 both.1) }
    ensures ok { IfOk result (λ both. TookBoth list.now script.now (outside (L.files library.old) (K.output out.old))
        (outside (L.files library.new) (K.output out.new)) both.0 both.1) }
    ensures err { IfErr result (TookNotBoth list.now script.now (outside (L.files library.old) (K.output out.old))
        (outside (L.files library.new) (K.output out.new))) }
{
    match load_list(alloc, list, library, out) {
        Ok(medl) => match load_script(alloc, &medl, script, library, out) {
            Ok(right) => Ok((medl, right)),
            Err(status) => Err(status),
        },
        Err(status) => Err(status),
    }
}

/// The first bytes of the file of this name, one more than a limit, or the status of a call that got none: 5 for
/// a file that could not be loaded, 6 where `missing`, the line that says so, could not be written, 7 for want
/// of memory.
pub fn load_text<L: Library, K: Sink>(
    alloc: Global,
    name: &str,
    limit: usize,
    missing: &[u8],
    library: &mut L,
    out: &mut K,
) -> Result<Vec<u8>, u8>
    requires { limit < 2 ^ 32 }
    ensures ok { IfOk result (λ bytes. Loaded (record { name = name.now; limit = limit; missing = missing.now })
        (outside (L.files library.old) (K.output out.old)) (outside (L.files library.new) (K.output out.new)) bytes.items) }
    ensures err { IfErr result (GaveNone (record { name = name.now; limit = limit; missing = missing.now })
        (outside (L.files library.old) (K.output out.old)) (outside (L.files library.new) (K.output out.new))) }
{
    match library.load(alloc, name, limit) {
        Ok(bytes) => Ok(bytes),
        Err(LoadError::Failed) => Err(say(out, missing, 5)),
        Err(LoadError::Memory) => Err(7),
    }
}

/// The text of this name that may be a trace, up to one byte more than a trace may have; else as [`load_text`].
pub fn load_trace<L: Library, K: Sink>(
    alloc: Global,
    name: &str,
    library: &mut L,
    out: &mut K,
) -> Result<Vec<u8>, u8>
    ensures ok { IfOk result (λ bytes. Loaded (trace_file name.now) (outside (L.files library.old) (K.output out.old))
        (outside (L.files library.new) (K.output out.new)) bytes.items) }
    ensures err { IfErr result (GaveNone (trace_file name.now) (outside (L.files library.old) (K.output out.old))
        (outside (L.files library.new) (K.output out.new))) }
{
    load_text(alloc, name, TRACE_LIMIT, b"load: trace\n", library, out)
}
