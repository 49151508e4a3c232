//! What a command makes of a file's bytes: a list, a script, or what is wrong with them.
ghost use Rattle.std.specs.Prelude.{◌≡◌, Ok, IfOk, IfErr};
ghost use Rattle.ttp_world.specs.Medl.{IsValid};
ghost use Rattle.ttp_world.specs.Script.{IsValidScript};
ghost use Rattle.commands.specs.Read.{list_from, script_from, Refuses};

use medl_text::{MedlError, read_medl};
use script_text::{ScriptError, read_script};
use std::alloc::Global;
use ttp_world::{Medl, Script};

/// The most bytes of a list file.
pub const LIST_LIMIT: usize = 1_048_576;

/// The most bytes of a script file.
pub const SCRIPT_LIMIT: usize = 1_048_576;

/// The most bytes that the file of a trace may have.
pub const TRACE_LIMIT: usize = 134_217_728;

/// What is wrong with a file's bytes.
#[derive(Clone, Copy, PartialEq, Eq)]
pub enum FileFault {
    /// They are more than the limit.
    TooLarge,
    /// They are no list, or none that is taken.
    List(MedlError),
    /// They are no script for the list.
    Script(ScriptError),
}

/// Why bytes are not taken.
#[derive(Clone, Copy)]
pub(crate) enum Refusal {
    /// Something is wrong with them.
    Told(FileFault),
    /// Memory was refused.
    Memory,
}

/// The list that bytes are.
#[tactic(auto, unfolding(crate::specs::Read::list_from))]
pub(crate) fn list_from(alloc: Global, bytes: &[u8]) -> Result<Medl, Refusal>
    ensures ok { IfOk result (λ list. list_from bytes.now ≡ Ok list) }
    ensures valid { IfOk result IsValid }
    ensures err { IfErr result (Refuses (list_from bytes.now)) }
{
    if bytes.len() > LIST_LIMIT {
        return Err(Refusal::Told(FileFault::TooLarge));
    }
    match read_medl(alloc, bytes) {
        Ok(list) => Ok(list),
        Err(MedlError::Memory) => Err(Refusal::Memory),
        Err(fault) => Err(Refusal::Told(FileFault::List(fault))),
    }
}

/// The script that bytes are for a list.
#[tactic(auto, unfolding(crate::specs::Read::script_from))]
pub(crate) fn script_from(alloc: Global, list: &Medl, bytes: &[u8]) -> Result<Script, Refusal>
    requires valid { IsValid list.now }
    ensures ok { IfOk result (λ script. script_from list.now bytes.now ≡ Ok script) }
    ensures valid { IfOk result (IsValidScript list.now) }
    ensures err { IfErr result (Refuses (script_from list.now bytes.now)) }
{
    if bytes.len() > SCRIPT_LIMIT {
        return Err(Refusal::Told(FileFault::TooLarge));
    }
    match read_script(alloc, list, bytes) {
        Ok(script) => Ok(script),
        Err(ScriptError::Memory) => Err(Refusal::Memory),
        Err(fault) => Err(Refusal::Told(FileFault::Script(fault))),
    }
}
