//! What is found in a list and in a script, before anything is written.
ghost use Rattle.std.specs.Prelude.{◌≡◌, ◌≤◌, [], length, None, Some, option_map, IfOk, IfSome};
ghost use Rattle.ttp_world.specs.Medl.{IsValid};
ghost use Rattle.ttp_world.specs.Script.{IsValidScript};
ghost use Rattle.commands.specs.Read.{script_from};
ghost use Rattle.check_text.specs.Check.{checked_by, named_by, read_value};
ghost use Rattle.check_text.specs.Found.{IsFoundBeside, IsAllFound, side_lines};
ghost use Rattle.check_text.specs.Lines.{script_fault_lines};

use crate::list_side::{ListSide, list_side};
use crate::named::Named;
use crate::rules::{Rules, no_rules, rules_alone, rules_of};
use crate::script_side::{ScriptSide, script_side};
use commands::SCRIPT_LIMIT;
use script_text::{ScriptError, read_script};
use std::alloc::Global;
use ttp_base::Memory;
use ttp_world::{Medl, Script};

/// What is wrong with a script, and the rules that right files do not keep.
#[derive(Drop)]
pub(crate) struct Beside {
    pub(crate) script: Option<ScriptSide>,
    pub(crate) rules: Rules,
}

/// What is wrong with a list and with a script beside it, and the rules that right files do not keep.
#[derive(Drop)]
pub(crate) struct Found {
    pub(crate) list: ListSide,
    pub(crate) beside: Beside,
}

// The script that the bytes of a file are, if they are one.
#[tactic(auto, unfolding(commands::specs::Read::script_from))]
fn right_script(alloc: Global, list: &Medl, text: &[u8]) -> Result<Option<Script>, Memory>
    requires valid { IsValid list.now }
    ensures exact { IfOk result (λ right. right ≡ read_value (script_from list.now text.now)) }
    ensures valid { IfOk result (λ right. IfSome right (λ script. IsValidScript list.now script)) }
    ensures size { IfOk result (λ right. IfSome right (λ script. length text.now ≤ 1048576)) }
{
    if SCRIPT_LIMIT < text.len() {
        return Ok(None);
    }
    match read_script(alloc, list, text) {
        Ok(script) => Ok(Some(script)),
        Err(ScriptError::Memory) => Err(Memory),
        Err(_) => Ok(None),
    }
}

// What is wrong with a script for a list, or for one that is at fault. No rule is asked.
fn faults_beside(alloc: Global, script: Named<'_>, list: &Option<Medl>) -> Result<Beside, Memory>
    requires valid { IfSome list.now IsValid }
    ensures script { IfOk result (λ beside. side_lines (Some (named_by script.entry)) beside.script
        ≡ script_fault_lines list.now script.entry.name.now script.entry.text.now) }
    ensures lines { IfOk result (λ beside. beside.rules.lines ≡ []) }
    ensures answer { IfOk result (λ beside. beside.rules.answer ≡ None) }
{
    let side = script_side(alloc, list, script.text)?;
    Ok(Beside {
        script: Some(side),
        rules: no_rules(alloc),
    })
}

// What is found in a script beside a right list, which is also given as one that may be at fault.
fn beside_right(
    alloc: Global,
    file: Named<'_>,
    script: Named<'_>,
    medl: &Medl,
    list: &Option<Medl>,
) -> Result<Beside, Memory>
    requires valid { IsValid medl.now }
    requires same { list.now ≡ Some medl.now }
    ensures { IfOk result (λ beside. IsFoundBeside (checked_by (named_by file.entry) (Some (named_by script.entry)) (Some medl.now))
        (Some (named_by script.entry)) beside) }
{
    match right_script(alloc, medl, script.text)? {
        Some(right) => Ok(Beside {
            script: None,
            rules: rules_of(alloc, file, script, medl, &right)?,
        }),
        None => faults_beside(alloc, script, list),
    }
}

// What is found in a script beside a list, which may be at fault.
fn beside_of(
    alloc: Global,
    file: Named<'_>,
    script: Named<'_>,
    list: &Option<Medl>,
) -> Result<Beside, Memory>
    requires valid { IfSome list.now IsValid }
    ensures { IfOk result (λ beside. IsFoundBeside (checked_by (named_by file.entry) (Some (named_by script.entry)) list.now)
        (Some (named_by script.entry)) beside) }
{
    match list {
        Some(medl) => beside_right(alloc, file, script, medl, list),
        None => faults_beside(alloc, script, list),
    }
}

// What is found beside a list where no script is.
fn alone_of(alloc: Global, file: Named<'_>, list: &Option<Medl>) -> Result<Beside, Memory>
    requires valid { IfSome list.now IsValid }
    ensures { IfOk result (λ beside. IsFoundBeside (checked_by (named_by file.entry) None list.now) None beside) }
{
    match list {
        Some(medl) => Ok(Beside {
            script: None,
            rules: rules_alone(alloc, file, medl)?,
        }),
        None => Ok(Beside {
            script: None,
            rules: no_rules(alloc),
        }),
    }
}

// What is found beside a list, which may be at fault.
fn side_of(
    alloc: Global,
    file: Named<'_>,
    script: Option<Named<'_>>,
    list: &Option<Medl>,
) -> Result<Beside, Memory>
    requires valid { IfSome list.now IsValid }
    ensures { IfOk result (λ beside. IsFoundBeside (checked_by (named_by file.entry) (option_map named_by script.entry) list.now)
        (option_map named_by script.entry) beside) }
{
    match script {
        Some(script) => beside_of(alloc, file, script, list),
        None => alone_of(alloc, file, list),
    }
}

/// What is found in a list, and in a script beside it.
pub(crate) fn find(
    alloc: Global,
    file: Named<'_>,
    script: Option<Named<'_>>,
) -> Result<Found, Memory>
    ensures { IfOk result (IsAllFound (named_by file.entry) (option_map named_by script.entry)) }
{
    let list = list_side(alloc, file.text)?;
    let beside = side_of(alloc, file, script, &list.list)?;
    Ok(Found { list, beside })
}
