//! What is wrong with a script.
ghost use Rattle.std.specs.Prelude.{◌≡◌, ℕ, List as Items, length, option_map, IfOk, IfSome};
ghost use Rattle.ttp_world.specs.Medl.{IsValid};
ghost use Rattle.toml.specs.View.{table_view};
ghost use Rattle.medl_text.specs.ListFile.{document_of};
ghost use Rattle.check_text.specs.Lines.{has_member, script_fault_lines};
ghost use Rattle.check_text.specs.Sides.{script_side_lines};

use commands::SCRIPT_LIMIT;
use list_errors::document_of;
use script_errors::{ScriptError, script_errors};
use std::alloc::Global;
use toml::Table;
use ttp_base::{List, Memory};
use ttp_world::Medl;

/// What is wrong with a script.
#[derive(Drop)]
pub(crate) enum ScriptSide {
    TooLarge,
    Errors { errors: List<ScriptError> },
}

// Whether it has a key.
fn has_key(file: &Option<Table>) -> bool
    ensures { result ≡ has_member (option_map table_view file.now) }
{
    match file {
        Some(table) => !table.is_empty(),
        None => false,
    }
}

// Whether a text is TOML with a key or more.
fn has_member(alloc: Global, text: &[u8]) -> Result<bool, Memory>
    ensures { IfOk result (λ has. has ≡ has_member (document_of text.now)) }
{
    let file = document_of(alloc, text)?;
    Ok(has_key(&file))
}

/// What is wrong with a script for a list, or for one that is at fault.
#[tactic(auto, unfolding(crate::specs::Lines::script_fault_lines, crate::specs::Lines::script_found))]
pub(crate) fn script_side(
    alloc: Global,
    list: &Option<Medl>,
    text: &[u8],
) -> Result<ScriptSide, Memory>
    requires valid { IfSome list.now IsValid }
    ensures { (name : Items ℕ) → IfOk result (λ side. script_side_lines name text.now side
        ≡ script_fault_lines list.now name text.now) }
{
    if SCRIPT_LIMIT < text.len() {
        return Ok(ScriptSide::TooLarge);
    }
    let may_be_list = has_member(alloc, text)?;
    let errors = script_errors(alloc, list, may_be_list, text)?;
    Ok(ScriptSide::Errors { errors })
}

impl ScriptSide {
    /// How many lines tell of it.
    pub(crate) fn count(&self) -> usize
        ensures { (name text : Items ℕ) → result ≡ length (script_side_lines name text self.now) }
    {
        match self {
            ScriptSide::TooLarge => 1,
            ScriptSide::Errors { errors } => errors.len(),
        }
    }
}
