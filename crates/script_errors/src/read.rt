//! From the bytes of a script to its errors.
ghost use Rattle.std.specs.Prelude.{◌≡◌, ◌≤◌, ◌++◌, false, length, Some, IfOk, OnOk, IfSome};
ghost use Rattle.ttp_world.specs.Medl.{IsValid};
ghost use Rattle.script_text.specs.Lines.{lines_of_file};
ghost use Rattle.script_text.specs.ScriptFile.{script_of};
ghost use Rattle.ttp_world.specs.declared.medl.Medl.{Medl};
ghost use Rattle.script_errors.specs.Agrees.{Agrees};
ghost use Rattle.script_errors.specs.Errors.{script_errors, is_utf16, list_errors, lines_errors, no_line_before};

use crate::error::{ScriptError, Wrong};
use crate::form::form_named;
use crate::line::{says_something, take_line};
use crate::so_far::SoFar;
use crate::spots::{Spot, cut, spot_text};
use crate::words::tell;
use script_text::next_line;
use std::alloc::Global;
use ttp_base::{List, Memory};
use ttp_world::Medl;

// The place of what is wrong with a whole file.
const FRONT: Spot = Spot { start: 0, end: 0 };

// Whether a text begins with the mark of UTF-16.
fn is_utf16(text: &[u8]) -> bool
    ensures { result ≡ is_utf16 text.now }
{
    2 <= text.len()
        && ((text[0] == 0xff && text[1] == 0xfe) || (text[0] == 0xfe && text[1] == 0xff))
}

// Adds the error of a file that is a list, if the first word of its first line that says something names no form.
fn tell_list(alloc: Global, text: &[u8], found: &mut List<ScriptError>) -> Result<(), Memory>
    requires { length text.now ≤ 1048576 }
    ensures { OnOk result (found.new ≡ found.old ++ list_errors 1 (lines_of_file text.now)) }
{
    let mut words = Vec::new(alloc);
    let mut rest = text;
    let mut number: u32 = 1;
    while let Some(line) = next_line(rest) {
        cut(line.piece, &mut words)?;
        if says_something(line.piece, &words) {
            let first = words[0];
            if form_named(spot_text(line.piece, first)).is_none() {
                tell(found, number, first, Wrong::IsList)?;
            }
            return Ok(());
        }
        rest = line.rest;
        number += 1;
    }
    Ok(())
}

// Adds the errors of all lines.
fn tell_lines(
    alloc: Global,
    list: &Option<Medl>,
    text: &[u8],
    found: &mut List<ScriptError>,
) -> Result<(), Memory>
    requires valid { IfSome list.now IsValid }
    requires size { length text.now ≤ 1048576 }
    ensures { OnOk result (found.new ≡ found.old ++ lines_errors list.now no_line_before false 1 (lines_of_file text.now)) }
{
    let mut words = Vec::new(alloc);
    let mut so_far = SoFar::new(alloc);
    let mut said = false;
    let mut rest = text;
    let mut number: u32 = 1;
    while let Some(line) = next_line(rest) {
        cut(line.piece, &mut words)?;
        said = said || says_something(line.piece, &words);
        take_line(list, number, line.piece, &words, &mut so_far, found)?;
        rest = line.rest;
        number += 1;
    }
    if said {
        return Ok(());
    }
    tell(found, number, FRONT, Wrong::NothingSaid)
}

// All that is wrong with the bytes of a script.
#[tactic(auto, unfolding(crate::specs::Errors::script_errors))]
fn errors_in(
    alloc: Global,
    list: &Option<Medl>,
    may_be_list: bool,
    text: &[u8],
) -> Result<List<ScriptError>, Memory>
    requires valid { IfSome list.now IsValid }
    requires size { length text.now ≤ 1048576 }
    ensures { IfOk result (λ found. found ≡ script_errors list.now may_be_list text.now) }
{
    let mut found = List::new(alloc);
    if is_utf16(text) {
        tell(&mut found, 1, FRONT, Wrong::Utf16)?;
        return Ok(found);
    }
    if may_be_list {
        tell_list(alloc, text, &mut found)?;
    }
    if found.len() == 0 {
        tell_lines(alloc, list, text, &mut found)?;
    }
    Ok(found)
}

/// All that is wrong with the bytes of a script, in the order of its lines, and on a line in the order of the format.
///
/// `list` is `None` where the list has a fault. `may_be_list` says that the bytes are TOML with a key or more; where the
/// first word that they say names no form, they are then a list in the place of a script, which is their one error.
/// Bytes that begin with the mark of UTF-16 have one error too. The list is empty where nothing is wrong. The only
/// error is want of memory, which may come for any bytes. The file has at most 1,048,576 bytes.
///
/// The time is linear in the bytes. Memory is taken for the errors (48 bytes each), the words of the longest line, and
/// once, where a host writes and the list is right, a byte for each node and slot.
///
/// Where the list is right, nothing is wrong exactly where `read_script` takes the bytes. Where it refuses them, the line
/// that it names is the first with an error, and its fault is among that line's errors.
pub fn script_errors(
    alloc: Global,
    list: &Option<Medl>,
    may_be_list: bool,
    text: &[u8],
) -> Result<List<ScriptError>, Memory>
    requires valid { IfSome list.now IsValid }
    requires size { length text.now ≤ 1048576 }
    ensures exact { IfOk result (λ found. found ≡ script_errors list.now may_be_list text.now) }
    ensures agrees { (right : Medl) → list.now ≡ Some right
        → IfOk result (λ found. Agrees found (script_of right text.now)) }
{
    let found = errors_in(alloc, list, may_be_list, text)?;
    Ok(found)
}
