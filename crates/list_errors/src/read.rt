//! From the bytes of a list to its errors.
ghost use Rattle.std.specs.Prelude.{◌≡◌, ◌≤◌, [], ◌∷◌, length, Ok, Some, None, option_map, option_and_then, IfOk, IfSome, IfNone};
ghost use Rattle.ttp_world.specs.Medl.{IsValid};
ghost use Rattle.toml.specs.View.{table_view};
ghost use Rattle.medl_text.specs.ListFile.{document_of, medl_of};
ghost use Rattle.list_errors.specs.Agrees.{ListAgrees};
ghost use Rattle.list_errors.specs.Errors.{list_limit, document_wrongs, list_wrongs, rounds_known, modes_known, rounds_said, modes_said};

use crate::error::Wrong;
use crate::file::{Measures, tell_table};
use crate::front::not_toml;
use medl_text::{MedlError, read_medl};
use std::alloc::Global;
use std::str;
use toml::Table;
use ttp_base::{List, Memory};
use ttp_world::Medl;

/// What was found in the bytes of a list.
#[derive(Drop)]
pub struct ListFound {
    /// The list, where nothing is wrong.
    pub list: Option<Medl>,
    /// How many rounds a cycle has, where the bytes say so and nothing is wrong with it.
    pub rounds: Option<u8>,
    /// How many modes the cluster has, where the bytes are TOML and nothing is wrong with it.
    pub modes: Option<u8>,
    /// What is wrong, in the order in which the reader looks for it.
    pub wrongs: List<Wrong>,
}

// The largest file of a list, in bytes.
const LIST_LIMIT: usize = 1_048_576;

// One thing is wrong with a whole file.
fn one_wrong(alloc: Global, wrong: Wrong) -> Result<ListFound, Memory>
    ensures wrongs { IfOk result (λ found. found.wrongs ≡ wrong ∷ []) }
    ensures list { IfOk result (λ found. found.list ≡ None) }
    ensures rounds { IfOk result (λ found. found.rounds ≡ None) }
    ensures modes { IfOk result (λ found. found.modes ≡ None) }
{
    let mut wrongs = List::new(alloc);
    wrongs.push(wrong)?;
    Ok(ListFound {
        list: None,
        rounds: None,
        modes: None,
        wrongs,
    })
}

/// The table that the bytes of a file are, where they are one.
#[tactic(auto, unfolding(medl_text::specs::ListFile::document_of))]
pub fn document_of(alloc: Global, text: &[u8]) -> Result<Option<Table>, Memory>
    ensures { IfOk result (λ file. document_of text.now ≡ option_map table_view file) }
{
    let Ok(text) = str::from_utf8(text) else {
        return Ok(None);
    };
    match toml::table_from_str(alloc, text) {
        Ok(file) => Ok(Some(file)),
        Err(error) if error.is_memory() => Err(Memory),
        Err(_) => Ok(None),
    }
}

// What was found in the bytes of a list that the reader refuses.
fn refused(alloc: Global, text: &[u8]) -> Result<ListFound, Memory>
    ensures wrongs { IfOk result (λ found. found.wrongs ≡ document_wrongs text.now (document_of text.now)) }
    ensures list { IfOk result (λ found. found.list ≡ None) }
    ensures rounds { IfOk result (λ found. found.rounds ≡ option_and_then rounds_known (document_of text.now)) }
    ensures modes { IfOk result (λ found. found.modes ≡ option_and_then modes_known (document_of text.now)) }
{
    let Some(file) = document_of(alloc, text)? else {
        return one_wrong(alloc, not_toml(text));
    };
    let mut wrongs = List::new(alloc);
    let Measures { rounds, modes } = tell_table(alloc, &file, &mut wrongs)?;
    Ok(ListFound {
        list: None,
        rounds,
        modes,
        wrongs,
    })
}

// What was found in the bytes of a list that the reader takes.
fn right(alloc: Global, list: Medl) -> ListFound
    ensures wrongs { result.wrongs ≡ [] }
    ensures list { result.list ≡ Some list }
    ensures rounds { result.rounds ≡ Some list.rounds }
    ensures modes { result.modes ≡ Some list.modes }
{
    let rounds = Some(list.rounds);
    let modes = Some(list.modes);
    ListFound {
        list: Some(list),
        rounds,
        modes,
        wrongs: List::new(alloc),
    }
}

/// All that is wrong with the bytes of a list, in the order in which `read_medl` looks for it, and the list where nothing is.
///
/// Bytes that are no list at all have one error, of which the first of these is told: they are more than 1,048,576, they
/// begin with the mark of UTF-16, they are a script, they are no UTF-8, they are no TOML. Otherwise the errors are those of
/// the table: of up to 24 slots, and of unknown keys in the order of their bytes. The only refusal is want of memory, which
/// may come for any bytes.
///
/// Nothing is wrong exactly where `read_medl` takes the bytes and they are no more than 1,048,576. Where it refuses them, its
/// fault is that of the first error.
pub fn list_errors(alloc: Global, text: &[u8]) -> Result<ListFound, Memory>
    ensures exact { IfOk result (λ found. found.wrongs ≡ list_wrongs text.now) }
    ensures agrees { IfOk result (λ found. length text.now ≤ list_limit → ListAgrees found.wrongs (medl_of text.now)) }
    ensures rounds { IfOk result (λ found. found.rounds ≡ rounds_said text.now) }
    ensures modes { IfOk result (λ found. found.modes ≡ modes_said text.now) }
    ensures list { IfOk result (λ found. IfSome found.list (λ list. medl_of text.now ≡ Ok list)) }
    ensures none { IfOk result (λ found. IfNone found.list (found.wrongs ≡ [] → ⊥)) }
    ensures valid { IfOk result (λ found. IfSome found.list IsValid) }
{
    if LIST_LIMIT < text.len() {
        let found = one_wrong(alloc, Wrong::TooLarge)?;
        return Ok(found);
    }
    match read_medl(alloc, text) {
        Ok(list) => Ok(right(alloc, list)),
        Err(fault) => match fault {
            MedlError::Memory => Err(Memory),
            _ => {
                let found = refused(alloc, text)?;
                Ok(found)
            }
        },
    }
}
