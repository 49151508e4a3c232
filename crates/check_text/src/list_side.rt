//! What is wrong with a list, and where.
ghost use Rattle.std.specs.Prelude.{◌≡◌, ◌≤◌, [], ℕ, List as Items, length, Ok, IfOk, IfSome, IfNone};
ghost use Rattle.ttp_world.specs.Medl.{IsValid};
ghost use Rattle.medl_text.specs.ListFile.{medl_of};
ghost use Rattle.commands.specs.Read.{list_limit, list_from};
ghost use Rattle.list_errors.specs.Agrees.{ListAgrees};
ghost use Rattle.list_places.specs.Places as marks;
ghost use Rattle.check_text.specs.Check.{read_value};
ghost use Rattle.check_text.specs.Lines.{key_wrong, list_fault_lines, nth_place, window_place, slots_place};
ghost use Rattle.check_text.specs.Sides.{list_side_lines};

use check_words::{Place, Text};
use commands::LIST_LIMIT;
use list_errors::{ListFound, ValueType, Wrong, list_errors};
use list_places::{Places, list_places};
use list_words::Measures;
use medl_text::{Field, FieldName};
use std::alloc::Global;
use stop_words::put_stop;
use ttp_base::{List, Memory};
use ttp_world::Medl;

/// What is wrong with a list, and where; and the list, where nothing is.
#[derive(Drop)]
pub(crate) struct ListSide {
    pub(crate) list: Option<Medl>,
    pub(crate) measures: Measures,
    pub(crate) wrongs: List<Wrong>,
    pub(crate) places: List<list_places::Place>,
    /// Where the text stops being TOML, in words.
    pub(crate) stop: Text,
}

/// Where the keys at the top of a list stand of which rules speak.
#[derive(Clone, Copy)]
pub(crate) struct KeyPlaces {
    pub(crate) window: Place,
    pub(crate) slots: Place,
}

// Where the errors of a list stand. A text without one is not gone over.
#[tactic(auto, unfolding(list_places::specs::Places::found_places, list_places::specs::Places::stop_told))]
fn places_of(alloc: Global, text: &[u8], wrongs: &[Wrong]) -> Result<Places, Memory>
    ensures places { IfOk result (λ found. found.places ≡ marks.found_places text.now wrongs.now) }
    ensures stop { IfOk result (λ found. found.stop ≡ marks.stop_told text.now wrongs.now) }
{
    if wrongs.is_empty() {
        return Ok(Places {
            places: List::new(alloc),
            stop: None,
        });
    }
    list_places(alloc, text, wrongs)
}

// The list that was found in bytes, where they are not too many.
fn taken_list(text: &[u8], wrongs: &[Wrong], found: Option<Medl>) -> Option<Medl>
    requires agrees { length text.now ≤ list_limit → ListAgrees wrongs.now (medl_of text.now) }
    requires list { IfSome found (λ list. medl_of text.now ≡ Ok list) }
    requires none { IfNone found (wrongs.now ≡ [] → ⊥) }
    requires valid { IfSome found IsValid }
    ensures list { result ≡ read_value (list_from text.now) }
    ensures right { IfSome result (λ list. wrongs.now ≡ []) }
    ensures valid { IfSome result IsValid }
{
    if LIST_LIMIT < text.len() { None } else { found }
}

/// What is wrong with a list.
pub(crate) fn list_side(alloc: Global, text: &[u8]) -> Result<ListSide, Memory>
    ensures lines { (name : Items ℕ) → IfOk result (λ side. list_side_lines name side ≡ list_fault_lines name text.now) }
    ensures list { IfOk result (λ side. side.list ≡ read_value (list_from text.now)) }
    ensures right { IfOk result (λ side. IfSome side.list (λ list. side.wrongs ≡ [])) }
    ensures valid { IfOk result (λ side. IfSome side.list IsValid) }
{
    let ListFound {
        list,
        rounds,
        modes,
        wrongs,
    } = list_errors(alloc, text)?;
    let Places { places, stop } = places_of(alloc, text, wrongs.as_slice())?;
    let mut words = Text::new(alloc);
    put_stop(&mut words, text, &stop)?;
    let list = taken_list(text, wrongs.as_slice(), list);
    Ok(ListSide {
        list,
        measures: Measures { rounds, modes },
        wrongs,
        places,
        stop: words,
    })
}

/// The place of a number among some.
pub(crate) fn nth_place(places: &[list_places::Place], i: usize) -> Place
    ensures { result ≡ nth_place places.now i }
{
    if i < places.len() {
        let place = places[i];
        Place {
            line: place.line,
            column: place.column,
        }
    } else {
        Place { line: 1, column: 1 }
    }
}

// What would be wrong with the value of a key at the top, and so stands where the key does.
fn key_wrong(name: FieldName) -> Wrong
    ensures { result ≡ key_wrong name }
{
    Wrong::WrongKind {
        field: Field { name, slot: None },
        found: ValueType::Integer,
    }
}

/// Where the keys of a right list stand of which rules speak.
pub(crate) fn key_places(alloc: Global, text: &[u8]) -> Result<KeyPlaces, Memory>
    ensures window { IfOk result (λ keys. keys.window ≡ window_place text.now) }
    ensures slots { IfOk result (λ keys. keys.slots ≡ slots_place text.now) }
{
    let wrongs = [key_wrong(FieldName::Window), key_wrong(FieldName::Slot)];
    let found = list_places(alloc, text, wrongs.as_slice())?;
    Ok(KeyPlaces {
        window: nth_place(found.places.as_slice(), 0),
        slots: nth_place(found.places.as_slice(), 1),
    })
}
