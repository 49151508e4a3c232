//! What a line says of a fault of a list.
ghost use Rattle.std.specs.Prelude.{◌≡◌, ◌++◌, map, codes, Some, OnOk};
ghost use Rattle.std.specs.Fmt.{decimal, signed_decimal};
ghost use Rattle.std.specs.List.{list_any};
ghost use Rattle.std.specs.Str.{bytes_eq};
ghost use Rattle.ttp_base.specs.Text.{byte_hex};
ghost use Rattle.commands.specs.Faults.{field_text, place_text, unknown_text};
ghost use Rattle.medl_text.specs.ListFile.{key_text, top_keys, slot_keys, is_known_key};
ghost use Rattle.list_errors.specs.declared.error.Wrong.TheVariants as wrong;
ghost use Rattle.check_words.specs.Shown.{shown_word, meant};
ghost use Rattle.list_words.specs.Words.{list_fault_name, in_all, wanted_kinds, wanted_live, wanted_value, type_name, wanted_from};
ghost use Rattle.list_words.specs.Words.{wanted_range, top_key_by, unknown_top_key, unknown_slot_key, unknown_key, list_said};

use check_words::{Piece, Text, put_byte_hex, put_meant, put_pieces, put_shown};
use list_errors::{ValueType, Wrong};
use medl_text::{Field, FieldName};
use std::alloc::Global;
use ttp_base::{List, Memory};

/// How many rounds and modes a list has, where it says so rightly.
#[derive(Clone, Copy)]
pub struct Measures {
    pub rounds: Option<u8>,
    pub modes: Option<u8>,
}

// Adds the number of a slot where a field stands.
fn put_slot_number(text: &mut Text, k: u8) -> Result<(), Memory>
    ensures { OnOk result (text.new ≡ text.old ++ place_text (Some k)) }
{
    let pieces = [
        Piece::Words("slot "),
        Piece::Number(k as u64),
        Piece::Words(" "),
    ];
    put_pieces(text, &pieces)
}

// Adds where a field stands.
fn put_slot(text: &mut Text, slot: Option<u8>) -> Result<(), Memory>
    ensures { OnOk result (text.new ≡ text.old ++ place_text slot) }
{
    match slot {
        Some(k) => put_slot_number(text, k),
        None => Ok(()),
    }
}

// Adds a text, and a field behind it.
fn put_field(text: &mut Text, front: &str, field: Field) -> Result<(), Memory>
    ensures { OnOk result (text.new ≡ text.old ++ (front.now ++ field_text field)) }
{
    text.put(front)?;
    put_slot(text, field.slot)?;
    text.put(field.name.key())
}

// Adds a text, a field and a number.
fn put_field_value(text: &mut Text, front: &str, field: Field, value: &i64) -> Result<(), Memory>
    ensures { OnOk result (text.new
        ≡ text.old ++ (front.now ++ (field_text field ++ (codes " " ++ signed_decimal value.now)))) }
{
    put_field(text, front, field)?;
    put_pieces(text, &[Piece::Words(" "), Piece::Signed(*value)])
}

// Adds a text and a number.
fn put_numbered(text: &mut Text, front: &str, number: u64) -> Result<(), Memory>
    ensures { OnOk result (text.new ≡ text.old ++ (front.now ++ decimal number)) }
{
    text.put(front)?;
    text.put_number(number)
}

// Adds what an unknown key is called.
fn put_unknown_fault(text: &mut Text, slot: Option<u8>) -> Result<(), Memory>
    ensures { OnOk result (text.new ≡ text.old ++ unknown_text slot) }
{
    match slot {
        None => text.put("unknown key at top"),
        Some(k) => put_numbered(text, "unknown key in slot ", k as u64),
    }
}

#[tactic(auto, unfolding(crate::specs::Words::list_fault_name))]
fn put_kinds_fault(text: &mut Text, slot: u8, letters: &List<u8>) -> Result<(), Memory>
    ensures { OnOk result (text.new ≡ text.old ++ list_fault_name (wrong.Kinds slot letters.now)) }
{
    put_numbered(text, "kinds of slot ", slot as u64)
}

#[tactic(auto, unfolding(crate::specs::Words::list_fault_name))]
fn put_request_fault(text: &mut Text, slot: u8) -> Result<(), Memory>
    ensures { OnOk result (text.new ≡ text.old ++ list_fault_name (wrong.NoRequestData slot)) }
{
    put_numbered(text, "no data for requests of slot ", slot as u64)
}

#[tactic(auto, unfolding(crate::specs::Words::list_fault_name))]
fn put_range_fault(
    text: &mut Text,
    field: Field,
    value: &i64,
    low: u32,
    high: u32,
) -> Result<(), Memory>
    ensures { OnOk result (text.new ≡ text.old ++ list_fault_name (wrong.OutOfRange field value.now low high)) }
{
    put_field_value(text, "out of range ", field, value)
}

/// Adds what `ttpbench` calls a fault of a list.
///
/// # Errors
///
/// As of the other function, where memory was refused; some of it may have been added.
#[tactic(auto, unfolding(crate::specs::Words::list_fault_name))]
pub fn put_wrong_fault(text: &mut Text, wrong: &Wrong) -> Result<(), Memory>
    ensures { OnOk result (text.new ≡ text.old ++ list_fault_name wrong.now) }
{
    match wrong {
        Wrong::TooLarge => text.put("too large"),
        Wrong::Utf16 | Wrong::IsScript { .. } | Wrong::NotUtf8 { .. } | Wrong::NotToml => {
            text.put("not toml")
        }
        Wrong::Missing { field } => put_field(text, "missing ", *field),
        Wrong::WrongKind { field, .. } => put_field(text, "wrong kind ", *field),
        Wrong::OutOfRange {
            field,
            value,
            low,
            high,
        } => put_range_fault(text, *field, value, *low, *high),
        Wrong::SlotCount { found } => put_numbered(text, "slot count ", *found as u64),
        Wrong::Kinds { slot, letters } => put_kinds_fault(text, *slot, letters),
        Wrong::NoRequestData { slot } => put_request_fault(text, *slot),
        Wrong::Live { slot, .. } => put_numbered(text, "live of slot ", *slot as u64),
        Wrong::Unknown { slot, .. } => put_unknown_fault(text, *slot),
        Wrong::NoSync { found } => put_numbered(text, "sync slots ", *found as u64),
    }
}

// Adds how many letters there are to be.
fn put_count(text: &mut Text, count: u8) -> Result<(), Memory>
    ensures { OnOk result (text.new ≡ text.old ++ in_all (Some count)) }
{
    let pieces = [
        Piece::Words(", "),
        Piece::Number(count as u64),
        Piece::Words(" in all"),
    ];
    put_pieces(text, &pieces)
}

// Adds a text, and how many letters there are to be, where that is known.
fn put_letters(text: &mut Text, front: &str, count: Option<u8>) -> Result<(), Memory>
    ensures { OnOk result (text.new ≡ text.old ++ (front.now ++ in_all count)) }
{
    text.put(front)?;
    match count {
        Some(count) => put_count(text, count),
        None => text.put(""),
    }
}

// Adds which letters of `kinds` are wanted, and which of `live`.
fn put_wanted_kinds(text: &mut Text, rounds: Option<u8>) -> Result<(), Memory>
    ensures { OnOk result (text.new ≡ text.old ++ wanted_kinds rounds) }
{
    put_letters(text, "one letter I, N or X for each round", rounds)
}

fn put_wanted_live(text: &mut Text, modes: Option<u8>) -> Result<(), Memory>
    ensures { OnOk result (text.new ≡ text.old ++ wanted_live modes) }
{
    put_letters(text, "one letter y or n for each mode", modes)
}

// Adds which value of a key is wanted.
fn put_wanted(text: &mut Text, measures: Measures, name: FieldName) -> Result<(), Memory>
    ensures { OnOk result (text.new ≡ text.old ++ wanted_value measures.rounds measures.modes name) }
{
    match name {
        FieldName::Version => text.put("integer 1 to 2"),
        FieldName::Rounds => text.put("integer 1 to 64"),
        FieldName::Schedule => text.put("integer 0 to 16777215"),
        FieldName::Buffers => text.put("integer 1 to 16"),
        FieldName::Drift | FieldName::Error => text.put("integer 0 to 1000"),
        FieldName::Window => text.put("integer 1 to 1000000"),
        FieldName::Slot => text.put("array of tables, each [[slot]]"),
        FieldName::Modes => text.put("integer 1 to 8"),
        FieldName::Kinds => put_wanted_kinds(text, measures.rounds),
        FieldName::DataSize => text.put("integer 0 to 240"),
        FieldName::Sync | FieldName::Start | FieldName::Requests => text.put("true or false"),
        FieldName::Live => put_wanted_live(text, measures.modes),
    }
}

// The type of a value.
fn type_name(found: ValueType) -> &'static str
    ensures { result.now ≡ type_name found }
{
    match found {
        ValueType::String => "string",
        ValueType::Integer => "integer",
        ValueType::Float => "float",
        ValueType::Boolean => "boolean",
        ValueType::Datetime => "datetime",
        ValueType::Array => "array",
        ValueType::Table => "table",
    }
}

// Adds from which number to which the range is that is wanted.
fn put_from_to(text: &mut Text, low: u32, high: u32) -> Result<(), Memory>
    ensures { OnOk result (text.new ≡ text.old ++ wanted_from low high) }
{
    let pieces = [
        Piece::Words("wanted "),
        Piece::Number(low as u64),
        Piece::Words(" to "),
        Piece::Number(high as u64),
    ];
    put_pieces(text, &pieces)
}

// Adds which range is wanted.
fn put_range(text: &mut Text, low: u32, high: u32) -> Result<(), Memory>
    ensures { OnOk result (text.new ≡ text.old ++ wanted_range low high) }
{
    if high == 0 {
        text.put("wanted 0, since kinds has I alone")
    } else {
        put_from_to(text, low, high)
    }
}

// The keys at the top, and those of a slot.
const TOP_KEYS: [&str; 9] = [
    "version", "rounds", "schedule", "buffers", "drift", "error", "window", "slot", "modes",
];

const SLOT_KEYS: [&str; 6] = ["kinds", "data", "sync", "start", "requests", "live"];

// Whether a key is among some.
fn is_among(key: &[u8], keys: &[&str]) -> bool
    ensures { result ≡ list_any (λ name. bytes_eq name key.now) (map (λ n. n.now) keys.now) }
{
    match keys {
        [] => false,
        [name, rest @ ..] => name.as_bytes() == key || is_among(key, rest),
    }
}

// Whether a key is one of the top, and whether it is one of a slot.
fn is_top_key(key: &[u8]) -> bool
    ensures { result ≡ is_known_key top_keys key.now }
{
    is_among(key, &TOP_KEYS)
}

fn is_slot_key(key: &[u8]) -> bool
    ensures { result ≡ is_known_key slot_keys key.now }
{
    is_among(key, &SLOT_KEYS)
}

// Adds a key and a text.
fn put_key(text: &mut Text, key: &[u8], behind: &str) -> Result<(), Memory>
    ensures { OnOk result (text.new ≡ text.old ++ (shown_word key.now ++ behind.now)) }
{
    put_shown(text, key)?;
    text.put(behind)
}

// Adds a key that no list has at the top, or in a slot.
fn put_no_top_key(alloc: Global, text: &mut Text, key: &[u8]) -> Result<(), Memory>
    ensures { OnOk result (text.new ≡ text.old ++ meant key.now (map key_text top_keys)) }
{
    put_meant(alloc, text, key, &TOP_KEYS)
}

fn put_no_slot_key(alloc: Global, text: &mut Text, key: &[u8]) -> Result<(), Memory>
    ensures { OnOk result (text.new ≡ text.old ++ meant key.now (map key_text slot_keys)) }
{
    put_meant(alloc, text, key, &SLOT_KEYS)
}

// Adds what is said of a key that is one of a slot, or of none.
fn put_top_key_by(
    alloc: Global,
    text: &mut Text,
    is_of_slot: bool,
    key: &[u8],
) -> Result<(), Memory>
    ensures { OnOk result (text.new ≡ text.old ++ top_key_by is_of_slot key.now) }
{
    if is_of_slot {
        put_key(text, key, " is a key of a slot")
    } else {
        put_no_top_key(alloc, text, key)
    }
}

// Adds what is said of a key that no list has at the top.
fn put_unknown_at_top(alloc: Global, text: &mut Text, key: &[u8]) -> Result<(), Memory>
    ensures { OnOk result (text.new ≡ text.old ++ unknown_top_key key.now) }
{
    put_top_key_by(alloc, text, is_slot_key(key), key)
}

// The same of one that none has in a slot.
fn put_unknown_in_slot(alloc: Global, text: &mut Text, key: &[u8]) -> Result<(), Memory>
    ensures { OnOk result (text.new ≡ text.old ++ unknown_slot_key key.now) }
{
    if is_top_key(key) {
        put_key(text, key, " is a key of the top, before the first [[slot]]")
    } else {
        put_no_slot_key(alloc, text, key)
    }
}

fn put_unknown(alloc: Global, text: &mut Text, slot: Option<u8>, key: &[u8]) -> Result<(), Memory>
    ensures { OnOk result (text.new ≡ text.old ++ unknown_key slot key.now) }
{
    match slot {
        None => put_unknown_at_top(alloc, text, key),
        Some(_) => put_unknown_in_slot(alloc, text, key),
    }
}

// Adds a byte in hexadecimal digits between two texts.
fn put_hex(text: &mut Text, front: &str, byte: u8, behind: &str) -> Result<(), Memory>
    ensures { OnOk result (text.new ≡ text.old ++ (front.now ++ (byte_hex byte ++ behind.now))) }
{
    text.put(front)?;
    put_byte_hex(text, byte)?;
    text.put(behind)
}

// Adds two texts, and what is wanted behind them.
fn put_wanted_behind(
    text: &mut Text,
    first: &str,
    second: &str,
    measures: Measures,
    name: FieldName,
) -> Result<(), Memory>
    ensures { OnOk result (text.new
        ≡ text.old ++ (first.now ++ (second.now ++ wanted_value measures.rounds measures.modes name))) }
{
    text.put(first)?;
    text.put(second)?;
    put_wanted(text, measures, name)
}

// Adds letters that are wrong, and which are wanted.
fn put_wrong_letters(
    text: &mut Text,
    letters: &[u8],
    front: &str,
    count: Option<u8>,
) -> Result<(), Memory>
    ensures { OnOk result (text.new ≡ text.old ++ (shown_word letters.now ++ (front.now ++ in_all count))) }
{
    put_shown(text, letters)?;
    put_letters(text, front, count)
}

#[tactic(auto, unfolding(crate::specs::Words::list_said))]
fn put_no_utf8(
    text: &mut Text,
    measures: Measures,
    stop: &[u8],
    at: usize,
    byte: u8,
) -> Result<(), Memory>
    ensures { OnOk result (text.new ≡ text.old ++ list_said measures.rounds measures.modes stop.now (wrong.NotUtf8 at byte)) }
{
    put_hex(text, "byte \\x", byte, " is no UTF-8")
}

#[tactic(auto, unfolding(crate::specs::Words::list_said))]
fn put_slot_count(
    text: &mut Text,
    measures: Measures,
    stop: &[u8],
    found: usize,
) -> Result<(), Memory>
    ensures { OnOk result (text.new ≡ text.old ++ list_said measures.rounds measures.modes stop.now (wrong.SlotCount found)) }
{
    text.put("wanted 4 to 16 for version 1, 4 to 24 for version 2")
}

#[tactic(auto, unfolding(crate::specs::Words::list_said))]
fn put_no_sync(text: &mut Text, measures: Measures, stop: &[u8], found: u8) -> Result<(), Memory>
    ensures { OnOk result (text.new ≡ text.old ++ list_said measures.rounds measures.modes stop.now (wrong.NoSync found)) }
{
    text.put("wanted 4 or more slots with sync = true")
}

/// Adds what is said of a fault of a list beside what it is called. `stop` is what is said of a text that is no TOML.
///
/// # Errors
///
/// As of the other function.
#[tactic(auto, unfolding(crate::specs::Words::list_said))]
pub fn put_said(
    alloc: Global,
    text: &mut Text,
    measures: Measures,
    stop: &[u8],
    wrong: &Wrong,
) -> Result<(), Memory>
    ensures { OnOk result (text.new ≡ text.old ++ list_said measures.rounds measures.modes stop.now wrong.now) }
{
    match wrong {
        Wrong::TooLarge => text.put("wanted at most 1048576 bytes"),
        Wrong::Utf16 => text.put("the file is UTF-16, save it as UTF-8"),
        Wrong::IsScript { .. } => text.put("this file is a script, the list comes first"),
        Wrong::NotUtf8 { at, byte } => put_no_utf8(text, measures, stop, *at, *byte),
        Wrong::NotToml => text.put_bytes(stop),
        Wrong::Missing { field } => put_wanted_behind(text, "", "wanted ", measures, field.name),
        Wrong::WrongKind { field, found } => put_wanted_behind(
            text,
            type_name(*found),
            ", wanted ",
            measures,
            field.name,
        ),
        Wrong::OutOfRange { low, high, .. } => put_range(text, *low, *high),
        Wrong::SlotCount { found } => put_slot_count(text, measures, stop, *found),
        Wrong::Kinds { letters, .. } => put_wrong_letters(
            text,
            letters.as_slice(),
            ", wanted one letter I, N or X for each round",
            measures.rounds,
        ),
        Wrong::NoRequestData { .. } => text.put("requests is true and data is 0"),
        Wrong::Live { letters, .. } => put_wrong_letters(
            text,
            letters.as_slice(),
            ", wanted one letter y or n for each mode",
            measures.modes,
        ),
        Wrong::Unknown { slot, key } => put_unknown(alloc, text, *slot, key.as_slice()),
        Wrong::NoSync { found } => put_no_sync(text, measures, stop, *found),
    }
}
