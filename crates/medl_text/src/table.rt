//! The values at the keys of a TOML table, each with what can be wrong with it.
ghost use Rattle.std.specs.Prelude.{◌≡◌, ◌≤◌, pos, true, [], Some, None, option_map, string_bytes, IfOk, IfErr};
ghost use Rattle.std.specs.List.{list_all};
ghost use Rattle.std.specs.BTreeMap.{keys};
ghost use Rattle.toml.specs.Data.{as_integer, as_bool, as_str};
ghost use Rattle.toml.specs.View.{view, table_view, array_view, items_view};
ghost use Rattle.ttp_base.specs.Faults.{first_fault};
ghost use Rattle.medl_text.specs.ListFile.{at_top, at_slot, held_at, kind_faults, range_faults, key_faults, none_of};
ghost use Rattle.medl_text.specs.ListFile.{number_faults, number_at, flag_faults, flag_at, text_at, array_faults};
ghost use Rattle.medl_text.specs.ListFile.{items_at, are_tables, is_known_key, has_only};

use crate::error::{Field, FieldName, MedlError};
use toml::value::Array;
use toml::{Table, Value};

/// A field at the top of a list.
pub fn at_top(name: FieldName) -> Field
    ensures { result ≡ at_top name }
{
    Field { name, slot: None }
}

/// A field of slot k.
pub fn at_slot(k: u8, name: FieldName) -> Field
    ensures { result ≡ at_slot k name }
{
    Field {
        name,
        slot: Some(k),
    }
}

/// The value at a key.
pub fn member(table: &Table, field: Field) -> Option<&Value>
    ensures { option_map (λ v. view v.now) result ≡ held_at field (table_view table.now) }
{
    table.get(field.name.key())
}

// The value at a key that is due to be there.
fn present(table: &Table, field: Field) -> Result<&Value, MedlError>
    ensures ok { IfOk result (λ v. held_at field (table_view table.now) ≡ Some (view v.now)) }
    ensures err { IfErr result (λ e. (e ≡ MedlError.Missing field) × (held_at field (table_view table.now) ≡ None)) }
{
    match member(table, field) {
        Some(value) => Ok(value),
        None => Err(MedlError::Missing { field }),
    }
}

/// The number from `low` to `high` that a value is.
pub(crate) fn number_in(value: &Value, field: Field, low: u32, high: u32) -> Result<u32, MedlError>
    ensures ok { IfOk result (λ v. kind_faults field (range_faults field low high) (as_integer (view value.now)) ≡ []) }
    ensures value { IfOk result (λ v. as_integer (view value.now) ≡ Some (pos v)) }
    ensures range { IfOk result (λ v. (low ≤ v) × (v ≤ high)) }
    ensures err { IfErr result
        (λ e. first_fault (kind_faults field (range_faults field low high) (as_integer (view value.now))) ≡ Some e) }
{
    let Some(value) = value.as_integer() else {
        return Err(MedlError::WrongKind { field });
    };
    match u32::try_from(value) {
        Ok(number) if low <= number && number <= high => Ok(number),
        _ => Err(MedlError::OutOfRange { field, value }),
    }
}

/// The boolean that a value is.
pub(crate) fn flag_in(value: &Value, field: Field) -> Result<bool, MedlError>
    ensures ok { IfOk result (λ v. as_bool (view value.now) ≡ Some v) }
    ensures err { IfErr result (λ e. (e ≡ MedlError.WrongKind field) × (as_bool (view value.now) ≡ None)) }
{
    value.as_bool().ok_or(MedlError::WrongKind { field })
}

/// The text that a value is.
pub(crate) fn text_in(value: &Value, field: Field) -> Result<&str, MedlError>
    ensures ok { IfOk result (λ v. as_str (view value.now) ≡ Some v.now) }
    ensures err { IfErr result (λ e. (e ≡ MedlError.WrongKind field) × (as_str (view value.now) ≡ None)) }
{
    value.as_str().ok_or(MedlError::WrongKind { field })
}

/// A number from `low` to `high`.
#[tactic(auto, unfolding(crate::specs::ListFile::number_faults))]
pub(crate) fn number(table: &Table, field: Field, low: u32, high: u32) -> Result<u32, MedlError>
    ensures ok { IfOk result (λ v. number_faults field low high (table_view table.now) ≡ []) }
    ensures value { IfOk result (λ v. v ≡ number_at field (table_view table.now)) }
    ensures range { IfOk result (λ v. (low ≤ v) × (v ≤ high)) }
    ensures err { IfErr result (λ e. first_fault (number_faults field low high (table_view table.now)) ≡ Some e) }
{
    number_in(present(table, field)?, field, low, high)
}

/// A boolean.
#[tactic(auto, unfolding(crate::specs::ListFile::flag_faults))]
pub(crate) fn flag(table: &Table, field: Field) -> Result<bool, MedlError>
    ensures ok { IfOk result (λ v. flag_faults field (table_view table.now) ≡ []) }
    ensures value { IfOk result (λ v. v ≡ flag_at field (table_view table.now)) }
    ensures err { IfErr result (λ e. first_fault (flag_faults field (table_view table.now)) ≡ Some e) }
{
    flag_in(present(table, field)?, field)
}

/// A text.
pub(crate) fn text(table: &Table, field: Field) -> Result<&str, MedlError>
    ensures ok { IfOk result (λ v. key_faults field as_str none_of (held_at field (table_view table.now)) ≡ []) }
    ensures value { IfOk result (λ v. v.now ≡ text_at field (table_view table.now)) }
    ensures err { IfErr result
        (λ e. first_fault (key_faults field as_str none_of (held_at field (table_view table.now))) ≡ Some e) }
{
    text_in(present(table, field)?, field)
}

/// An array whose every element is a table.
#[tactic(auto, unfolding(crate::specs::ListFile::array_faults))]
pub(crate) fn array(table: &Table, field: Field) -> Result<&Array, MedlError>
    ensures ok { IfOk result (λ v. array_faults field (table_view table.now) ≡ []) }
    ensures value { IfOk result (λ v. array_view v.now ≡ items_at field (table_view table.now)) }
    ensures tables { IfOk result (λ v. are_tables (array_view v.now) ≡ true) }
    ensures err { IfErr result (λ e. first_fault (array_faults field (table_view table.now)) ≡ Some e) }
{
    match present(table, field)?.as_array() {
        Some(values) if are_tables(values) => Ok(values),
        _ => Err(MedlError::WrongKind { field }),
    }
}

/// Whether each of some values is a table.
pub fn are_tables(values: &[Value]) -> bool
    ensures { result ≡ are_tables (items_view values.now) }
{
    for value in values {
        if !value.is_table() {
            return false;
        }
    }
    true
}

/// Whether each key of the table is among the known ones.
pub(crate) fn has_only(table: &Table, known: &[FieldName]) -> bool
    ensures { result ≡ has_only known.now (table_view table.now) }
{
    all_among(table, known)
}

fn all_among(table: &Table, known: &[FieldName]) -> bool
    ensures { result ≡ list_all (λ key. is_known_key known.now (string_bytes key)) (keys table.now) }
{
    table.keys().all(|key| is_known_key(key.as_str(), known))
}

/// Whether a key is one of these.
pub fn is_known_key(key: &str, known: &[FieldName]) -> bool
    ensures { result ≡ is_known_key known.now key.now }
{
    known.iter().any(|name| name.key() == key)
}
