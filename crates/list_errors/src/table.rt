//! The values at the keys of a table, each with what is wrong with it.
ghost use Rattle.std.specs.Prelude.{◌≡◌, ◌≤◌, pos, ◌++◌, true, unwrap_or, option_map, IfOk, OnOk, IfSome};
ghost use Rattle.toml.specs.Data.{as_integer, as_bool};
ghost use Rattle.toml.specs.View.{view, table_view, items_view};
ghost use Rattle.medl_text.specs.ListFile.{natural, are_tables, tables_of};
ghost use Rattle.list_errors.specs.Errors.{where_right, type_of, kind_wrongs, range_wrongs, number_wrongs, number_known};
ghost use Rattle.list_errors.specs.Errors.{flag_wrongs, nothing_wrong, elements_of, array_wrongs};

use crate::error::{ValueType, Wrong};
use medl_text::{Field, FieldName, are_tables, at_top, member};
use toml::{Table, Value};
use ttp_base::{List, Memory};

fn type_of(value: &Value) -> ValueType
    ensures { result ≡ type_of (view value.now) }
{
    match value {
        Value::String(_) => ValueType::String,
        Value::Integer(_) => ValueType::Integer,
        Value::Float(_) => ValueType::Float,
        Value::Boolean(_) => ValueType::Boolean,
        Value::Datetime(_) => ValueType::Datetime,
        Value::Array(_) => ValueType::Array,
        Value::Table(_) => ValueType::Table,
    }
}

/// That a value has another type.
pub(crate) fn wrong_kind(field: Field, value: &Value) -> Wrong
    ensures { result ≡ Wrong.WrongKind field (type_of (view value.now)) }
{
    Wrong::WrongKind {
        field,
        found: type_of(value),
    }
}

/// The number of a range that a value is.
pub(crate) fn number_in(
    value: &Value,
    field: Field,
    low: u32,
    high: u32,
    wrongs: &mut List<Wrong>,
) -> Result<Option<u32>, Memory>
    ensures told { OnOk result (wrongs.new ≡ wrongs.old
        ++ kind_wrongs field (view value.now) (range_wrongs field low high) (as_integer (view value.now))) }
    ensures value { IfOk result (λ v. v
        ≡ where_right (kind_wrongs field (view value.now) (range_wrongs field low high) (as_integer (view value.now)))
        (natural (unwrap_or (as_integer (view value.now)) (pos 0)))) }
    ensures range { IfOk result (λ v. IfSome v (λ n. n ≤ high)) }
{
    let Some(value) = value.as_integer() else {
        wrongs.push(wrong_kind(field, value))?;
        return Ok(None);
    };
    match u32::try_from(value) {
        Ok(number) if low <= number && number <= high => Ok(Some(number)),
        _ => {
            wrongs.push(Wrong::OutOfRange {
                field,
                value,
                low,
                high,
            })?;
            Ok(None)
        }
    }
}

/// The number of a range at a key.
#[tactic(auto, unfolding(crate::specs::Errors::number_wrongs))]
pub(crate) fn number(
    table: &Table,
    field: Field,
    low: u32,
    high: u32,
    wrongs: &mut List<Wrong>,
) -> Result<Option<u32>, Memory>
    ensures told { OnOk result (wrongs.new ≡ wrongs.old ++ number_wrongs field low high (table_view table.now)) }
    ensures value { IfOk result (λ v. v ≡ number_known field low high (table_view table.now)) }
    ensures range { IfOk result (λ v. IfSome v (λ n. n ≤ high)) }
{
    let Some(value) = member(table, field) else {
        wrongs.push(Wrong::Missing { field })?;
        return Ok(None);
    };
    number_in(value, field, low, high, wrongs)
}

/// The boolean that a value is.
pub(crate) fn flag_in(
    value: &Value,
    field: Field,
    wrongs: &mut List<Wrong>,
) -> Result<Option<bool>, Memory>
    ensures told { OnOk result (wrongs.new ≡ wrongs.old
        ++ kind_wrongs field (view value.now) nothing_wrong (as_bool (view value.now))) }
    ensures value { IfOk result (λ v. v ≡ as_bool (view value.now)) }
{
    let Some(found) = value.as_bool() else {
        wrongs.push(wrong_kind(field, value))?;
        return Ok(None);
    };
    Ok(Some(found))
}

/// The boolean at a key.
#[tactic(auto, unfolding(crate::specs::Errors::flag_wrongs))]
pub(crate) fn tell_flag(table: &Table, field: Field, wrongs: &mut List<Wrong>) -> Result<(), Memory>
    ensures { OnOk result (wrongs.new ≡ wrongs.old ++ flag_wrongs field (table_view table.now)) }
{
    let Some(value) = member(table, field) else {
        return wrongs.push(Wrong::Missing { field });
    };
    flag_in(value, field, wrongs)?;
    Ok(())
}

/// The slots of a file, where they are an array of tables.
#[tactic(auto, unfolding(crate::specs::Errors::array_wrongs))]
pub(crate) fn elements<'a>(
    file: &'a Table,
    wrongs: &mut List<Wrong>,
) -> Result<Option<&'a [Value]>, Memory>
    ensures told { OnOk result (wrongs.new ≡ wrongs.old ++ array_wrongs (table_view file.now)) }
    ensures value { IfOk result (λ v. option_map (λ vs. tables_of (items_view vs.now)) v ≡ elements_of (table_view file.now)) }
    ensures tables { IfOk result (λ v. IfSome v (λ vs. are_tables (items_view vs.now) ≡ true)) }
{
    let field = at_top(FieldName::Slot);
    let Some(value) = member(file, field) else {
        wrongs.push(Wrong::Missing { field })?;
        return Ok(None);
    };
    match value.as_array() {
        Some(values) if are_tables(values) => Ok(Some(values.as_slice())),
        _ => {
            wrongs.push(wrong_kind(field, value))?;
            Ok(None)
        }
    }
}
