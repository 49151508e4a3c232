//! What is wrong with the table of a file.
ghost use Rattle.std.specs.Prelude.{◌≡◌, ◌<◌, ◌≤◌, ◌++◌, [], ◌∷◌, ◌&&◌, nat_le, true, length, map, take, option_map, OnOk, IfOk, IfSome, if◌then◌else◌};
ghost use Rattle.toml.specs.View.{table_view, items_view};
ghost use Rattle.medl_text.specs.ListFile.{are_tables, tables_of};
ghost use Rattle.list_errors.specs.Errors.{version_known, rounds_known, modes_known, elements_of, count_limit, count_wrongs};
ghost use Rattle.list_errors.specs.Errors.{slots_wrongs, is_unknown_key, unknown_keys, unknown_keys_at_top, unknown_keys_at_slot, unknown_keys_in_slots, few_syncs, sync_of, sync_count, sync_wrongs};
ghost use Rattle.list_errors.specs.Errors.{modes_wrongs, top_wrongs, table_wrongs};

use crate::error::Wrong;
use crate::slot::tell_slot;
use crate::table::{elements, number, number_in};
use medl_text::{FieldName, at_slot, at_top, is_known_key, member};
use std::alloc::Global;
use toml::{Table, Value};
use ttp_base::{List, Memory};

// The most slots of any list.
const MOST_SLOTS: usize = 24;

const TOP_KEYS: [FieldName; 9] = [
    FieldName::Version,
    FieldName::Rounds,
    FieldName::Schedule,
    FieldName::Buffers,
    FieldName::Drift,
    FieldName::Error,
    FieldName::Window,
    FieldName::Slot,
    FieldName::Modes,
];

const SLOT_KEYS: [FieldName; 6] = [
    FieldName::Kinds,
    FieldName::DataSize,
    FieldName::Sync,
    FieldName::Start,
    FieldName::Requests,
    FieldName::Live,
];

/// The numbers at the top that measure what stands below, where they are right.
#[derive(Clone, Copy)]
pub(crate) struct Measures {
    pub(crate) rounds: Option<u8>,
    pub(crate) modes: Option<u8>,
}

// A number that fits a byte.
fn byte_of(number: Option<u32>) -> Option<u8>
    requires { IfSome number (λ n. n < 256) }
    ensures { result ≡ number }
{
    match number {
        Some(number) => Some(number as u8),
        None => None,
    }
}

// How many modes the cluster has.
#[tactic(auto, unfolding(crate::specs::Errors::modes_wrongs))]
fn tell_modes(file: &Table, wrongs: &mut List<Wrong>) -> Result<Option<u8>, Memory>
    ensures told { OnOk result (wrongs.new ≡ wrongs.old ++ modes_wrongs (table_view file.now)) }
    ensures value { IfOk result (λ v. v ≡ modes_known (table_view file.now)) }
{
    let field = at_top(FieldName::Modes);
    match member(file, field) {
        Some(value) => Ok(byte_of(number_in(value, field, 1, 8, wrongs)?)),
        None => Ok(Some(1)),
    }
}

// The most slots of a list of this version, or of any.
fn count_limit(version: Option<u32>) -> usize
    ensures { result ≡ count_limit version }
{
    match version {
        Some(version) if version != 2 => 16,
        _ => MOST_SLOTS,
    }
}

// Whether a list may have so many slots.
#[tactic(auto, unfolding(crate::specs::Errors::count_wrongs))]
fn tell_count(version: Option<u32>, found: usize, wrongs: &mut List<Wrong>) -> Result<(), Memory>
    ensures { OnOk result (wrongs.new ≡ wrongs.old ++ count_wrongs version found) }
{
    if found < 4 || count_limit(version) < found {
        wrongs.push(Wrong::SlotCount { found })?;
    }
    Ok(())
}

// The keys of slots.
fn tell_slots(
    alloc: Global,
    measures: Measures,
    looked_at: &[Value],
    wrongs: &mut List<Wrong>,
) -> Result<(), Memory>
    requires tables { are_tables (items_view looked_at.now) ≡ true }
    requires count { length looked_at.now ≤ 24 }
    ensures { OnOk result (wrongs.new
        ≡ wrongs.old ++ slots_wrongs measures.rounds measures.modes 0 (tables_of (items_view looked_at.now))) }
{
    for (k, element) in looked_at.iter().enumerate() {
        let table = element.as_table().unwrap();
        tell_slot(
            alloc,
            k as u8,
            measures.rounds,
            measures.modes,
            table,
            wrongs,
        )?;
    }
    Ok(())
}

// A key, where no list has it.
fn tell_if_unknown(
    alloc: Global,
    slot: Option<u8>,
    key: &str,
    known: &[FieldName],
    wrongs: &mut List<Wrong>,
) -> Result<(), Memory>
    ensures { OnOk result (wrongs.new ≡ wrongs.old
        ++ map (λ k. Wrong.Unknown slot k) (if is_unknown_key known.now key.now then key.now ∷ [] else [])) }
{
    if is_known_key(key, known) {
        return Ok(());
    }
    let key = List::from_vec(Vec::from_slice(alloc, key.as_bytes())?);
    wrongs.push(Wrong::Unknown { slot, key })
}

// The keys that no list has at the top, or in a slot.
fn tell_unknown(
    alloc: Global,
    slot: Option<u8>,
    table: &Table,
    known: &[FieldName],
    wrongs: &mut List<Wrong>,
) -> Result<(), Memory>
    ensures { OnOk result (wrongs.new
        ≡ wrongs.old ++ map (λ key. Wrong.Unknown slot key) (unknown_keys known.now (table_view table.now))) }
{
    for key in table.keys() {
        tell_if_unknown(alloc, slot, key.as_str(), known, wrongs)?;
    }
    Ok(())
}

#[tactic(auto, unfolding(crate::specs::Errors::unknown_keys_at_top))]
fn tell_unknown_at_top(alloc: Global, file: &Table, wrongs: &mut List<Wrong>) -> Result<(), Memory>
    ensures { OnOk result (wrongs.new ≡ wrongs.old ++ unknown_keys_at_top (table_view file.now)) }
{
    tell_unknown(alloc, None, file, &TOP_KEYS, wrongs)
}

#[tactic(auto, unfolding(crate::specs::Errors::unknown_keys_at_slot))]
fn tell_unknown_at_slot(
    alloc: Global,
    k: u8,
    table: &Table,
    wrongs: &mut List<Wrong>,
) -> Result<(), Memory>
    ensures { OnOk result (wrongs.new ≡ wrongs.old ++ unknown_keys_at_slot k (table_view table.now)) }
{
    tell_unknown(alloc, Some(k), table, &SLOT_KEYS, wrongs)
}

// The same of slots.
fn tell_unknown_in(
    alloc: Global,
    looked_at: &[Value],
    wrongs: &mut List<Wrong>,
) -> Result<(), Memory>
    requires tables { are_tables (items_view looked_at.now) ≡ true }
    requires count { length looked_at.now ≤ 24 }
    ensures { OnOk result (wrongs.new ≡ wrongs.old ++ unknown_keys_in_slots 0 (tables_of (items_view looked_at.now))) }
{
    for (k, element) in looked_at.iter().enumerate() {
        let table = element.as_table().unwrap();
        tell_unknown_at_slot(alloc, k as u8, table, wrongs)?;
    }
    Ok(())
}

// Whether a slot has `sync`, where it says so.
#[tactic(auto, unfolding(crate::specs::Errors::flag_wrongs))]
fn sync_in(k: u8, table: &Table) -> Option<bool>
    ensures { result ≡ sync_of k (table_view table.now) }
{
    member(table, at_slot(k, FieldName::Sync))?.as_bool()
}

// How many slots have `sync`, where each says so.
fn sync_count(elements: &[Value]) -> Option<u8>
    requires tables { are_tables (items_view elements.now) ≡ true }
    requires count { length elements.now ≤ 24 }
    ensures { result ≡ sync_count 0 (tables_of (items_view elements.now)) }
{
    let mut count: u8 = 0;
    for (k, element) in elements.iter().enumerate() {
        if sync_in(k as u8, element.as_table().unwrap())? {
            count += 1;
        }
    }
    Some(count)
}

// Whether some list has so many slots.
fn is_count(n: usize) -> bool
    ensures { result ≡ (nat_le 4 n && nat_le n 24) }
{
    4 <= n && n <= MOST_SLOTS
}

// Fewer than four slots have `sync`, where it is known how many have.
fn tell_few(found: Option<u8>, wrongs: &mut List<Wrong>) -> Result<(), Memory>
    ensures { OnOk result (wrongs.new ≡ wrongs.old ++ few_syncs found) }
{
    match found {
        Some(found) if found < 4 => wrongs.push(Wrong::NoSync { found }),
        _ => Ok(()),
    }
}

// Whether enough slots have `sync`.
#[tactic(auto, using(medl_text::proofs::Counts::counts), unfolding(crate::specs::Errors::sync_wrongs))]
fn tell_sync(elements: &[Value], wrongs: &mut List<Wrong>) -> Result<(), Memory>
    requires tables { are_tables (items_view elements.now) ≡ true }
    ensures { OnOk result (wrongs.new ≡ wrongs.old ++ sync_wrongs (tables_of (items_view elements.now))) }
{
    if !is_count(elements.len()) {
        return Ok(());
    }
    tell_few(sync_count(elements), wrongs)
}

// The numbers at the top, and the slots, where they are right.
#[derive(Clone, Copy)]
struct Top<'a> {
    version: Option<u32>,
    measures: Measures,
    slots: Option<&'a [Value]>,
}

// What is wrong with the keys at the top.
#[tactic(auto, unfolding(crate::specs::Errors::top_wrongs))]
fn tell_top<'a>(file: &'a Table, wrongs: &mut List<Wrong>) -> Result<Top<'a>, Memory>
    ensures told { OnOk result (wrongs.new ≡ wrongs.old ++ top_wrongs (table_view file.now)) }
    ensures version { IfOk result (λ top. top.version ≡ version_known (table_view file.now)) }
    ensures rounds { IfOk result (λ top. top.measures.rounds ≡ rounds_known (table_view file.now)) }
    ensures modes { IfOk result (λ top. top.measures.modes ≡ modes_known (table_view file.now)) }
    ensures slots { IfOk result (λ top.
        option_map (λ vs. tables_of (items_view vs.now)) top.slots ≡ elements_of (table_view file.now)) }
    ensures tables { IfOk result (λ top. IfSome top.slots (λ vs. are_tables (items_view vs.now) ≡ true)) }
{
    let version = number(file, at_top(FieldName::Version), 1, 2, wrongs)?;
    let rounds = byte_of(number(file, at_top(FieldName::Rounds), 1, 64, wrongs)?);
    number(file, at_top(FieldName::Schedule), 0, 16_777_215, wrongs)?;
    number(file, at_top(FieldName::Buffers), 1, 16, wrongs)?;
    number(file, at_top(FieldName::Drift), 0, 1000, wrongs)?;
    number(file, at_top(FieldName::Error), 0, 1000, wrongs)?;
    number(file, at_top(FieldName::Window), 1, 1_000_000, wrongs)?;
    let slots = elements(file, wrongs)?;
    let modes = tell_modes(file, wrongs)?;
    Ok(Top {
        version,
        measures: Measures { rounds, modes },
        slots,
    })
}

// The slots that are looked at.
#[tactic(auto, using(crate::proofs::Tables::looked))]
fn looked_at(slots: &[Value]) -> &[Value]
    requires { are_tables (items_view slots.now) ≡ true }
    ensures value { tables_of (items_view result.now) ≡ take 24 (tables_of (items_view slots.now)) }
    ensures tables { are_tables (items_view result.now) ≡ true }
    ensures count { length result.now ≤ 24 }
{
    if slots.len() <= MOST_SLOTS {
        slots
    } else {
        &slots[..MOST_SLOTS]
    }
}

/// All that is wrong with the table of a file.
#[tactic(auto, unfolding(crate::specs::Errors::table_wrongs))]
pub(crate) fn tell_table(
    alloc: Global,
    file: &Table,
    wrongs: &mut List<Wrong>,
) -> Result<Measures, Memory>
    ensures told { OnOk result (wrongs.new ≡ wrongs.old ++ table_wrongs (table_view file.now)) }
    ensures rounds { IfOk result (λ measures. measures.rounds ≡ rounds_known (table_view file.now)) }
    ensures modes { IfOk result (λ measures. measures.modes ≡ modes_known (table_view file.now)) }
{
    let top = tell_top(file, wrongs)?;
    let Some(slots) = top.slots else {
        tell_unknown_at_top(alloc, file, wrongs)?;
        return Ok(top.measures);
    };
    tell_count(top.version, slots.len(), wrongs)?;
    let seen = looked_at(slots);
    tell_slots(alloc, top.measures, seen, wrongs)?;
    tell_unknown_at_top(alloc, file, wrongs)?;
    tell_unknown_in(alloc, seen, wrongs)?;
    tell_sync(slots, wrongs)?;
    Ok(top.measures)
}
