//! From the bytes of a file to the list.
ghost use Rattle.std.specs.Prelude.{◌≡◌, ◌⊎◌, ◌≤◌, true, [], length, count_by, Some, None, Err, IfOk, IfErr, OnOk};
ghost use Rattle.toml.specs.View.{table_view, items_view};
ghost use Rattle.ttp_base.specs.Faults.{first_fault};
ghost use Rattle.ttp_world.specs.Medl.{IsValid};
ghost use Rattle.medl_text.specs.Fault.{IsFirst};
ghost use Rattle.medl_text.specs.ListFile.{are_tables, tables_of, slots_in, modes_faults, modes_in, slot_limit};
ghost use Rattle.medl_text.specs.ListFile.{count_faults, slots_faults, plans_of, unknown_in_slots, unknown_faults};
ghost use Rattle.medl_text.specs.ListFile.{sync_faults, file_faults, list_in, document_of, medl_of};

use crate::error::{FieldName, MedlError};
use crate::slot::slot_of;
use crate::table::{array, at_slot, at_top, has_only, member, number, number_in};
use std::alloc::Global;
use std::str;
use toml::value::Array;
use toml::{Table, Value};
use ttp_base::List;
use ttp_world::{Medl, SlotPlan};

const TOP_KEYS: [FieldName; 9] = [
    FieldName::Version,
    FieldName::Rounds,
    FieldName::Schedule,
    FieldName::Buffers,
    FieldName::Drift,
    FieldName::Error,
    FieldName::Window,
    FieldName::Slot,
    FieldName::Modes,
];

const SLOT_KEYS: [FieldName; 6] = [
    FieldName::Kinds,
    FieldName::DataSize,
    FieldName::Sync,
    FieldName::Start,
    FieldName::Requests,
    FieldName::Live,
];

fn slots_of(
    alloc: Global,
    rounds: u8,
    modes: u8,
    elements: &[Value],
) -> Result<List<SlotPlan>, MedlError>
    requires modes { modes ≤ 8 }
    requires tables { are_tables (items_view elements.now) ≡ true }
    requires count { length elements.now ≤ 24 }
    ensures ok { IfOk result (λ plans. slots_faults rounds modes 0 (tables_of (items_view elements.now)) ≡ []) }
    ensures value { IfOk result (λ plans. plans ≡ plans_of modes 0 (tables_of (items_view elements.now))) }
    ensures err { IfErr result (λ e. IsFirst e (slots_faults rounds modes 0 (tables_of (items_view elements.now)))) }
{
    let mut plans = List::new(alloc);
    for (k, element) in elements.iter().enumerate() {
        let table = element.as_table().unwrap();
        let plan = slot_of(alloc, k as u8, rounds, modes, table)?;
        plans.push(plan)?;
    }
    Ok(plans)
}

// The first slot that has a key which no list has.
fn unknown_in(elements: &[Value]) -> Result<(), MedlError>
    requires tables { are_tables (items_view elements.now) ≡ true }
    requires count { length elements.now ≤ 24 }
    ensures ok { OnOk result (unknown_in_slots 0 (tables_of (items_view elements.now)) ≡ []) }
    ensures err { IfErr result (λ e. first_fault (unknown_in_slots 0 (tables_of (items_view elements.now))) ≡ Some e) }
{
    for (k, element) in elements.iter().enumerate() {
        if !has_only(element.as_table().unwrap(), &SLOT_KEYS) {
            return Err(MedlError::Unknown {
                slot: Some(k as u8),
            });
        }
    }
    Ok(())
}

// How many modes the cluster has.
#[tactic(auto, unfolding(crate::specs::ListFile::modes_faults))]
fn modes_in(file: &Table) -> Result<u8, MedlError>
    ensures ok { IfOk result (λ modes. modes_faults (table_view file.now) ≡ []) }
    ensures value { IfOk result (λ modes. modes ≡ modes_in (table_view file.now)) }
    ensures range { IfOk result (λ modes. (1 ≤ modes) × (modes ≤ 8)) }
    ensures err { IfErr result (λ e. first_fault (modes_faults (table_view file.now)) ≡ Some e) }
{
    let field = at_top(FieldName::Modes);
    match member(file, field) {
        Some(value) => Ok(number_in(value, field, 1, 8)? as u8),
        None => Ok(1),
    }
}

// The most slots of a list of this version.
fn slot_limit(version: u8) -> usize
    ensures value { result ≡ slot_limit version }
    ensures within { result ≤ 24 }
{
    if version == 2 { 24 } else { 16 }
}

// Whether a list of this version may have so many slots.
#[tactic(auto, unfolding(crate::specs::ListFile::count_faults))]
fn countable(version: u8, found: usize) -> Result<(), MedlError>
    ensures ok { OnOk result (count_faults version found ≡ []) }
    ensures range { OnOk result ((4 ≤ found) × (found ≤ slot_limit version)) }
    ensures err { IfErr result (λ e. first_fault (count_faults version found) ≡ Some e) }
{
    if found < 4 || slot_limit(version) < found {
        return Err(MedlError::SlotCount { found });
    }
    Ok(())
}

// Whether a list file has the known keys alone, at the top and in each slot.
#[tactic(auto, unfolding(crate::specs::ListFile::unknown_faults))]
fn known_keys(file: &Table, elements: &[Value]) -> Result<(), MedlError>
    requires tables { are_tables (items_view elements.now) ≡ true }
    requires count { length elements.now ≤ 24 }
    requires slots { tables_of (items_view elements.now) ≡ slots_in (table_view file.now) }
    ensures ok { OnOk result (unknown_faults (table_view file.now) ≡ []) }
    ensures err { IfErr result (λ e. first_fault (unknown_faults (table_view file.now)) ≡ Some e) }
{
    if !has_only(file, &TOP_KEYS) {
        return Err(MedlError::Unknown { slot: None });
    }
    unknown_in(elements)
}

// How many slots are measured for clock synchronization.
fn sync_count(plans: &[SlotPlan]) -> usize
    ensures value { result ≡ count_by (λ plan. plan.sync) plans.now }
    ensures within { result ≤ length plans.now }
{
    plans.iter().filter(|plan| plan.sync).count()
}

// Whether enough slots are measured.
#[tactic(auto, unfolding(crate::specs::ListFile::sync_faults))]
fn measurable(plans: &[SlotPlan]) -> Result<(), MedlError>
    requires { length plans.now ≤ 24 }
    ensures ok { OnOk result (sync_faults plans.now ≡ []) }
    ensures err { IfErr result (λ e. first_fault (sync_faults plans.now) ≡ Some e) }
{
    let found = sync_count(plans);
    if found < 4 {
        return Err(MedlError::NoSync { found: found as u8 });
    }
    Ok(())
}

#[tactic(auto, using(crate::proofs::Counts::counts), unfolding(crate::specs::ListFile::file_faults, crate::specs::ListFile::list_in))]
fn list_in(alloc: Global, file: &Table) -> Result<Medl, MedlError>
    ensures ok { IfOk result (λ list. file_faults (table_view file.now) ≡ []) }
    ensures value { IfOk result (λ list. list ≡ list_in (table_view file.now)) }
    ensures err { IfErr result (λ e. IsFirst e (file_faults (table_view file.now))) }
{
    let version = number(file, at_top(FieldName::Version), 1, 2)? as u8;
    let rounds = number(file, at_top(FieldName::Rounds), 1, 64)? as u8;
    let schedule = number(file, at_top(FieldName::Schedule), 0, 16_777_215)?;
    let buffers = number(file, at_top(FieldName::Buffers), 1, 16)? as u8;
    let drift = i64::from(number(file, at_top(FieldName::Drift), 0, 1000)?);
    let error = i64::from(number(file, at_top(FieldName::Error), 0, 1000)?);
    let window = i64::from(number(file, at_top(FieldName::Window), 1, 1_000_000)?);
    let elements = array(file, at_top(FieldName::Slot))?;
    let modes = modes_in(file)?;
    countable(version, elements.len())?;
    let slots = slots_of(alloc, rounds, modes, elements)?;
    known_keys(file, elements)?;
    measurable(slots.as_slice())?;
    Ok(Medl {
        version,
        rounds,
        schedule,
        buffers,
        drift,
        error,
        window,
        modes,
        slots,
    })
}

// The table that the bytes of a file are.
#[tactic(auto, unfolding(crate::specs::ListFile::document_of))]
fn document_of(alloc: Global, text: &[u8]) -> Result<Table, MedlError>
    ensures ok { IfOk result (λ file. document_of text.now ≡ Some (table_view file)) }
    ensures err { IfErr result (λ e. (e ≡ MedlError.Memory)
        ⊎ ((e ≡ MedlError.NotToml) × (document_of text.now ≡ None))) }
{
    let Ok(text) = str::from_utf8(text) else {
        return Err(MedlError::NotToml);
    };
    match toml::table_from_str(alloc, text) {
        Ok(file) => Ok(file),
        Err(error) if error.is_memory() => Err(MedlError::Memory),
        Err(_) => Err(MedlError::NotToml),
    }
}

/// Reads a descriptor list from the bytes of a TOML document.
///
/// The answer is `medl_of` of the bytes, which is the list or the first thing wrong with it; but
/// for want of memory, which may be answered for any text. What is read meets `IsValid`. A list of
/// version 1 has up to 16 slots, and one of version 2 up to 24.
#[tactic(auto, unfolding(crate::specs::ListFile::medl_of, crate::specs::ListFile::medl_in))]
pub fn read_medl(alloc: Global, text: &[u8]) -> Result<Medl, MedlError>
    ensures exact { (result ≡ Err MedlError.Memory) ⊎ (result ≡ medl_of text.now) }
    ensures valid { IfOk result IsValid }
{
    let file = document_of(alloc, text)?;
    list_in(alloc, &file)
}
