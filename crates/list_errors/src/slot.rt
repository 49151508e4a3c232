//! What is wrong with a slot.
ghost use Rattle.std.specs.Prelude.{◌≡◌, ◌++◌, map, OnOk, IfOk};
ghost use Rattle.std.specs.List.{list_all};
ghost use Rattle.toml.specs.View.{table_view};
ghost use Rattle.ttp_world.specs.Medl.{is_bare};
ghost use Rattle.medl_text.specs.ListFile.{is_kind, kind_of, payload_limit};
ghost use Rattle.list_errors.specs.Errors.{has_count, kinds_wrongs, kinds_known, data_limit, requests_wrongs, live_wrongs};
ghost use Rattle.list_errors.specs.Errors.{slot_wrongs};

use crate::error::Wrong;
use crate::table::{flag_in, number, tell_flag, wrong_kind};
use medl_text::{FieldName, are_answers, at_slot, member};
use std::alloc::Global;
use toml::Table;
use ttp_base::{List, Memory};

fn is_kind(letter: u8) -> bool
    ensures { result ≡ is_kind letter }
{
    letter == b'I' || letter == b'N' || letter == b'X'
}

fn are_kinds(letters: &[u8]) -> bool
    ensures { result ≡ list_all is_kind letters.now }
{
    letters.iter().all(|letter| is_kind(*letter))
}

// Whether frames of a kind carry no payload.
fn is_bare(letter: u8) -> bool
    ensures { result ≡ is_bare (kind_of letter) }
{
    letter != b'N' && letter != b'X'
}

fn are_bare(letters: &[u8]) -> bool
    ensures { result ≡ list_all (λ letter. is_bare (kind_of letter)) letters.now }
{
    letters.iter().all(|letter| is_bare(*letter))
}

// Whether there are as many letters as are due, where that is known.
fn has_count(due: Option<u8>, letters: &[u8]) -> bool
    ensures { result ≡ has_count due letters.now }
{
    match due {
        Some(due) => letters.len() == due as usize,
        None => true,
    }
}

// A copy of letters.
fn copied(alloc: Global, letters: &[u8]) -> Result<List<u8>, Memory>
    ensures { IfOk result (λ copy. copy ≡ letters.now) }
{
    Ok(List::from_vec(Vec::from_slice(alloc, letters)?))
}

// The largest payload of frames of kinds that are right.
fn payload_limit(letters: &[u8]) -> u32
    ensures { result ≡ payload_limit (map kind_of letters.now) }
{
    if are_bare(letters) { 0 } else { 240 }
}

// The largest payload of the slot's frames, or of any where its kinds are wrong.
#[tactic(auto, unfolding(crate::specs::Errors::kinds_wrongs))]
fn tell_kinds(
    alloc: Global,
    k: u8,
    rounds: Option<u8>,
    table: &Table,
    wrongs: &mut List<Wrong>,
) -> Result<u32, Memory>
    ensures told { OnOk result (wrongs.new ≡ wrongs.old ++ kinds_wrongs rounds k (table_view table.now)) }
    ensures value { IfOk result (λ limit. limit ≡ data_limit (kinds_known rounds k (table_view table.now))) }
{
    let field = at_slot(k, FieldName::Kinds);
    let Some(value) = member(table, field) else {
        wrongs.push(Wrong::Missing { field })?;
        return Ok(240);
    };
    let Some(letters) = value.as_str() else {
        wrongs.push(wrong_kind(field, value))?;
        return Ok(240);
    };
    let letters = letters.as_bytes();
    if has_count(rounds, letters) && are_kinds(letters) {
        return Ok(payload_limit(letters));
    }
    let letters = copied(alloc, letters)?;
    wrongs.push(Wrong::Kinds { slot: k, letters })?;
    Ok(240)
}

// Whether a slot may ask for modes.
#[tactic(auto, unfolding(crate::specs::Errors::requests_wrongs))]
fn tell_requests(
    k: u8,
    payload: Option<u32>,
    table: &Table,
    wrongs: &mut List<Wrong>,
) -> Result<(), Memory>
    ensures { OnOk result (wrongs.new ≡ wrongs.old ++ requests_wrongs k payload (table_view table.now)) }
{
    let field = at_slot(k, FieldName::Requests);
    let Some(value) = member(table, field) else {
        return Ok(());
    };
    let requests = flag_in(value, field, wrongs)?;
    if requests == Some(true) && payload == Some(0) {
        wrongs.push(Wrong::NoRequestData { slot: k })?;
    }
    Ok(())
}

// The modes in which a slot is live.
#[tactic(auto, unfolding(crate::specs::Errors::live_wrongs))]
fn tell_live(
    alloc: Global,
    k: u8,
    modes: Option<u8>,
    table: &Table,
    wrongs: &mut List<Wrong>,
) -> Result<(), Memory>
    ensures { OnOk result (wrongs.new ≡ wrongs.old ++ live_wrongs modes k (table_view table.now)) }
{
    let field = at_slot(k, FieldName::Live);
    let Some(value) = member(table, field) else {
        return Ok(());
    };
    let Some(letters) = value.as_str() else {
        return wrongs.push(wrong_kind(field, value));
    };
    let letters = letters.as_bytes();
    if has_count(modes, letters) && are_answers(letters) {
        return Ok(());
    }
    let letters = copied(alloc, letters)?;
    wrongs.push(Wrong::Live { slot: k, letters })
}

/// All that is wrong with a slot's keys, in their order.
#[tactic(auto, unfolding(crate::specs::Errors::slot_wrongs, crate::specs::Errors::data_wrongs))]
pub(crate) fn tell_slot(
    alloc: Global,
    k: u8,
    rounds: Option<u8>,
    modes: Option<u8>,
    table: &Table,
    wrongs: &mut List<Wrong>,
) -> Result<(), Memory>
    ensures { OnOk result (wrongs.new ≡ wrongs.old ++ slot_wrongs rounds modes k (table_view table.now)) }
{
    let limit = tell_kinds(alloc, k, rounds, table, wrongs)?;
    let payload = number(table, at_slot(k, FieldName::DataSize), 0, limit, wrongs)?;
    tell_flag(table, at_slot(k, FieldName::Sync), wrongs)?;
    tell_flag(table, at_slot(k, FieldName::Start), wrongs)?;
    tell_requests(k, payload, table, wrongs)?;
    tell_live(alloc, k, modes, table, wrongs)
}
