//! What a slot says: its kinds of frame, its payload, and the modes that it asks for and is live in.
ghost use Rattle.std.specs.Prelude.{◌≡◌, ◌≤◌, [], length, map, Some, IsTrue, SomeIff, IfOk, IfErr};
ghost use Rattle.std.specs.List.{list_all};
ghost use Rattle.toml.specs.View.{table_view};
ghost use Rattle.ttp_base.specs.Faults.{first_fault};
ghost use Rattle.ttp_world.specs.Medl.{is_bare};
ghost use Rattle.medl_text.specs.declared.error.FieldName.TheVariants as names;
ghost use Rattle.medl_text.specs.Fault.{IsFirst};
ghost use Rattle.medl_text.specs.ListFile.{at_slot, flag_at, is_kind, kind_of, letters_faults, kinds_faults};
ghost use Rattle.medl_text.specs.ListFile.{kinds_at, payload_limit, requests_faults, is_answer};
ghost use Rattle.medl_text.specs.ListFile.{live_faults, live_of, all_live, live_at, slot_faults, slot_plan_of};

use crate::error::{FieldName, MedlError};
use crate::table::{at_slot, flag, flag_in, member, number, text, text_in};
use std::alloc::Global;
use toml::Table;
use ttp_base::List;
use ttp_world::{Kind, SlotPlan};

fn kind_of(letter: u8) -> Option<Kind>
    ensures { SomeIff result (IsTrue (is_kind letter)) (kind_of letter) }
{
    match letter {
        b'I' => Some(Kind::I),
        b'N' => Some(Kind::N),
        b'X' => Some(Kind::X),
        _ => None,
    }
}

// The kinds that letters spell, one for each round.
fn kinds_of(alloc: Global, k: u8, rounds: u8, letters: &[u8]) -> Result<List<Kind>, MedlError>
    ensures ok { IfOk result (λ kinds. letters_faults rounds k letters.now ≡ []) }
    ensures value { IfOk result (λ kinds. kinds ≡ map kind_of letters.now) }
    ensures err { IfErr result (λ e. IsFirst e (letters_faults rounds k letters.now)) }
{
    if letters.len() != rounds as usize {
        return Err(MedlError::Kinds { slot: k });
    }
    let mut kinds = List::new(alloc);
    for letter in letters {
        match kind_of(*letter) {
            Some(kind) => kinds.push(kind)?,
            None => return Err(MedlError::Kinds { slot: k }),
        }
    }
    Ok(kinds)
}

fn is_bare(kind: &Kind) -> bool
    ensures { result ≡ is_bare kind.now }
{
    match kind {
        Kind::I => true,
        Kind::N | Kind::X => false,
    }
}

fn are_bare(kinds: &[Kind]) -> bool
    ensures { result ≡ list_all is_bare kinds.now }
{
    kinds.iter().all(|kind| is_bare(kind))
}

// The largest payload that frames of these kinds may have.
fn payload_limit(kinds: &[Kind]) -> u8
    ensures value { result ≡ payload_limit kinds.now }
    ensures within { result ≤ 240 }
{
    if are_bare(kinds) { 0 } else { 240 }
}

// The kinds of a slot, as its table gives them.
#[tactic(auto, unfolding(crate::specs::ListFile::kinds_faults))]
fn kinds_in(alloc: Global, k: u8, rounds: u8, table: &Table) -> Result<List<Kind>, MedlError>
    ensures ok { IfOk result (λ kinds. kinds_faults rounds k (table_view table.now) ≡ []) }
    ensures value { IfOk result (λ kinds. kinds ≡ kinds_at k (table_view table.now)) }
    ensures err { IfErr result (λ e. IsFirst e (kinds_faults rounds k (table_view table.now))) }
{
    let letters = text(table, at_slot(k, FieldName::Kinds))?;
    kinds_of(alloc, k, rounds, letters.as_bytes())
}

// Whether a slot asks for modes, where its frames have so much payload.
#[tactic(auto, unfolding(crate::specs::ListFile::requests_faults))]
fn requests_in(k: u8, payload: u8, table: &Table) -> Result<bool, MedlError>
    ensures ok { IfOk result (λ requests. requests_faults k payload (table_view table.now) ≡ []) }
    ensures value { IfOk result (λ requests. requests ≡ flag_at (at_slot k names.Requests) (table_view table.now)) }
    ensures err { IfErr result (λ e. first_fault (requests_faults k payload (table_view table.now)) ≡ Some e) }
{
    let field = at_slot(k, FieldName::Requests);
    let Some(value) = member(table, field) else {
        return Ok(false);
    };
    let requests = flag_in(value, field)?;
    if requests && payload == 0 {
        return Err(MedlError::NoRequestData { slot: k });
    }
    Ok(requests)
}

fn is_answer(letter: u8) -> bool
    ensures { result ≡ is_answer letter }
{
    letter == b'y' || letter == b'n'
}

/// Whether letters answer yes or no.
pub fn are_answers(letters: &[u8]) -> bool
    ensures { result ≡ list_all is_answer letters.now }
{
    letters.iter().all(|letter| is_answer(*letter))
}

// The modes that letters name, one for each mode: bit m for letter m.
fn live_of(letters: &[u8]) -> u8
    requires { length letters.now ≤ 8 }
    ensures { result ≡ live_of letters.now }
{
    let mut live = 0;
    for m in (0..letters.len()).rev() {
        live = 2 * live + u8::from(letters[m] == b'y');
    }
    live
}

fn all_live(modes: u8) -> u8
    requires { modes ≤ 8 }
    ensures { result ≡ all_live modes }
{
    (2u16.pow(u32::from(modes)) - 1) as u8
}

// The modes in which a slot is live.
#[tactic(auto, unfolding(crate::specs::ListFile::live_faults))]
fn live_in(k: u8, modes: u8, table: &Table) -> Result<u8, MedlError>
    requires { modes ≤ 8 }
    ensures ok { IfOk result (λ live. live_faults modes k (table_view table.now) ≡ []) }
    ensures value { IfOk result (λ live. live ≡ live_at modes k (table_view table.now)) }
    ensures err { IfErr result (λ e. first_fault (live_faults modes k (table_view table.now)) ≡ Some e) }
{
    let field = at_slot(k, FieldName::Live);
    let Some(value) = member(table, field) else {
        return Ok(all_live(modes));
    };
    let letters = text_in(value, field)?.as_bytes();
    if letters.len() != modes as usize || !are_answers(letters) {
        return Err(MedlError::Live { slot: k });
    }
    Ok(live_of(letters))
}

/// The plan of a slot, as its table gives it.
#[tactic(auto, unfolding(crate::specs::ListFile::slot_faults, crate::specs::ListFile::slot_plan_of))]
pub(crate) fn slot_of(
    alloc: Global,
    k: u8,
    rounds: u8,
    modes: u8,
    table: &Table,
) -> Result<SlotPlan, MedlError>
    requires { modes ≤ 8 }
    ensures ok { IfOk result (λ plan. slot_faults rounds modes k (table_view table.now) ≡ []) }
    ensures value { IfOk result (λ plan. plan ≡ slot_plan_of modes k (table_view table.now)) }
    ensures err { IfErr result (λ e. IsFirst e (slot_faults rounds modes k (table_view table.now))) }
{
    let kinds = kinds_in(alloc, k, rounds, table)?;
    let most = payload_limit(kinds.as_slice());
    let payload = number(table, at_slot(k, FieldName::DataSize), 0, u32::from(most))? as u8;
    let sync = flag(table, at_slot(k, FieldName::Sync))?;
    let start = flag(table, at_slot(k, FieldName::Start))?;
    let requests = requests_in(k, payload, table)?;
    let live = live_in(k, modes, table)?;
    Ok(SlotPlan {
        kinds,
        payload,
        sync,
        start,
        requests,
        live,
    })
}
