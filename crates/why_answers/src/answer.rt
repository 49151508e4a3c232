//! The answer.
ghost use Rattle.std.specs.Prelude.{◌≡◌, ◌≤◌, ◌<◌, [], ◌∷◌, length, IfOk};
ghost use Rattle.ttp_world.specs.Medl.{IsValid};
ghost use Rattle.ttp_world.specs.Script.{IsValidScript};
ghost use Rattle.why_answers.specs.Answer.{answer_of_node, answer_of_slot, why_answer, why_answered};

use crate::departures::departure_slot;
use crate::notices::{no_node_line, no_slot_line, stays_line};
use crate::told::lines_on_entry;
use std::alloc::Global;
use ttp_base::{GrowingText, List, Memory};
use ttp_world::{Medl, Script};

/// A status, and the lines that are due with it, each with its line feed.
#[derive(Drop)]
pub struct WhyAnswer {
    pub status: u8,
    pub lines: List<GrowingText>,
}

// One line, with its status.
fn said(alloc: Global, status: u8, line: GrowingText) -> Result<WhyAnswer, Memory>
    ensures { IfOk result (λ answer. answer ≡ why_answered status (line ∷ [])) }
{
    let mut lines = List::new(alloc);
    lines.push(line)?;
    Ok(WhyAnswer { status, lines })
}

// Of a slot of the run.
fn answer_of_slot(
    alloc: Global,
    list: &Medl,
    script: &Script,
    bytes: &[u8],
    node: u8,
    slot: u32,
) -> Result<WhyAnswer, Memory>
    requires valid { IsValid list.now }
    requires script { IsValidScript list.now script.now }
    requires bytes { length bytes.now ≤ 1048576 }
    requires node { node < length list.now.slots }
    requires slot { slot < script.now.slots }
    ensures { IfOk result (λ answer. answer ≡ answer_of_slot list.now script.now bytes.now node slot) }
{
    let lines = lines_on_entry(alloc, list, script, bytes, node, slot)?;
    Ok(WhyAnswer { status: 0, lines })
}

// Of a node of the list.
fn answer_of_node(
    alloc: Global,
    list: &Medl,
    script: &Script,
    bytes: &[u8],
    node: u8,
    slot: Option<u32>,
) -> Result<WhyAnswer, Memory>
    requires valid { IsValid list.now }
    requires script { IsValidScript list.now script.now }
    requires bytes { length bytes.now ≤ 1048576 }
    requires node { node < length list.now.slots }
    ensures { IfOk result (λ answer. answer ≡ answer_of_node list.now script.now bytes.now node slot) }
{
    if let Some(slot) = slot {
        if slot < script.slots {
            return answer_of_slot(alloc, list, script, bytes, node, slot);
        }
        return said(alloc, 4, no_slot_line(alloc, script)?);
    }
    match departure_slot(alloc, list, script, node)? {
        Some(slot) => answer_of_slot(alloc, list, script, bytes, node, slot),
        None => said(alloc, 1, stays_line(alloc, node)?),
    }
}

/// How the entry of a node in a slot of the run of a script came about, or its newest departure; the bytes are those that the
/// script was read from.
///
/// # Errors
///
/// Where memory was refused.
pub fn why_answer(
    alloc: Global,
    list: &Medl,
    script: &Script,
    bytes: &[u8],
    node: u32,
    slot: Option<u32>,
) -> Result<WhyAnswer, Memory>
    requires valid { IsValid list.now }
    requires script { IsValidScript list.now script.now }
    requires bytes { length bytes.now ≤ 1048576 }
    ensures { IfOk result (λ answer. answer ≡ why_answer list.now script.now bytes.now node slot) }
{
    if node < u32::from(list.nodes()) {
        return answer_of_node(alloc, list, script, bytes, node as u8, slot);
    }
    said(alloc, 3, no_node_line(alloc, list)?)
}
