//! The numbers of lines, from the bytes of a file.
ghost use Rattle.std.specs.Prelude.{◌≡◌, ◌<◌, ◌≤◌, ℕ, length, vec_len, slice_index, IfOk, OnOk, if◌then◌else◌};
ghost use Rattle.script_text.specs.Lines.{words_of_line};
ghost use Rattle.line_numbers.specs.Numbers.{is_of_node, line_numbers_in};
ghost use Rattle.line_numbers.specs.SoFar.{KeepsLine, IsEmpty};

use crate::words::{LineKind, line_kind};
use causes::LineNumbers;
use script_text::{cut_first_word, decimal_value, next_line};
use std::alloc::Global;
use ttp_base::{List, Memory};

/// The numbers of the lines so far.
#[derive(Drop)]
pub struct SoFar {
    pub on: Vec<u32>,
    pub drift: Vec<u32>,
    pub events: List<u32>,
}

// Keeps the number of a line for the node that a word names, if there is one.
fn keep(numbers: &mut Vec<u32>, word: &[u8], number: u32)
    ensures count { vec_len numbers.new ≡ vec_len numbers.old }
    ensures numbers { (k : ℕ) → k < vec_len numbers.old → slice_index numbers.new.items k
        ≡ (if is_of_node k word.now then number else slice_index numbers.old.items k) }
{
    let Some(node) = decimal_value(word) else {
        return;
    };
    if (node as usize) < numbers.len() {
        numbers[node as usize] = number;
    }
}

impl SoFar {
    // No line so far, for so many nodes.
    fn new(alloc: Global, nodes: u8) -> Result<SoFar, Memory>
        ensures { IfOk result (IsEmpty nodes) }
    {
        Ok(SoFar {
            on: vec![in alloc; 0; nodes as usize]?,
            drift: vec![in alloc; 0; nodes as usize]?,
            events: List::new(alloc),
        })
    }

    // One line more, of this number.
    fn take(&mut self, number: u32, line: &[u8]) -> Result<(), Memory>
        ensures { OnOk result (KeepsLine number (words_of_line line.now) self.old self.new) }
    {
        let first = cut_first_word(line);
        match line_kind(first.piece) {
            LineKind::On => keep(&mut self.on, cut_first_word(first.rest).piece, number),
            LineKind::Drift => keep(&mut self.drift, cut_first_word(first.rest).piece, number),
            LineKind::Event => self.events.push(number)?,
            LineKind::Other => {}
        }
        Ok(())
    }
}

/// The numbers of the lines of a file, counted from 1: of the last `on` and of the last `drift` line of each of so many nodes,
/// 0 where there is none, and of each line that states an event, in the order of the file.
///
/// # Errors
///
/// Where memory was refused.
#[tactic(auto, unfolding(crate::specs::Numbers::line_numbers_in))]
pub fn line_numbers(alloc: Global, nodes: u8, bytes: &[u8]) -> Result<LineNumbers, Memory>
    requires { length bytes.now ≤ 1048576 }
    ensures { IfOk result (λ numbers. numbers ≡ line_numbers_in nodes bytes.now) }
{
    let mut so_far = SoFar::new(alloc, nodes)?;
    let mut rest = bytes;
    let mut number: u32 = 1;
    while let Some(cut) = next_line(rest) {
        so_far.take(number, cut.piece)?;
        rest = cut.rest;
        number += 1;
    }
    let SoFar { on, drift, events } = so_far;
    Ok(LineNumbers {
        on: List::from_vec(on),
        drift: List::from_vec(drift),
        events,
    })
}
