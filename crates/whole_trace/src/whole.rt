//! A trace as a whole.
ghost use Rattle.std.specs.Prelude.{◌≡◌, ◌≤◌, length};
ghost use Rattle.whole_trace.specs.Whole.{whole_in};

use crate::alike::Alike;
use crate::due::{Due, Outline, ending};
use crate::place::{Place, Step};
use crate::shown::Head;
use crate::slots::Slots;
use std::marker::Model;
use ttp_world::{Back, Keep};

/// A text that is a trace, which contracts see as the trace's first line, its slots and its last lines.
///
/// It keeps the text, and goes over it again for its slots.
#[derive(Drop)]
pub struct Whole<'a> {
    text: &'a [u8],
    outline: Outline,
}

impl<'a> Model for Whole<'a> {
    ghost use Rattle.std.specs.Prelude.{◌≡◌, Ok, IsTrue};
    ghost use Rattle.ttp_base.specs.Text.{lines_of};
    ghost use Rattle.whole_trace.specs.declared.due.Due.TheVariants as due;
    ghost use Rattle.whole_trace.specs.Due.{is_head};
    ghost use Rattle.whole_trace.specs.Whole.{WholeTrace, judged, with_slots};

    ghost Value = { WholeTrace };

    ghost view = { λ w. with_slots (lines_of w.text.now) w.outline };

    ghost invariant = { λ w. (judged due.First (lines_of w.text.now) ≡ Ok w.outline) × IsTrue (is_head w.outline.head) };
}

impl<'a> Whole<'a> {
    /// What the first line says.
    #[tactic(auto, using(crate::proofs::Heads::few_nodes, crate::proofs::Heads::few_slots))]
    pub fn head(&self) -> Head
        ensures value { result ≡ self.now.head }
        ensures slots { length self.now.slots ≡ result.slots }
        ensures some { (1 ≤ result.slots) × (result.slots ≤ 20000) }
        ensures nodes { (4 ≤ result.nodes) × (result.nodes ≤ 24) }
    {
        self.outline.head
    }

    /// The slots, the oldest one first. They are read from the text again. Takes no memory.
    pub fn slots(&self) -> Slots<'a>
        ensures { result ≡ self.now.slots }
    {
        let start = Place {
            due: Due::First,
            rest: self.text,
        };
        match start.next() {
            Some(Step { behind, .. }) => Slots::starting(behind),
            None => unreachable!(),
        }
    }

    /// The answer of the hypothesis test.
    pub fn keep(&self) -> Keep
        ensures { result ≡ self.now.keep }
    {
        self.outline.keep
    }

    /// Whether each armed node is guaranteed its place, where the trace says it.
    pub fn back(&self) -> Option<Back>
        ensures { result ≡ self.now.back }
    {
        self.outline.back
    }
}

/// The trace that a text is. `Err` is the number, counted from 1, of the first line that is not the one that
/// is due behind the lines before it, is missing or one too many, or has no line feed.
///
/// Whether the trace is right is not asked. The text is gone over once, and no memory is taken.
pub fn read_whole<'a>(text: &'a [u8]) -> Result<Whole<'a>, u64>
    ensures { result ≡ whole_in text.now }
{
    let mut at = Place {
        due: Due::First,
        rest: text,
    };
    let mut alike = Alike::new();
    let mut passed: u64 = 0;
    while !at.rest.is_empty() {
        match at.behind_next(&mut alike) {
            Some(behind) => at = behind,
            None => return Err(passed + 1),
        }
        passed += 1;
    }
    match ending(at.due) {
        Some(outline) => Ok(Whole { text, outline }),
        None => Err(passed + 1),
    }
}
