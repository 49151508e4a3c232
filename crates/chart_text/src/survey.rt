//! What is asked of all faults of a campaign before any is drawn.
#![tactic(auto)]

ghost use Rattle.std.specs.Prelude.{◌≡◌, ℕ, ◌^◌, ◌<◌, [], ◌∷◌, ◌&&◌, max, List, get_or, length, Option, Some, None, if◌then◌else◌};
ghost use Rattle.std.specs.Option.{option_or};
ghost use Rattle.whole_campaign.specs.Whole.{FaultTold};
ghost use Rattle.chart_text.specs.Columns.{first_told_slot, is_hidden};
ghost use Rattle.chart_text.specs.Key.{counter_of, all_counts};
ghost use Rattle.chart_text.specs.Looks.{does_harm};
ghost use Rattle.chart_text.specs.Steps.{longest_text, marked_slots};
ghost use Rattle.chart_text.specs.Walks.{IsSurvey, AreTallies};
ghost use Rattle.chart_text.specs.Worst.{most_lost, ten_worst};
ghost use Rattle.whole_campaign.specs.Steps.{told_of};

use crate::kind::kind_number;
use crate::look::{does_harm, fault_look, look_number};
use crate::marks::has_mark;
use crate::size::Size;
use crate::tally::{Tallies, count_one};
use crate::worst::Worst;
use whole_campaign::{FaultLine, FaultShown, Faults};

/// How many faults of each kind have each look, how long the longest line is, the slot of the first one that is harmful,
/// and the most healthy nodes that a harmful one costs.
#[derive(Clone, Copy)]
pub(crate) struct Survey {
    pub(crate) counts: [u64; 252],
    pub(crate) longest: usize,
    pub(crate) harm: Option<u32>,
    pub(crate) most: u8,
}

/// A survey of all faults, and what they come to.
#[derive(Clone, Copy)]
pub(crate) struct Overview {
    pub(crate) survey: Survey,
    pub(crate) tallies: Tallies,
}

// Where a fault is counted.
fn counter_of(size: Size, fault: FaultShown) -> usize
    ensures { result ≡ counter_of size fault }
{
    9 * usize::from(kind_number(fault.doing, fault.place))
        + usize::from(look_number(fault_look(size, fault)))
}

// The slot of the first fault that is harm, where this one follows.
fn harm_behind(size: Size, before: Option<u32>, fault: FaultShown) -> Option<u32>
    ensures { result ≡ option_or before (if does_harm size fault then Some fault.slot else None) }
{
    match before {
        Some(slot) => Some(slot),
        None => {
            if does_harm(size, fault) {
                Some(fault.slot)
            } else {
                None
            }
        }
    }
}

// The most healthy nodes that a harmful fault costs, where this one follows.
fn most_behind(size: Size, before: u8, fault: FaultShown) -> u8
    ensures { result ≡ (if does_harm size fault then max before fault.hurt else before) }
{
    if does_harm(size, fault) {
        before.max(fault.hurt)
    } else {
        before
    }
}

impl Survey {
    // Of no faults.
    fn new(size: Size) -> Survey
        ensures { (all : List FaultTold) → IsSurvey size result all all }
    {
        Survey {
            counts: [0; 252],
            longest: 0,
            harm: None,
            most: 0,
        }
    }

    // Notes one fault more.
    fn note(&mut self, size: Size, fault: &FaultLine<'_>)
        requires few { (i : ℕ) → i < length self.old.counts → get_or self.old.counts i 0 < 2 ^ 63 }
        ensures { (left all : List FaultTold)
            → IsSurvey size self.old (told_of fault.now ∷ left) all → IsSurvey size self.new left all }
    {
        count_one(&mut self.counts, counter_of(size, fault.shown));
        self.longest = self.longest.max(fault.text.len());
        self.harm = harm_behind(size, self.harm, fault.shown);
        self.most = most_behind(size, self.most, fault.shown);
    }
}

/// The survey of all faults, and the ten worst of them.
pub(crate) fn survey_of<'a>(size: Size, faults: Faults<'a>, worst: &mut Worst<'a>) -> Overview
    requires few { length faults < 2 ^ 63 }
    requires none { worst.old ≡ [] }
    ensures counts { result.survey.counts ≡ all_counts size faults.entry }
    ensures longest { result.survey.longest ≡ longest_text faults.entry }
    ensures harm { result.survey.harm ≡ first_told_slot (does_harm size) faults.entry }
    ensures most { result.survey.most ≡ most_lost size faults.entry }
    ensures tallies { AreTallies size result.tallies [] faults.entry }
    ensures worst { worst.new ≡ ten_worst size faults.entry }
{
    let mut left = faults;
    let mut survey = Survey::new(size);
    let mut tallies = Tallies::new(size);
    while let Some(fault) = left.next_fault() {
        survey.note(size, &fault);
        tallies.note(size, &fault);
        worst.note(size, fault);
    }
    Overview { survey, tallies }
}

// Whether a fault is harm and its slot is not marked.
fn is_hidden_harm(size: Size, marks: &[bool], fault: FaultShown) -> bool
    ensures { result ≡ (does_harm size fault && is_hidden (marked_slots marks.now) fault) }
{
    does_harm(size, fault) && !has_mark(marks, fault.slot)
}

/// The slot of the first fault that is harm and whose slot is not marked.
pub(crate) fn first_hidden(size: Size, marks: &[bool], faults: Faults<'_>) -> Option<u32>
    ensures { result ≡ first_told_slot (λ fault. does_harm size fault && is_hidden (marked_slots marks.now) fault) faults.entry }
{
    let mut left = faults;
    while let Some(fault) = left.next_fault() {
        if is_hidden_harm(size, marks, fault.shown) {
            return Some(fault.shown.slot);
        }
    }
    None
}
