//! What came of some faults, counted: of all of them, and of those of each node.
#![tactic(auto)]

ghost use Rattle.std.specs.Prelude.{◌≡◌, ℕ, ◌+◌, ◌^◌, ◌<◌, ◌≤◌, ◌∷◌, List, get_or, length, Option, Some, ◌==◌, if◌then◌else◌};
ghost use Rattle.std.specs.Option.{option_or};
ghost use Rattle.whole_campaign.specs.Due.{as_count};
ghost use Rattle.whole_campaign.specs.Whole.{FaultTold};
ghost use Rattle.chart_text.specs.Walks.{IsTally, AreTallies, CanNote, tally_of, no_tally};
ghost use Rattle.chart_text.specs.Worst.{worst_with};
ghost use Rattle.whole_campaign.specs.Steps.{told_of};

use crate::look::{does_harm, fault_look, look_number};
use crate::size::Size;
use crate::worst::is_worse;
use whole_campaign::{Doing, FaultLine, FaultShown};

/// How many faults there were, how many have each look, how many are harmful, what the first of them does, and the worst.
#[derive(Clone, Copy)]
pub(crate) struct Tally {
    pub(crate) counts: [u64; 9],
    pub(crate) many: u64,
    pub(crate) harmful: u64,
    pub(crate) first: Option<Doing>,
    pub(crate) worst: Option<FaultShown>,
}

/// A tally of all faults, and one of those of each node that there can be.
#[derive(Clone, Copy)]
pub(crate) struct Tallies {
    pub(crate) all: Tally,
    pub(crate) nodes: [Tally; 24],
}

/// Counts one more of this number, if there is a count for it.
pub(crate) fn count_one(counts: &mut [u64], number: usize)
    requires { get_or counts.old number 0 < 2 ^ 63 }
    ensures { (i : ℕ) → i < length counts.old
        → get_or counts.new i 0 ≡ get_or counts.old i 0 + as_count (number == i) }
{
    if number < counts.len() {
        counts[number] += 1;
    }
}

// One more where this is so.
fn one_more(count: u64, is: bool) -> u64
    requires { count < 2 ^ 63 }
    ensures { result ≡ count + as_count is }
{
    if is { count + 1 } else { count }
}

// The worst so far, where this fault follows.
fn worst_with(size: Size, worst: Option<FaultShown>, fault: FaultShown) -> Option<FaultShown>
    ensures { (text : List ℕ) → result ≡ worst_with size worst (record { shown = fault; text = text }) }
{
    match worst {
        None => Some(fault),
        Some(before) => {
            if is_worse(size, fault, before) {
                Some(fault)
            } else {
                Some(before)
            }
        }
    }
}

// What the first fault does, where this one follows.
fn first_with(first: Option<Doing>, doing: Doing) -> Option<Doing>
    ensures { result ≡ option_or first (Some doing) }
{
    match first {
        Some(before) => Some(before),
        None => Some(doing),
    }
}

impl Tally {
    /// Of no faults.
    pub(crate) fn new() -> Tally
        ensures { result ≡ no_tally }
    {
        Tally {
            counts: [0; 9],
            many: 0,
            harmful: 0,
            first: None,
            worst: None,
        }
    }

    /// Counts one fault more.
    pub(crate) fn note(&mut self, size: Size, fault: FaultShown)
        requires { CanNote self.old }
        ensures { (text : List ℕ) (left all : List FaultTold)
            → IsTally size self.old (record { shown = fault; text = text } ∷ left) all → IsTally size self.new left all }
    {
        let look = fault_look(size, fault);
        count_one(&mut self.counts, usize::from(look_number(look)));
        self.many += 1;
        self.harmful = one_more(self.harmful, does_harm(size, fault));
        self.first = first_with(self.first, fault.doing);
        self.worst = worst_with(size, self.worst, fault);
    }
}

impl Tallies {
    /// Of no faults.
    pub(crate) fn new(size: Size) -> Tallies
        ensures { (all : List FaultTold) → AreTallies size result all all }
    {
        Tallies {
            all: Tally::new(),
            nodes: [Tally::new(); 24],
        }
    }

    /// Counts one fault more.
    pub(crate) fn note(&mut self, size: Size, fault: &FaultLine<'_>)
        requires all { CanNote self.old.all }
        requires each { (k : ℕ) → k < 24 → CanNote (tally_of self.old.nodes k) }
        ensures { (left all : List FaultTold)
            → AreTallies size self.old (told_of fault.now ∷ left) all → AreTallies size self.new left all }
    {
        let node = usize::from(fault.shown.node);
        self.all.note(size, fault.shown);
        if node < self.nodes.len() {
            let mut tally = self.nodes[node];
            tally.note(size, fault.shown);
            self.nodes[node] = tally;
        }
    }
}
