//! The ten worst faults of a campaign.
#![tactic(auto)]

ghost use Rattle.std.specs.Prelude.{◌≡◌, ◌+◌, ◌≤◌, ◌<◌, [], length, get_or, IfOk, OnOk, IfSome, IsNone, drop, ◌∷◌};
ghost use Rattle.chart_text.specs.Worst.{is_worse, place_for, ten_with};
ghost use Rattle.whole_campaign.specs.Steps.{told_of};

use crate::look::{does_harm, fault_look, look_number};
use crate::size::Size;
use std::alloc::Global;
use std::marker::Model;
use ttp_base::Memory;
use whole_campaign::{FaultLine, FaultShown};

// How many faults are kept.
const MOST: usize = 10;

/// Whether one fault is worse than another.
pub(crate) fn is_worse(size: Size, one: FaultShown, other: FaultShown) -> bool
    ensures { result ≡ is_worse size one other }
{
    let look = look_number(fault_look(size, one));
    let other_look = look_number(fault_look(size, other));
    other_look < look || (other_look == look && other.hurt < one.hurt)
}

/// The worst of some faults, at most ten, the worst first. Contracts see them as a list. Memory is taken once.
#[derive(Drop)]
pub(crate) struct Worst<'a> {
    lines: Vec<FaultLine<'a>>,
}

impl<'a> Model for Worst<'a> {
    ghost use Rattle.std.specs.Prelude.{List, map, length, ◌≤◌, vec_capacity};
    ghost use Rattle.whole_campaign.specs.Whole.{FaultTold};
    ghost use Rattle.whole_campaign.specs.Steps.{told_of};

    ghost Value = { List FaultTold };

    ghost view = { λ w. map told_of w.lines.items };

    ghost invariant = { λ w. (length w.lines.items ≤ 10) × (11 ≤ vec_capacity w.lines) };
}

impl<'a> Worst<'a> {
    /// Of no faults.
    pub(crate) fn new(alloc: Global) -> Result<Worst<'a>, Memory>
        ensures { IfOk result (λ worst. worst ≡ []) }
    {
        match Vec::with_capacity(alloc, MOST + 1) {
            Ok(lines) => Ok(Worst { lines }),
            Err(_) => Err(Memory),
        }
    }

    /// How many there are.
    pub(crate) fn len(&self) -> usize
        ensures value { result ≡ length self.now }
        ensures few { result ≤ 10 }
    {
        self.lines.len()
    }

    /// The fault of this number.
    pub(crate) fn get(&self, number: usize) -> Option<FaultLine<'a>>
        ensures some { IfSome result (λ line. drop number self.now ≡ told_of line ∷ drop (number + 1) self.now) }
        ensures none { IsNone result → drop number self.now ≡ [] }
    {
        if number < self.lines.len() {
            Some(self.lines[number])
        } else {
            None
        }
    }

    // Where a fault belongs among them.
    fn place_for(&self, size: Size, fault: FaultShown) -> usize
        ensures value { result ≡ place_for size fault self.now }
        ensures within { result ≤ length self.now }
    {
        let mut place = 0;
        while place < self.lines.len() {
            if is_worse(size, fault, self.lines[place].shown) {
                return place;
            }
            place += 1;
        }
        place
    }

    /// Takes one more fault, if it is harmful and among the ten worst.
    pub(crate) fn note(&mut self, size: Size, fault: FaultLine<'a>)
        ensures { self.new ≡ ten_with size self.old (told_of fault.entry) }
    {
        if does_harm(size, fault.shown) {
            let place = self.place_for(size, fault.shown);
            if self.lines.insert(place, fault).is_ok() {
                self.lines.truncate(MOST);
            }
        }
    }
}
