//! The faults of a campaign that are still to come, and the first of them.
#![tactic(auto)]

ghost use Rattle.std.specs.Prelude.{◌≡◌, ◌++◌, [], ◌∷◌, IfSome, IsNone, drop, length};
ghost use Rattle.whole_campaign.specs.Steps.{told_of};

use std::marker::Model;
use whole_campaign::{FaultLine, Faults};

/// The faults that are still to come. Contracts see it as the list of them.
#[derive(Drop)]
pub(crate) struct Ahead<'a> {
    first: Option<FaultLine<'a>>,
    rest: Faults<'a>,
}

impl<'a> Model for Ahead<'a> {
    ghost use Rattle.std.specs.Prelude.{List};
    ghost use Rattle.whole_campaign.specs.Whole.{FaultTold};
    ghost use Rattle.chart_text.specs.Walks.{told_ahead};

    ghost Value = { List FaultTold };

    ghost view = { λ a. told_ahead a.first a.rest };
}

impl<'a> Ahead<'a> {
    /// All of these.
    pub(crate) fn new(faults: Faults<'a>) -> Ahead<'a>
        ensures { result ≡ faults.entry }
    {
        let mut rest = faults;
        let first = rest.next_fault();
        Ahead { first, rest }
    }

    /// The faults that are still to come, for a second walk from here on.
    pub(crate) fn again(&self) -> Ahead<'a>
        ensures { result ≡ self.now }
    {
        Ahead {
            first: self.first,
            rest: self.rest.again(),
        }
    }

    /// The next fault, which stays.
    pub(crate) fn first(&self) -> Option<FaultLine<'a>>
        ensures some { IfSome result (λ line. self.now ≡ told_of line ∷ drop 1 self.now) }
        ensures none { IsNone result → self.now ≡ [] }
    {
        self.first
    }

    /// Goes on behind it.
    pub(crate) fn pass(&mut self)
        ensures { self.new ≡ drop 1 self.old }
    {
        if self.first.is_none() {
            return;
        }
        self.first = self.rest.next_fault();
    }
}
