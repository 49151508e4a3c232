//! The deviations that were noted.
ghost use Rattle.std.specs.Prelude.{◌≡◌, ◌≤◌, ◌↔◌, [], ◌∷◌, IsTrue, length, take};
ghost use Rattle.ttp_world.specs.Clock.{fta};
ghost use Rattle.node_parts.specs.Notes.{kept_notes, IsDeviation, IsAverage, LiesBetween};

use crate::fta_sync::middle::middle_half;
use std::marker::Model;

/// The deviations that were noted since the last `clear`, in microticks.
///
/// Contracts see it as the list of the last four of them, or of all where there are fewer, the newest
/// first.
#[derive(Drop)]
pub struct Measures {
    newest: i64,
    second: i64,
    third: i64,
    fourth: i64,
    // How many of the four places hold a note: all four where more were noted.
    count: u8,
}

impl Model for Measures {
    ghost use Rattle.std.specs.Prelude.{List, [], ◌∷◌, ℤ, take};
    ghost use Rattle.node_parts.specs.Notes.{AreKept};

    ghost Value = { List ℤ };

    ghost view = { λ m. take m.count (m.newest ∷ m.second ∷ m.third ∷ m.fourth ∷ []) };

    ghost invariant = { λ m. AreKept m.count m.newest m.second m.third m.fourth };
}

impl Measures {
    /// Nothing noted.
    pub fn new() -> Measures
        ensures { result ≡ [] }
    {
        Measures {
            newest: 0,
            second: 0,
            third: 0,
            fourth: 0,
            count: 0,
        }
    }

    /// The same notes once more.
    pub fn copy(&self) -> Measures
        ensures { result ≡ self.now }
    {
        Measures {
            newest: self.newest,
            second: self.second,
            third: self.third,
            fourth: self.fourth,
            count: self.count,
        }
    }

    /// Notes one deviation more.
    pub fn note(&mut self, deviation: i64)
        requires { IsDeviation deviation }
        ensures { self.new ≡ take kept_notes (deviation ∷ self.old) }
    {
        self.fourth = self.third;
        self.third = self.second;
        self.second = self.newest;
        self.newest = deviation;
        self.count = (self.count + 1).min(4);
    }

    /// Whether four or more were noted.
    pub fn ready(&self) -> bool
        ensures { IsTrue result ↔ (kept_notes ≤ length self.now) }
    {
        self.count == 4
    }

    /// What the clock is corrected by: the average of all that was noted, which is 0 where fewer than
    /// four were. Where three of the last four lie between two numbers, so does it.
    pub fn correction(&self) -> i64
        ensures value { result ≡ fta self.now }
        ensures average { IsAverage self.now result }
        ensures between { LiesBetween self.now result }
        ensures within { IsDeviation result }
    {
        if self.count < 4 {
            0
        } else {
            middle_half(self.newest, self.second, self.third, self.fourth)
        }
    }

    /// Forgets all notes.
    pub fn clear(&mut self)
        ensures { self.new ≡ [] }
    {
        self.count = 0;
    }
}
