//! The one who reads a ring.
ghost use Rattle.std.specs.Prelude.{◌≡◌, ◌+◌, ◌-◌, ◌*◌, ◌/◌, ◌<◌, ◌≤◌, length, slice_get, IsSomeAnd};
ghost use Rattle.nbw_ring.specs.Attempts.{number_answered, attempt_steps, RepeatSteps, Gets, OnGot, OnOverrun};

use crate::plays::{FirstLoad, LastLoad};
use crate::shared::RingWords;
use crate::steps::{Seat, load_words};
use std::marker::Model;
use std::sync::{Arc, Wait};
use ttp_base::Gate;

/// A right to read one ring, which it holds, with room for so many messages. It may go to another
/// thread.
///
/// Contracts see which ring it is, its floor, the counters that it loaded, how many attempts it began,
/// and the pairs that it got.
#[derive(Drop)]
pub struct Reader {
    pub(crate) ring: Arc<RingWords>,
    pub(crate) seat: Seat,
    // The numbers of the pairs, and their words, pair after pair.
    pub(crate) numbers: Vec<u64>,
    pub(crate) words: Vec<u64>,
    pub(crate) width: usize,
    pub(crate) spare: usize,
}

/// What an attempt to read answers.
#[derive(Clone, Copy, PartialEq, Eq)]
pub enum Try {
    /// The message of this number was got.
    Got { number: u64 },
    /// The writer overtook the reader: the counter was `begin` at the first load and `end` at the last.
    Overrun { number: u64, begin: u64, end: u64 },
}

impl Model for Reader {
    ghost use Rattle.nbw_ring.specs.States.{ReaderState};

    ghost Value = { ReaderState };

    ghost use Rattle.nbw_ring.specs.Seats.{reader_state};
    ghost use Rattle.nbw_ring.specs.Shelves.{IsShelved};

    ghost view = { λ r. reader_state r.seat r.spare };

    ghost invariant = { IsShelved };
}

impl Reader {
    /// For how many more messages it has room.
    pub fn spare(&self) -> usize
        ensures { result ≡ self.now.spare }
    {
        self.spare
    }

    /// How many buffers its ring has.
    pub fn buffers(&self) -> usize
        ensures { result ≡ self.now.ring.shape.buffers }
    {
        self.ring.shape.buffers
    }

    /// The words of the newest message that it got.
    pub fn words(&self) -> &[u64]
        requires { 0 < length self.now.got }
        ensures { let newest = slice_get self.now.got (length self.now.got - 1) in
            IsSomeAnd newest (λ pair. pair.words ≡ result.now) }
    {
        &self.words[self.words.len() - self.width..]
    }

    /// One attempt to read the newest message.
    pub fn try_read<G: Gate>(&mut self, gate: &G) -> Try
        requires room { 1 ≤ self.old.spare }
        ensures ring { self.new.ring ≡ self.old.ring }
        ensures tries { self.new.tries ≡ self.old.tries + 1 }
        ensures steps { self.new.steps ≡ self.old.steps + attempt_steps self.new }
        ensures later { self.old.seen ≤ self.new.first }
        ensures forward { self.new.first ≤ self.new.seen }
        ensures number { number_answered result ≡ self.new.first / 2 }
        ensures floor { self.old.floor ≤ number_answered result }
        ensures got { OnGot self.old self.new result }
        ensures overrun { OnOverrun self.old self.new result }
    {
        let ring = &*self.ring;
        let (cells, shape) = (&ring.table.shared, ring.shape);
        gate.pass(4);
        let begin = cells.load::<FirstLoad>(&mut self.seat, 0);
        let number = begin / 2;
        let limit = 2 * (number + shape.buffers as u64) - 1;
        if begin >= limit {
            let end = begin;
            return Try::Overrun { number, begin, end };
        }
        let kept = self.words.len();
        load_words(cells, &mut self.seat, shape, number, &mut self.words, gate);
        gate.pass(6);
        let end = cells.load::<LastLoad>(&mut self.seat, 0);
        if end >= limit {
            self.words.truncate(kept);
            return Try::Overrun { number, begin, end };
        }
        self.numbers.push_reserved(number);
        self.spare -= 1;
        Try::Got { number }
    }

    /// Attempts to read until a message is got, and answers its number.
    pub fn read<R: Wait, G: Gate>(&mut self, rt: &R, gate: &G) -> u64
        requires room { 1 ≤ self.old.spare }
        ensures ring { self.new.ring ≡ self.old.ring }
        ensures tries { self.old.tries < self.new.tries }
        ensures steps { RepeatSteps self.old self.new }
        ensures later { self.old.seen ≤ self.new.first }
        ensures forward { self.new.first ≤ self.new.seen }
        ensures number { result ≡ self.new.first / 2 }
        ensures floor { self.old.floor ≤ result }
        ensures got { Gets self.old self.new result }
    {
        for _ in rt.forever() {
            if let Try::Got { number } = self.try_read(gate) {
                return number;
            }
        }
        unreachable!()
    }
}
