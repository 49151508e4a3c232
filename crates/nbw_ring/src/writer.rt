//! The one who writes a ring.
ghost use Rattle.std.specs.Prelude.{◌≡◌, ◌+◌, ◌*◌, ◌<◌, ◌≤◌, All, length, slice_get, IfOk, OnOk, OnErr};
ghost use Rattle.nbw_ring.specs.Numbers.{most_number, newest_number, IsMessageOf};
ghost use Rattle.nbw_ring.specs.States.{new_reader, with_message, with_joined};

use crate::plays::{Begin, End, Lend};
use crate::reader::Reader;
use crate::receipts::{Pair, Receipts, first_pair, pair_up};
use crate::shared::RingWords;
use crate::steps::{Seat, join_reader, put_words};
use std::marker::Model;
use std::sync::Arc;
use ttp_base::{Gate, Memory};

/// The right to write one ring, which it holds. Contracts see which ring it is, its messages so far,
/// and what was settled.
#[derive(Drop)]
pub struct Writer {
    pub(crate) ring: Arc<RingWords>,
    pub(crate) seat: Seat,
    pub(crate) number: u64,
}

impl Model for Writer {
    ghost use Rattle.std.specs.Arc.{arc_value};
    ghost use Rattle.nbw_ring.specs.States.{WriterState};

    ghost Value = { WriterState };

    ghost use Rattle.nbw_ring.specs.Seats.{writer_state, IsAtRest};

    ghost view = { λ w. writer_state w.seat };

    ghost invariant = { λ w. IsAtRest (arc_value w.ring) w.seat w.number };
}

impl Writer {
    /// The number of its newest message.
    pub fn number(&self) -> u64
        ensures newest { result ≡ newest_number self.now.messages }
        ensures some { result + 1 ≡ length self.now.messages }
    {
        self.number
    }

    /// Writes one message more.
    pub fn write<G: Gate>(&mut self, words: &[u64], gate: &G)
        requires width { length words.now ≡ self.old.ring.shape.width }
        requires room { newest_number self.old.messages < most_number }
        ensures { self.new ≡ with_message self.old words.now }
    {
        let ring = &*self.ring;
        let cells = &ring.table.shared;
        let number = self.number + 1;
        // Loads that follow a step wait for it, so that this one comes before the first.
        let shape = ring.shape;
        gate.pass(1);
        cells.store::<Begin>(&mut self.seat, 0, 2 * number - 1);
        put_words(cells, &mut self.seat, shape, number, words, gate);
        gate.pass(3);
        cells.store::<End>(&mut self.seat, 0, 2 * number);
        self.number = number;
    }

    /// A new reader with room for so many messages, none of them older than the newest. It takes memory for
    /// these; where that is refused, the writer is as it was.
    pub fn lend(&mut self, reads: usize) -> Result<Reader, Memory>
        ensures reader { IfOk result (λ r. r ≡ new_reader self.old reads) }
        ensures writer { self.new ≡ self.old }
    {
        let held = Arc::try_clone(&self.ring)?;
        let ring = &*self.ring;
        let (alloc, width) = (ring.alloc, ring.shape.width);
        let Some(room) = reads.checked_mul(width) else {
            return Err(Memory);
        };
        let numbers = Vec::with_capacity(alloc, reads)?;
        let words = Vec::with_capacity(alloc, room)?;
        let seat = ring.table.shared.split_seat::<Lend>(&mut self.seat);
        Ok(Reader {
            ring: held,
            seat,
            numbers,
            words,
            width,
            spare: reads,
        })
    }

    /// Takes a reader of the ring back, and hands out the pairs that it got: each is the message of its
    /// number. Where memory is refused, nothing is joined.
    pub fn settle(&mut self, reader: Reader) -> Result<Receipts, Memory>
        requires own { reader.ring ≡ self.old.ring }
        ensures pairs { IfOk result (λ r. r ≡ reader.got) }
        ensures whole { OnOk result (All (IsMessageOf self.old.messages) reader.got) }
        ensures seen { OnOk result (reader.seen ≤ 2 * newest_number self.old.messages) }
        ensures joined { OnOk result (self.new ≡ with_joined self.old reader) }
        ensures err { OnErr result (self.new ≡ self.old) }
    {
        let Reader {
            seat,
            numbers,
            words,
            width,
            ..
        } = reader;
        let ring = &*self.ring;
        let receipts = pair_up(ring.alloc, &numbers, &words, width)?;
        join_reader(&ring.table.shared, &mut self.seat, seat);
        Ok(receipts)
    }

    /// The same of a reader that got at most one pair, which is the answer, if there is one. It takes no memory.
    pub fn settle_one(&mut self, reader: Reader) -> Option<Pair>
        requires own { reader.ring ≡ self.old.ring }
        requires few { length reader.got ≤ 1 }
        ensures pair { result ≡ slice_get reader.got 0 }
        ensures whole { All (IsMessageOf self.old.messages) reader.got }
        ensures seen { reader.seen ≤ 2 * newest_number self.old.messages }
        ensures joined { self.new ≡ with_joined self.old reader }
    {
        let Reader {
            seat,
            numbers,
            words,
            ..
        } = reader;
        join_reader(&self.ring.table.shared, &mut self.seat, seat);
        first_pair(&numbers, words)
    }
}
