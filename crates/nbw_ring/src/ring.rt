//! A ring.
ghost use Rattle.std.specs.Prelude.{◌≡◌, ◌+◌, ◌*◌, ◌/◌, ◌<◌, ◌≤◌, All, length, IfOk, OnOk, OnErr};
ghost use Rattle.std.specs.Prelude.{slice_get};
ghost use Rattle.nbw_ring.specs.Numbers.{most_number, newest_number, IsMessageOf};
ghost use Rattle.nbw_ring.specs.States.{new_writer, new_reader, with_message, with_joined};
ghost use Rattle.nbw_ring.specs.Attempts.{number_answered, attempt_steps, RepeatSteps, Gets, OnGot, OnOverrun};

use crate::reader::{Reader, Try};
use crate::receipts::{Pair, Receipts};
use crate::shared::RingWords;
use crate::view::Shape;
use crate::writer::Writer;
use atomic_table::Table;
use std::alloc::Global;
use std::marker::Model;
use std::sync::{Arc, Wait};
use ttp_base::{Gate, Memory};

/// A ring, which threads share by reference. Contracts see which ring it is, and its shape.
///
/// Its writer and its readers hold the ring too, and have the same calls, which ask nothing of whose
/// they are.
#[derive(Drop)]
pub struct Ring {
    words: Arc<RingWords>,
}

impl Model for Ring {
    ghost use Rattle.std.specs.Arc.{arc_value};
    ghost use Rattle.nbw_ring.specs.States.{RingState};

    ghost Value = { RingState };

    ghost view = { λ r. arc_value r.words };
}

impl Ring {
    /// A ring of messages of `width` words in so many buffers, with the one who writes it. Its opening
    /// message, number 0, has zeros. `Memory` where memory was refused.
    pub fn new(alloc: Global, width: usize, buffers: usize) -> Result<(Ring, Writer), Memory>
        requires width { (0 < width) × (width ≤ 32) }
        requires buffers { (0 < buffers) × (buffers ≤ 16) }
        ensures shape { IfOk result (λ r. r.0.shape ≡ record { width = width; buffers = buffers }) }
        ensures writer { IfOk result (λ r. r.1 ≡ new_writer r.0) }
    {
        let shape = Shape { width, buffers };
        let zeros = vec![in alloc; 0u64; 1 + buffers * width]?;
        let (table, seat) = Table::of_words(alloc, zeros.as_slice(), &shape)?;
        let Ok(words) = Arc::new(
            alloc,
            RingWords {
                table,
                shape,
                alloc,
            },
        ) else {
            return Err(Memory);
        };
        let ring = Arc::try_clone(&words)?;
        Ok((
            Ring { words },
            Writer {
                ring,
                seat,
                number: 0,
            },
        ))
    }

    /// Writes one message more.
    pub fn write<G: Gate>(&self, writer: &mut Writer, words: &[u64], gate: &G)
        requires own { writer.old.ring ≡ self.now }
        requires width { length words.now ≡ self.now.shape.width }
        requires room { newest_number writer.old.messages < most_number }
        ensures { writer.new ≡ with_message writer.old words.now }
    {
        writer.write(words, gate);
    }

    /// A new reader with room for so many messages, none of them older than the writer's newest. It takes memory
    /// for these; where that is refused, the writer is as it was.
    pub fn lend(&self, writer: &mut Writer, reads: usize) -> Result<Reader, Memory>
        requires own { writer.old.ring ≡ self.now }
        ensures reader { IfOk result (λ r. r ≡ new_reader writer.old reads) }
        ensures writer { writer.new ≡ writer.old }
    {
        writer.lend(reads)
    }

    /// One attempt to read the newest message.
    pub fn try_read<G: Gate>(&self, reader: &mut Reader, gate: &G) -> Try
        requires own { reader.old.ring ≡ self.now }
        requires room { 1 ≤ reader.old.spare }
        ensures ring { reader.new.ring ≡ reader.old.ring }
        ensures tries { reader.new.tries ≡ reader.old.tries + 1 }
        ensures steps { reader.new.steps ≡ reader.old.steps + attempt_steps reader.new }
        ensures later { reader.old.seen ≤ reader.new.first }
        ensures forward { reader.new.first ≤ reader.new.seen }
        ensures number { number_answered result ≡ reader.new.first / 2 }
        ensures floor { reader.old.floor ≤ number_answered result }
        ensures got { OnGot reader.old reader.new result }
        ensures overrun { OnOverrun reader.old reader.new result }
    {
        reader.try_read(gate)
    }

    /// Attempts to read until a message is got, and answers its number.
    pub fn read<R: Wait, G: Gate>(&self, rt: &R, reader: &mut Reader, gate: &G) -> u64
        requires own { reader.old.ring ≡ self.now }
        requires room { 1 ≤ reader.old.spare }
        ensures ring { reader.new.ring ≡ reader.old.ring }
        ensures tries { reader.old.tries < reader.new.tries }
        ensures steps { RepeatSteps reader.old reader.new }
        ensures later { reader.old.seen ≤ reader.new.first }
        ensures forward { reader.new.first ≤ reader.new.seen }
        ensures number { result ≡ reader.new.first / 2 }
        ensures floor { reader.old.floor ≤ result }
        ensures got { Gets reader.old reader.new result }
    {
        reader.read(rt, gate)
    }

    /// Takes a reader back, and hands out the pairs that it got: each is the writer's message of its
    /// number. Where memory is refused, nothing is joined in the writer.
    pub fn settle(&self, writer: &mut Writer, reader: Reader) -> Result<Receipts, Memory>
        requires own { (writer.old.ring ≡ self.now) × (reader.ring ≡ self.now) }
        ensures pairs { IfOk result (λ r. r ≡ reader.got) }
        ensures whole { OnOk result (All (IsMessageOf writer.old.messages) reader.got) }
        ensures seen { OnOk result (reader.seen ≤ 2 * newest_number writer.old.messages) }
        ensures joined { OnOk result (writer.new ≡ with_joined writer.old reader) }
        ensures err { OnErr result (writer.new ≡ writer.old) }
    {
        writer.settle(reader)
    }

    /// The same of a reader that got at most one pair, which is the answer, if there is one. It takes no memory.
    pub fn settle_one(&self, writer: &mut Writer, reader: Reader) -> Option<Pair>
        requires own { (writer.old.ring ≡ self.now) × (reader.ring ≡ self.now) }
        requires few { length reader.got ≤ 1 }
        ensures pair { result ≡ slice_get reader.got 0 }
        ensures whole { All (IsMessageOf writer.old.messages) reader.got }
        ensures seen { reader.seen ≤ 2 * newest_number writer.old.messages }
        ensures joined { writer.new ≡ with_joined writer.old reader }
    {
        writer.settle_one(reader)
    }
}
