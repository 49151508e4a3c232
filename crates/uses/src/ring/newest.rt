//! One thread writes, and another reads.
ghost use Rattle.std.specs.Prelude.{◌≡◌, ◌+◌, ◌<◌, ◌≤◌, [], ◌∷◌, ◌++◌, ℕ, List, length, map, IfOk};
ghost use Rattle.nbw_ring.specs.Numbers.{most_number, IsMessageOf};
ghost use Rattle.uses.specs.declared.ring.newest.Measurement.{Measurement};
ghost use Rattle.uses.specs.Measured.{measured_words, SaysOneOf};

use nbw_ring::{Pair, Reader, Ring, Writer};
use std::alloc::Global;
use std::thread::{Threads, join};
use ttp_base::{Memory, OpenGate};

/// What was measured, and when.
#[derive(Clone, Copy)]
pub struct Measurement {
    pub value: u64,
    pub time: u64,
}

/// What the reader has of the writer.
#[derive(Clone, Copy)]
pub enum Seen {
    /// This measurement.
    Newest(Measurement),
    /// It came before the first one.
    Nothing,
    /// The writer overtook it.
    Overtaken,
}

// Writes these, one after another.
fn write_all(mut writer: Writer, measured: &[Measurement]) -> Writer
    requires width { writer.ring.shape.width ≡ 2 }
    requires room { length writer.messages + length measured.now ≤ most_number }
    ensures ring { result.ring ≡ writer.ring }
    ensures messages { result.messages ≡ writer.messages ++ map measured_words measured.now }
{
    for one in measured {
        writer.write(&[one.value, one.time], &OpenGate::new());
    }
    writer
}

// One attempt to read.
fn read_once(mut reader: Reader) -> Reader
    requires room { reader.spare ≡ 1 }
    requires none { reader.got ≡ [] }
    ensures ring { result.ring ≡ reader.ring }
    ensures few { length result.got ≤ 1 }
{
    reader.try_read(&OpenGate::new());
    reader
}

// Both at once.
fn write_and_read<R: Threads + Sync>(
    rt: &R,
    writer: Writer,
    reader: Reader,
    measured: &[Measurement],
) -> (Writer, Reader)
    requires width { writer.ring.shape.width ≡ 2 }
    requires room { length writer.messages + length measured.now ≤ most_number }
    requires reader { (reader.spare ≡ 1) × (reader.got ≡ []) }
    ensures rings { (result.0.ring ≡ writer.ring) × (result.1.ring ≡ reader.ring) }
    ensures messages { result.0.messages ≡ writer.messages ++ map measured_words measured.now }
    ensures few { length result.1.got ≤ 1 }
{
    join(rt, || write_all(writer, measured), || read_once(reader))
}

// What a pair says that is the opening message or one of the measurements.
fn seen_in(pair: &Pair) -> Seen
    ensures { (opening : List ℕ) (measured : List Measurement)
        → IsMessageOf (opening ∷ map measured_words measured) pair.now → SaysOneOf measured result }
{
    match (pair.number(), pair.words()) {
        (0, _) => Seen::Nothing,
        (_, [value, time]) => Seen::Newest(Measurement {
            value: *value,
            time: *time,
        }),
        _ => Seen::Overtaken,
    }
}

/// Writes measurements in one thread, while another thread reads once. What is answered is one of them, whole,
/// or it says that the reader has none.
pub fn newest_beside<R: Threads + Sync>(
    rt: &R,
    alloc: Global,
    measured: &[Measurement],
) -> Result<Seen, Memory>
    requires few { length measured.now < most_number }
    ensures seen { IfOk result (SaysOneOf measured.now) }
{
    let (_ring, mut writer) = Ring::new(alloc, 2, 2)?;
    let reader = writer.lend(1)?;
    let (mut writer, reader) = write_and_read(rt, writer, reader, measured);
    match writer.settle_one(reader) {
        Some(pair) => Ok(seen_in(&pair)),
        None => Ok(Seen::Overtaken),
    }
}
