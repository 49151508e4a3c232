//! How the readers of a slot are settled, and their pairs become lines.
ghost use Rattle.std.specs.Prelude.{◌≡◌, ◌≢◌, ◌+◌, ◌≤◌, ◌<◌, ℕ, [], ◌∷◌, length, map, get_or, All};
ghost use Rattle.std.specs.Prelude.{vec_len, vec_capacity, option_map, IfOk, IfSome, IsSome, OnOk, OnErr};
ghost use Rattle.ttp_world.specs.declared.script.Source.{Source};
ghost use Rattle.host_port.specs.Rings.{at_source, IsControllerEndOf};
ghost use Rattle.host_port.specs.Reading.{AreReadersOf, AreReadersOfEnd, AreTheirRings, IsItsRing, rings_read, settled};
ghost use Rattle.host_port.specs.Reading.{all_settled, HaveSomeSettled, IsReaderSettled, got_of, pairs_from};
ghost use Rattle.std.specs.Vec.Iter.{into_iter_items};
ghost use Rattle.host_port.specs.Queues.{pairs_at, queue_at, AreQueued};

use crate::ends::ControllerEnd;
use crate::port::Port;
use crate::reading::HostReaders;
use crate::report::ReadLine;
use crate::source::source_place;
use nbw_ring::{Pair, Reader, Writer};
use std::alloc::Global;
use std::vec::IntoIter;
use ttp_base::{List, Memory};
use ttp_world::Source;

// Joins a reader in its ring's writer, and hands out the pairs that it got.
fn settle_one(
    alloc: Global,
    writer: &mut Option<Writer>,
    reader: Option<Reader>,
) -> Result<IntoIter<Pair>, Memory>
    requires { IsItsRing (option_map (λ w. w.ring) writer.old) (option_map (λ r. r.ring) reader) }
    ensures pairs { IfOk result (λ pairs. into_iter_items pairs ≡ got_of reader) }
    ensures whole { OnOk result (IsReaderSettled writer.old reader) }
    ensures settled { OnOk result (writer.new ≡ settled writer.old reader) }
    ensures err { OnErr result (writer.new ≡ writer.old) }
    ensures cause { OnErr result (IsSome reader) }
{
    if let Some(writer) = writer {
        if let Some(reader) = reader {
            return Ok(writer.settle(reader)?.into_pairs().into_vec().into_iter());
        }
    }
    Ok(Vec::new(alloc).into_iter())
}

// Joins all readers, each in its ring's writer, one after another.
fn settle_all(
    alloc: Global,
    writers: &mut [Option<Writer>],
    mut readers: Vec<Option<Reader>>,
) -> Result<Vec<IntoIter<Pair>>, Memory>
    requires { AreTheirRings (map (option_map (λ w. w.ring)) writers.old) (rings_read readers.items) }
    ensures own { map (option_map (λ w. w.ring)) writers.new ≡ map (option_map (λ w. w.ring)) writers.old }
    ensures pairs { IfOk result (λ queues. map into_iter_items queues.items ≡ map got_of readers.items) }
    ensures whole { OnOk result ((place : ℕ)
        → IsReaderSettled (get_or writers.old place None) (get_or readers.items place None)) }
    ensures settled { OnOk result (writers.new ≡ all_settled writers.old readers.items) }
    ensures err { OnErr result (HaveSomeSettled writers.old readers.items writers.new) }
{
    let mut queues = Vec::with_capacity(alloc, writers.len())?;
    for place in 0..writers.len() {
        let reader = readers[place].take();
        queues.push_reserved(settle_one(alloc, &mut writers[place], reader)?);
    }
    Ok(queues)
}

// Takes the first pair of a queue.
fn next_pair(queues: &mut Vec<IntoIter<Pair>>, place: usize) -> Option<Pair>
    requires { 0 < length (queue_at (map into_iter_items queues.old.items) place) }
    ensures some { IsSome result }
    ensures first { IfSome result (λ pair. queue_at (map into_iter_items queues.old.items) place
        ≡ pair ∷ queue_at (map into_iter_items queues.new.items) place) }
    ensures others { (other : ℕ) → other ≢ place → queue_at (map into_iter_items queues.new.items) other
        ≡ queue_at (map into_iter_items queues.old.items) other }
{
    let queue = &mut queues[place];
    queue.next()
}

// The lines of the reads that got a message, in the order of these reads. Each queue has the pairs of
// one source.
fn lines_of(
    host: u8,
    calls: &[Source],
    mut queues: Vec<IntoIter<Pair>>,
    mut lines: Vec<ReadLine>,
) -> Vec<ReadLine>
    requires empty { lines.items ≡ [] }
    requires room { vec_len lines + length calls.now ≤ vec_capacity lines }
    requires queued { AreQueued calls.now (map into_iter_items queues.items) }
    ensures sources { map (λ line. line.source) result.items ≡ calls.now }
    ensures hosts { All (λ line. line.host ≡ host) result.items }
    ensures pairs { (place : ℕ) → pairs_at place result.items ≡ queue_at (map into_iter_items queues.items) place }
{
    for source in calls {
        if let Some(pair) = next_pair(&mut queues, source_place(*source)) {
            lines.push_reserved(ReadLine {
                host,
                source: *source,
                pair,
            });
        }
    }
    lines
}

impl ControllerEnd {
    /// Takes readers of the end's rings back, and hands out a line of the host for each read that got a
    /// message, in the order of these reads.
    ///
    /// Where memory is refused the readers are gone, and of the writers none has another message: those
    /// of some first rings have their reader joined, up to one that has a reader, and the others are as
    /// they were.
    pub fn settle_reads(&mut self, host: u8, r: HostReaders) -> Result<List<ReadLine>, Memory>
        requires own { AreReadersOfEnd self.old r }
        ensures rings { map (option_map (λ w. w.ring)) self.new ≡ map (option_map (λ w. w.ring)) self.old }
        ensures sources { IfOk result (λ lines. map (λ line. line.source) lines ≡ r.calls) }
        ensures hosts { IfOk result (λ lines. All (λ line. line.host ≡ host) lines) }
        ensures pairs { IfOk result (λ lines. (source : Source) → pairs_from source lines
            ≡ got_of (at_source r.readers source)) }
        ensures whole { OnOk result ((source : Source)
            → IsReaderSettled (at_source self.old source) (at_source r.readers source)) }
        ensures joined { OnOk result (self.new ≡ all_settled self.old r.readers) }
        ensures err { OnErr result (HaveSomeSettled self.old r.readers self.new) }
    {
        let HostReaders { readers, calls } = r;
        let lines = Vec::with_capacity(self.alloc, calls.len())?;
        let queues = settle_all(self.alloc, self.writers.as_mut_slice(), readers)?;
        let lines = lines_of(host, calls.as_slice(), queues, lines);
        Ok(List::from_vec(lines))
    }
}

impl Port {
    /// Takes the readers of a slot back, and hands out a line for each read that got a message, in the
    /// order of these reads.
    ///
    /// Where memory is refused the readers are gone, and of the writers none has another message: those
    /// of some first rings have their reader joined, up to one that has a reader, and the others are as
    /// they were.
    pub fn settle_reads(
        &self,
        end: &mut ControllerEnd,
        r: HostReaders,
    ) -> Result<List<ReadLine>, Memory>
        requires end { IsControllerEndOf self.now end.old }
        requires readers { AreReadersOf self.now r }
        ensures own { IsControllerEndOf self.now end.new }
        ensures sources { IfOk result (λ lines. map (λ line. line.source) lines ≡ r.calls) }
        ensures hosts { IfOk result (λ lines. All (λ line. line.host ≡ self.now.node) lines) }
        ensures pairs { IfOk result (λ lines. (source : Source) → pairs_from source lines
            ≡ got_of (at_source r.readers source)) }
        ensures whole { OnOk result ((source : Source)
            → IsReaderSettled (at_source end.old source) (at_source r.readers source)) }
        ensures joined { OnOk result (end.new ≡ all_settled end.old r.readers) }
        ensures err { OnErr result (HaveSomeSettled end.old r.readers end.new) }
    {
        end.settle_reads(self.node, r)
    }
}
