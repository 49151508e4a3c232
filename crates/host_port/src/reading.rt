//! How a host reads: readers are lent, read, and are settled.
ghost use Rattle.std.specs.Prelude.{◌≡◌, ◌≢◌, ◌^◌, ◌<◌, ◌≤◌, [], sum_by};
ghost use Rattle.std.specs.Prelude.{IfOk, IfSome, IsNone};
ghost use Rattle.ttp_world.specs.declared.script.Source.{Source};
ghost use Rattle.ttp_world.specs.Script.{reads_in};
ghost use Rattle.host_port.specs.Rings.{at_source, source_place, IsControllerEndOf};
ghost use Rattle.host_port.specs.Reading.{AreReadersOf, AreReadersOfEnd, buffers_of, rings_read, reads_at, reads_from, lent, IsLeft, Reads, got_one};
ghost use Rattle.host_port.specs.Reading.{calls_after};
ghost use Rattle.host_port.specs.Queues.{all_lent, spare_of};

use crate::ends::ControllerEnd;
use crate::port::Port;
use crate::source::source_place;
use nbw_ring::{Reader, Try, Writer};
use std::alloc::Global;
use std::marker::Model;
use std::sync::Wait;
use ttp_base::{Gate, Memory};
use ttp_world::{HostRead, Script, Source};

/// The rights of a node's host to read in a slot. They may go to another thread.
///
/// Contracts see a reader of each ring that is read, at the place of its source, and the sources of the
/// reads that got a message, in the order of these reads.
#[derive(Drop)]
pub struct HostReaders {
    pub(crate) readers: Vec<Option<Reader>>,
    pub(crate) calls: Vec<Source>,
}

impl Model for HostReaders {
    ghost use Rattle.host_port.specs.Reading.{ReadersState};

    ghost Value = { ReadersState };

    ghost use Rattle.host_port.specs.Queues.{readers_of, AreCounted};

    ghost view = { λ r. readers_of r.readers.items r.calls.items };

    ghost invariant = { AreCounted };
}

// How often a node's host reads the source at a place.
fn reads_at(reads: &[HostRead], node: u8, place: usize) -> usize
    ensures { result ≡ reads_at reads.now node place }
{
    reads
        .iter()
        .filter(|read| read.host == node && source_place(read.source) == place)
        .count()
}

// A reader of a ring, if there is one, and if it is read.
fn lend_one(writer: &mut Option<Writer>, reads: usize) -> Result<Option<Reader>, Memory>
    ensures reader { IfOk result (λ reader. reader ≡ lent writer.old reads) }
    ensures writer { writer.new ≡ writer.old }
{
    if reads == 0 {
        return Ok(None);
    }
    let Some(writer) = writer else {
        return Ok(None);
    };
    Ok(Some(writer.lend(reads)?))
}

// A reader of each ring that is read, with room for the reads of its source.
fn lend_all(
    alloc: Global,
    writers: &mut [Option<Writer>],
    reads: &[HostRead],
    node: u8,
) -> Result<Vec<Option<Reader>>, Memory>
    ensures readers { IfOk result (λ readers. readers.items ≡ all_lent reads.now node 0 writers.old) }
    ensures writers { writers.new ≡ writers.old }
{
    let mut readers = Vec::with_capacity(alloc, writers.len())?;
    for place in 0..writers.len() {
        let count = reads_at(reads, node, place);
        readers.push_reserved(lend_one(&mut writers[place], count)?);
    }
    Ok(readers)
}

// For how many messages the readers have room; nothing where no number of a machine is so large.
fn room_of(readers: &[Option<Reader>]) -> Option<usize>
    ensures some { IfSome result (λ room. room ≡ sum_by spare_of readers.now) }
    ensures none { IsNone result → 2 ^ 64 ≤ sum_by spare_of readers.now }
{
    let mut room = 0usize;
    for reader in readers {
        if let Some(reader) = reader {
            room = room.checked_add(reader.spare())?;
        }
    }
    Some(room)
}

// A read of a ring, and whether it got a message.
fn read_one<R: Wait, G: Gate>(rt: &R, reader: &mut Option<Reader>, gate: &G) -> bool
    requires left { IsLeft reader.old }
    ensures reads { Reads (buffers_of reader.old) reader.old reader.new }
    ensures got { result ≡ got_one reader.new }
{
    let Some(reader) = reader else {
        return false;
    };
    if reader.buffers() == 1 {
        reader.read(rt, gate);
        return true;
    }
    matches!(reader.try_read(gate), Try::Got { .. })
}

impl ControllerEnd {
    /// Readers of the rings that a node's host reads among these reads of a slot, each with room for the
    /// reads of its source. None gets a message older than its ring's newest.
    ///
    /// It costs a walk over the slot's reads for each ring, and takes memory for the messages; where
    /// that is refused, the end is as it was.
    pub fn lend_reads(&mut self, reads: &[HostRead], node: u8) -> Result<HostReaders, Memory>
        ensures readers { IfOk result (λ r. (source : Source) → at_source r.readers source
            ≡ lent (at_source self.old source) (reads_from reads.now node source)) }
        ensures own { IfOk result (λ r. AreReadersOfEnd self.old r) }
        ensures calls { IfOk result (λ r. r.calls ≡ []) }
        ensures end { self.new ≡ self.old }
    {
        let readers = lend_all(self.alloc, self.writers.as_mut_slice(), reads, node)?;
        let Some(room) = room_of(readers.as_slice()) else {
            return Err(Memory);
        };
        let calls = Vec::with_capacity(self.alloc, room)?;
        Ok(HostReaders { readers, calls })
    }
}

impl HostReaders {
    /// A read of a source, which is one attempt. With one buffer attempts are repeated until one gets a
    /// message, so that it may wait for a write that is open.
    pub fn read<R: Wait, G: Gate>(&mut self, rt: &R, source: Source, gate: &G)
        requires left { IsLeft (at_source self.old.readers source) }
        ensures rings { rings_read self.new.readers ≡ rings_read self.old.readers }
        ensures reads { let old = at_source self.old.readers source in
            Reads (buffers_of old) old (at_source self.new.readers source) }
        ensures others { (other : Source) → source_place other ≢ source_place source
            → at_source self.new.readers other ≡ at_source self.old.readers other }
        ensures calls { self.new.calls ≡ calls_after self.old.calls source (at_source self.new.readers source) }
    {
        let place = source_place(source);
        if read_one(rt, &mut self.readers[place], gate) {
            self.calls.push_reserved(source);
        }
    }
}

impl Port {
    /// Readers of the rings that the node's host reads in the slot, each with room for the reads of its
    /// source that the script has for it. None gets a message older than its ring's newest.
    ///
    /// It costs a look-up in the script, and a walk over the slot's reads for each ring, and takes
    /// memory for the messages; where that is refused, the end is as it was.
    pub fn lend_reads(
        &self,
        end: &mut ControllerEnd,
        script: &Script,
        slot: u32,
    ) -> Result<HostReaders, Memory>
        requires { IsControllerEndOf self.now end.old }
        ensures readers { IfOk result (λ r. (source : Source) → at_source r.readers source
            ≡ lent (at_source end.old source) (reads_from (reads_in script.now slot) self.now.node source)) }
        ensures own { IfOk result (λ r. AreReadersOf self.now r) }
        ensures calls { IfOk result (λ r. r.calls ≡ []) }
        ensures end { end.new ≡ end.old }
    {
        end.lend_reads(script.reads(slot), self.node)
    }

    /// A read of a source, which is one attempt. With one buffer attempts are repeated until one gets a
    /// message, so that it may wait for a write that is open.
    pub fn host_read<R: Wait, G: Gate>(&self, rt: &R, r: &mut HostReaders, source: Source, gate: &G)
        requires own { AreReadersOf self.now r.old }
        requires left { IsLeft (at_source r.old.readers source) }
        ensures own { AreReadersOf self.now r.new }
        ensures reads { Reads self.now.buffers (at_source r.old.readers source) (at_source r.new.readers source) }
        ensures others { (other : Source) → source_place other ≢ source_place source
            → at_source r.new.readers other ≡ at_source r.old.readers other }
        ensures calls { r.new.calls ≡ calls_after r.old.calls source (at_source r.new.readers source) }
    {
        // The proof has from here how many buffers this port's rings have.
        let _ = &self.buffers;
        r.read(rt, source, gate);
    }
}
