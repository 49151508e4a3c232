//! What hosts read, and the lines of it.
ghost use Rattle.std.specs.Prelude.{◌≡◌, ◌≢◌, ◌<◌, ◌≤◌, ℕ, [], ◌∷◌, length, map, vec_len, vec_capacity};
ghost use Rattle.std.specs.Prelude.{All, IfOk, IfSome, IfNone, OnOk};
ghost use Rattle.std.specs.Option.{ForSome};
ghost use Rattle.std.specs.Vec.Iter.{into_iter_items};
ghost use Rattle.host_port.specs.Reading.{AreReadersOfEnd, IsLeft};
ghost use Rattle.cluster_run.specs.Ends.{desk_ends, desk_numbers};
ghost use Rattle.cluster_run.specs.Reading.{AreReadersOfAll, has_reads, AreLentTo, IsRead, HaveRead};
ghost use Rattle.cluster_run.specs.Reading.{AreReadersLent, reader_in, HaveRoomForReads, SettlesReadsOf};
ghost use Rattle.cluster_run.specs.Reading.{SettlesReads, AllGot, read_of, lines_by};
ghost use Rattle.cluster_run.specs.Reading.{AreLinesBy, AreLinesOf, queue_of, AreQueuesOf, AreDue};

use crate::nodes::Desk;
use host_port::{ControllerEnd, HostReaders, ReadLine};
use std::alloc::Global;
use std::sync::Wait;
use std::vec::IntoIter;
use ttp_base::{Gate, List, Memory};
use ttp_world::HostRead;

// Whether a node's host reads.
fn has_reads(reads: &[HostRead], node: u8) -> bool
    ensures { result ≡ has_reads reads.now node }
{
    reads.iter().any(|read| read.host == node)
}

// Readers for a node, if its host reads.
fn lend_one(
    end: &mut ControllerEnd,
    reads: &[HostRead],
    node: u8,
) -> Result<Option<HostReaders>, Memory>
    ensures lent { IfOk result (AreLentTo reads.now node end.old) }
    ensures end { end.new ≡ end.old }
{
    if has_reads(reads, node) {
        return Ok(Some(end.lend_reads(reads, node)?));
    }
    Ok(None)
}

/// Readers for each node whose host reads in a slot with these reads.
pub(crate) fn lend_readers(
    alloc: Global,
    desks: &mut [Desk],
    reads: &[HostRead],
) -> Result<Vec<Option<HostReaders>>, Memory>
    requires few { length desks.old ≤ 256 }
    ensures lent { IfOk result (λ readers. AreReadersLent reads.now (desk_ends desks.old) readers.items) }
    ensures desks { desks.new ≡ desks.old }
{
    let mut readers = Vec::with_capacity(alloc, desks.len())?;
    for k in 0..desks.len() {
        readers.push_reserved(lend_one(&mut desks[k].end, reads, k as u8)?);
    }
    Ok(readers)
}

// A read of a host, by its readers.
fn read_one<R: Wait, G: Gate>(rt: &R, readers: &mut Option<HostReaders>, read: &HostRead, gate: &G)
    requires { IsLeft (reader_in readers.old read.now.source) }
    ensures { IsRead read.now readers.old readers.new }
{
    if let Some(readers) = readers {
        readers.read(rt, read.source, gate);
    }
}

/// All that hosts read in the slot, in the script's order.
pub(crate) fn read_all<R: Wait, G: Gate>(
    rt: &R,
    readers: &mut [Option<HostReaders>],
    reads: &[HostRead],
    gate: &G,
)
    requires { HaveRoomForReads reads.now readers.old }
    ensures { HaveRead reads.now readers.old readers.new }
{
    for read in reads {
        let k = usize::from(read.host);
        read_one(rt, &mut readers[k], read, gate);
    }
}

// Takes a node's readers back. Its lines are the answer.
fn settle_one(
    alloc: Global,
    end: &mut ControllerEnd,
    host: u8,
    readers: Option<HostReaders>,
) -> Result<IntoIter<ReadLine>, Memory>
    requires own { ForSome readers (AreReadersOfEnd end.old) }
    ensures settles { OnOk result (SettlesReadsOf end.old readers end.new) }
    ensures lines { IfOk result (λ lines. AreLinesBy host readers (into_iter_items lines)) }
{
    let Some(readers) = readers else {
        return Ok(Vec::new(alloc).into_iter());
    };
    let lines = end.settle_reads(host, readers)?.into_vec();
    Ok(lines.into_iter())
}

// Takes all readers back. Each node has a queue of its lines.
fn settle_readers(
    alloc: Global,
    desks: &mut [Desk],
    mut readers: Vec<Option<HostReaders>>,
) -> Result<Vec<IntoIter<ReadLine>>, Memory>
    requires few { length desks.old ≤ 256 }
    requires own { AreReadersOfAll (desk_ends desks.old) readers.items }
    ensures count { length desks.new ≡ length desks.old }
    ensures numbers { desk_numbers desks.new ≡ desk_numbers desks.old }
    ensures settles { OnOk result (SettlesReads (desk_ends desks.old) readers.items (desk_ends desks.new)) }
    ensures queues_count { IfOk result (λ queues. vec_len queues ≡ length desks.old) }
    ensures queues { IfOk result (λ queues. AreQueuesOf readers.items (map into_iter_items queues.items)) }
{
    let mut queues = Vec::with_capacity(alloc, desks.len())?;
    for k in 0..desks.len() {
        let own = readers[k].take();
        queues.push_reserved(settle_one(alloc, &mut desks[k].end, k as u8, own)?);
    }
    Ok(queues)
}

// Takes the first line of a queue.
fn next_line(queues: &mut [IntoIter<ReadLine>], host: u8) -> Option<ReadLine>
    requires { host < length queues.old }
    ensures count { length queues.new ≡ length queues.old }
    ensures none { IfNone result (queue_of (map into_iter_items queues.old) host ≡ []) }
    ensures first { IfSome result (λ line. queue_of (map into_iter_items queues.old) host
        ≡ line ∷ queue_of (map into_iter_items queues.new) host) }
    ensures others { (other : ℕ) → other ≢ host → queue_of (map into_iter_items queues.new) other
        ≡ queue_of (map into_iter_items queues.old) other }
{
    queues[usize::from(host)].next()
}

// The lines of all hosts in the order of their reads.
fn in_order(
    reads: &[HostRead],
    queues: &mut [IntoIter<ReadLine>],
    mut lines: Vec<ReadLine>,
) -> Vec<ReadLine>
    requires hosts { All (λ read. read.host < length queues.old) reads.now }
    requires empty { lines.items ≡ [] }
    requires room { length reads.now ≤ vec_capacity lines }
    ensures reads { AreDue reads.now (map into_iter_items queues.old) → map read_of result.items ≡ reads.now }
    ensures lines { AreDue reads.now (map into_iter_items queues.old) → (k : ℕ)
        → lines_by k result.items ≡ queue_of (map into_iter_items queues.old) k }
{
    for read in reads {
        if let Some(line) = next_line(queues, read.host) {
            lines.push_reserved(line);
        }
    }
    lines
}

/// The lines of what hosts read in the slot, in the script's order.
pub(crate) fn read_lines(
    alloc: Global,
    desks: &mut [Desk],
    readers: Vec<Option<HostReaders>>,
    reads: &[HostRead],
) -> Result<List<ReadLine>, Memory>
    requires few { length desks.old ≤ 256 }
    requires own { AreReadersOfAll (desk_ends desks.old) readers.items }
    requires hosts { All (λ read. read.host < length desks.old) reads.now }
    ensures count { length desks.new ≡ length desks.old }
    ensures numbers { desk_numbers desks.new ≡ desk_numbers desks.old }
    ensures settles { OnOk result (SettlesReads (desk_ends desks.old) readers.items (desk_ends desks.new)) }
    ensures lines { IfOk result (λ lines. AllGot reads.now readers.items → AreLinesOf reads.now readers.items lines) }
{
    let lines = Vec::with_capacity(alloc, reads.len())?;
    let mut queues = settle_readers(alloc, desks, readers)?;
    Ok(List::from_vec(in_order(reads, queues.as_mut_slice(), lines)))
}
