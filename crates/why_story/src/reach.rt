//! What is reached from marked entries.
ghost use Rattle.std.specs.Prelude.{List as Items, ◌≡◌, ◌<◌, ◌≤◌, [], ℕ, length, IfOk, OnOk};
ghost use Rattle.ttp_base.specs.NodeSet.{most_nodes};
ghost use Rattle.causes.specs.declared.cause.Spot.{Spot};
ghost use Rattle.causes.specs.Story.{rank_of_entry, reached, spots_back};
ghost use Rattle.why_story.specs.Marks.{AreMarked};
ghost use Rattle.why_story.specs.Passes.{Reaches, of_rank, rank_back, slot_back};
ghost use Rattle.why_story.specs.RunSource.{source_slots, slots_up_to, spot_at};

use crate::causes_of::Causes;
use crate::marks::Marks;
use causes::{Spot, Told};
use std::alloc::Global;
use ttp_base::{List, Memory};
use ttp_world::{Entry, Reason};

/// What was told, the newest first, and what is marked by it.
#[derive(Drop)]
pub struct Reach {
    pub marks: Marks,
    pub told: List<Told>,
}

// The rank of an entry in its slot.
fn rank_of_entry(entry: &Entry) -> u8
    ensures { result ≡ rank_of_entry entry.now }
{
    match entry {
        Entry::Waited | Entry::Joined { .. } => 1,
        Entry::Judged { .. } => 2,
        Entry::Left {
            reason: Reason::Denied,
            ..
        } => 2,
        _ => 0,
    }
}

// Tells an entry, if it is marked and has this rank, and marks what it names.
fn reach_entry<C: Causes>(
    alloc: Global,
    causes: &C,
    slot: u32,
    rank: u8,
    node: u8,
    reach: &mut Reach,
) -> Result<(), Memory>
    requires slot { slot < length (C.source causes.now).history }
    requires node { node < length (C.source causes.now).list.slots }
    requires most { node < most_nodes }
    ensures { (count : ℕ) (marked : Items Spot) → slot < count → AreMarked count marked reach.old.marks
        → OnOk result (Reaches (source_slots (C.source causes.now)) count reach.old.told marked
        (of_rank (source_slots (C.source causes.now)) rank (spot_at slot node)) [] reach.new) }
{
    let spot = Spot { slot, node };
    if !reach.marks.has(spot) {
        return Ok(());
    }
    if rank_of_entry(&causes.entry(slot, node)) != rank {
        return Ok(());
    }
    let cause = causes.cause(alloc, slot, node)?;
    reach.marks.mark_all(cause.entries.as_slice());
    reach.told.push(Told { spot, cause })
}

// The same for the nodes of a slot, the highest first.
fn reach_rank<C: Causes>(
    alloc: Global,
    causes: &C,
    nodes: u8,
    slot: u32,
    rank: u8,
    reach: &mut Reach,
) -> Result<(), Memory>
    requires slot { slot < length (C.source causes.now).history }
    requires nodes { nodes ≡ length (C.source causes.now).list.slots }
    requires most { nodes ≤ most_nodes }
    ensures { (count : ℕ) (marked : Items Spot) → slot < count → AreMarked count marked reach.old.marks
        → OnOk result (Reaches (source_slots (C.source causes.now)) count reach.old.told marked
        (rank_back (source_slots (C.source causes.now)) slot rank nodes) [] reach.new) }
{
    let mut node = nodes;
    while 0 < node {
        node -= 1;
        reach_entry(alloc, causes, slot, rank, node, reach)?;
    }
    Ok(())
}

// The same for a slot.
fn reach_slot<C: Causes>(
    alloc: Global,
    causes: &C,
    nodes: u8,
    slot: u32,
    reach: &mut Reach,
) -> Result<(), Memory>
    requires slot { slot < length (C.source causes.now).history }
    requires nodes { nodes ≡ length (C.source causes.now).list.slots }
    requires most { nodes ≤ most_nodes }
    ensures { (count : ℕ) (marked : Items Spot) → slot < count → AreMarked count marked reach.old.marks
        → OnOk result (Reaches (source_slots (C.source causes.now)) count reach.old.told marked
        (slot_back (source_slots (C.source causes.now)) nodes slot) [] reach.new) }
{
    reach_rank(alloc, causes, nodes, slot, 2, reach)?;
    reach_rank(alloc, causes, nodes, slot, 1, reach)?;
    reach_rank(alloc, causes, nodes, slot, 0, reach)
}

/// What is reached from some entries by causes, the newest first, in the first so many slots of a run.
///
/// # Errors
///
/// Where memory was refused.
pub(crate) fn reached<C: Causes>(
    alloc: Global,
    causes: &C,
    nodes: u8,
    slots: u32,
    from: &[Spot],
) -> Result<List<Told>, Memory>
    requires slots { slots ≤ length (C.source causes.now).history }
    requires nodes { nodes ≡ length (C.source causes.now).list.slots }
    requires most { nodes ≤ most_nodes }
    ensures { IfOk result (λ told. told ≡ reached (source_slots (C.source causes.now)) from.now
        (spots_back (slots_up_to (source_slots (C.source causes.now)) slots))) }
{
    let mut marks = Marks::new(alloc, slots)?;
    marks.mark_all(from);
    let mut reach = Reach {
        marks,
        told: List::new(alloc),
    };
    let mut slot = slots;
    while 0 < slot {
        slot -= 1;
        reach_slot(alloc, causes, nodes, slot, &mut reach)?;
    }
    let Reach { told, .. } = reach;
    Ok(told)
}
