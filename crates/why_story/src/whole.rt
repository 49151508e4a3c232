//! A whole story.
ghost use Rattle.std.specs.Prelude.{◌≡◌, ◌<◌, ◌≤◌, ◌++◌, length, map, IfOk, OnOk};
ghost use Rattle.ttp_base.specs.NodeSet.{most_nodes};
ghost use Rattle.causes.specs.Story.{story, with_root};
ghost use Rattle.why_story.specs.RunSource.{AreRunSpots, source_slots};

use crate::causes_of::Causes;
use crate::keep::kept_from;
use crate::lead::leading;
use crate::reach::reached;
use crate::root::added_root;
use causes::{Spot, Story, Told};
use std::alloc::Global;
use ttp_base::{List, Memory};
use ttp_world::Script;

// Adds some entries behind others.
fn add_all(entries: &mut List<Spot>, others: &[Spot]) -> Result<(), Memory>
    ensures { OnOk result (entries.new ≡ entries.old ++ others.now) }
{
    for other in others {
        entries.push(*other)?;
    }
    Ok(())
}

// What is told, of which the first names the root too.
fn with_root(alloc: Global, root: &[Spot], told: List<Told>) -> Result<List<Told>, Memory>
    ensures { IfOk result (λ rooted. rooted ≡ with_root root.now told) }
{
    let mut rooted = told.into_vec();
    if root.is_empty() || rooted.is_empty() {
        return Ok(List::from_vec(rooted));
    }
    let mut entries = List::new(alloc);
    add_all(&mut entries, root)?;
    add_all(&mut entries, rooted[0].cause.entries.as_slice())?;
    rooted[0].cause.entries = entries;
    Ok(List::from_vec(rooted))
}

/// The story of what a node did in the newest slot of a run of so many.
///
/// # Errors
///
/// Where memory was refused.
pub fn story<C: Causes>(
    alloc: Global,
    causes: &C,
    script: &Script,
    nodes: u8,
    slots: u32,
    node: u8,
) -> Result<Story, Memory>
    requires slots { slots ≡ length (C.source causes.now).history }
    requires some { 0 < slots }
    requires nodes { nodes ≡ length (C.source causes.now).list.slots }
    requires most { nodes ≤ most_nodes }
    requires node { node < nodes }
    ensures root { IfOk result (λ whole. AreRunSpots (C.source causes.now) whole.root) }
    ensures told { IfOk result (λ whole. AreRunSpots (C.source causes.now) (map (λ t. t.spot) whole.told)) }
    ensures value { IfOk result (λ whole. whole ≡ story script.now (source_slots (C.source causes.now)) node) }
{
    let slot = slots - 1;
    let asked = Spot { slot, node };
    let root = added_root(alloc, causes, script, nodes, slot, node)?;
    let mut from = List::new(alloc);
    from.push(asked)?;
    add_all(&mut from, root.as_slice())?;
    let reached = reached(alloc, causes, nodes, slots, from.as_slice())?;
    let told = with_root(alloc, root.as_slice(), reached)?;
    let back = leading(alloc, slots, told.as_slice())?;
    let told = kept_from(alloc, &back, slots, asked, told)?;
    Ok(Story { root, told })
}
