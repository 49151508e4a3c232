//! The lines of a story.
ghost use Rattle.std.specs.Prelude.{◌≡◌, ◌++◌, ◌∷◌, [], ◌<◌, length, map, filter, reverse, All, IfOk, OnOk};
ghost use Rattle.causes.specs.Story.{has_spot, is_spot};
ghost use Rattle.causes.specs.WhyText.{root_words, story_lines, told_line};
ghost use Rattle.why_lines.specs.Roots.{root_at};
ghost use Rattle.why_story.specs.RunSource.{AreRunSpots, IsRunSpot, source_slots};

use crate::order::in_file_order;
use causes::{LineNumbers, Spot, Story, Told};
use std::alloc::Global;
use ttp_base::{GrowingText, List, Memory};
use ttp_world::Medl;
use why_story::Causes;
use why_words::{put_named_line, put_root};

fn is_spot(a: Spot, b: Spot) -> bool
    ensures { result ≡ is_spot a b }
{
    a.slot == b.slot && a.node == b.node
}

fn has_spot(spots: &[Spot], spot: Spot) -> bool
    ensures { result ≡ has_spot spots.now spot }
{
    spots.iter().any(|other| is_spot(spot, *other))
}

// The entries that are told, the oldest first.
fn spots_of(alloc: Global, told: &[Told]) -> Result<List<Spot>, Memory>
    ensures { IfOk result (λ spots. spots ≡ reverse (map (λ t. t.spot) told.now)) }
{
    let mut spots = List::new(alloc);
    let mut place = told.len();
    while 0 < place {
        place -= 1;
        spots.push(told[place].spot)?;
    }
    Ok(spots)
}

// Those of a story's entries that one names.
fn named_of(alloc: Global, spots: &[Spot], entries: &[Spot]) -> Result<List<Spot>, Memory>
    ensures { IfOk result (λ named. named ≡ filter (has_spot entries.now) spots.now) }
{
    let mut named = List::new(alloc);
    for spot in spots {
        if has_spot(entries, *spot) {
            named.push(*spot)?;
        }
    }
    Ok(named)
}

// What the root adds to the line of an entry, if there is one.
fn root_words<C: Causes>(alloc: Global, causes: &C, root: &[Spot]) -> Result<GrowingText, Memory>
    requires { AreRunSpots (C.source causes.now) root.now }
    ensures { IfOk result (λ words. words ≡ root_words (source_slots (C.source causes.now)) root.now) }
{
    let mut words = GrowingText::new(alloc);
    if let Some(spot) = root.first() {
        put_root(&mut words, &causes.entry(spot.slot, spot.node), spot.slot)?;
    }
    Ok(words)
}

// The line of an entry of a story, of which these are all, the oldest first.
fn told_line<C: Causes>(
    alloc: Global,
    list: &Medl,
    numbers: &LineNumbers,
    causes: &C,
    spots: &[Spot],
    root: &[Spot],
    told: &Told,
) -> Result<GrowingText, Memory>
    requires root { AreRunSpots (C.source causes.now) root.now }
    requires told { IsRunSpot (C.source causes.now) told.now.spot }
    ensures { IfOk result (λ line. line
        ≡ told_line list.now numbers.now (source_slots (C.source causes.now)) spots.now root.now told.now) }
{
    let entry = causes.entry(told.spot.slot, told.spot.node);
    let lines = in_file_order(alloc, numbers, told.cause.lines.as_slice())?;
    let named = named_of(alloc, spots, told.cause.entries.as_slice())?;
    let words = root_words(alloc, causes, root)?;
    let mut line = GrowingText::new(alloc);
    put_named_line(
        alloc,
        &mut line,
        list,
        numbers,
        told.spot,
        &entry,
        lines.as_slice(),
        named.as_slice(),
        &told.cause.because,
        words.bytes(),
    )?;
    Ok(line)
}

// The root, at the place of the entry that was asked for; nothing elsewhere.
fn root_at(place: usize, root: &[Spot]) -> &[Spot]
    ensures { result.now ≡ root_at place root.now }
{
    if place == 0 { root } else { &[] }
}

/// Adds the lines of a story, the oldest first.
///
/// # Errors
///
/// Where memory was refused; some of them may have been added.
pub(crate) fn put_story<C: Causes>(
    alloc: Global,
    list: &Medl,
    numbers: &LineNumbers,
    causes: &C,
    story: &Story,
    lines: &mut List<GrowingText>,
) -> Result<(), Memory>
    requires root { AreRunSpots (C.source causes.now) story.now.root }
    requires told { AreRunSpots (C.source causes.now) (map (λ t. t.spot) story.now.told) }
    ensures { OnOk result (lines.new
        ≡ lines.old ++ story_lines list.now numbers.now (source_slots (C.source causes.now)) story.now) }
{
    let told = story.told.as_slice();
    let spots = spots_of(alloc, told)?;
    let mut place = told.len();
    while 0 < place {
        place -= 1;
        let root = root_at(place, story.root.as_slice());
        let line = told_line(
            alloc,
            list,
            numbers,
            causes,
            spots.as_slice(),
            root,
            &told[place],
        )?;
        lines.push(line)?;
    }
    Ok(())
}
