//! The whole text.
ghost use Rattle.std.specs.Prelude.{◌≡◌, ◌+◌, ◌++◌, ◌∷◌, [], ◌<◌, length, map, suc, IfOk, OnOk};
ghost use Rattle.ttp_world.specs.Medl.{IsValid};
ghost use Rattle.ttp_world.specs.Script.{IsValidScript};
ghost use Rattle.ttp_world.specs.ZerosWorld.{zeros_world};
ghost use Rattle.causes.specs.Reduced.{is_same_word};
ghost use Rattle.causes.specs.WhyText.{alone_line, why_head, why_lines_told, why_text};
ghost use Rattle.why_story.specs.RunSource.{AreRunSpots, IsRunSpot, source_slots};

use crate::named::put_named;
use crate::order::all_in_file_order;
use crate::told::put_story;
use causes::{LineNumbers, Story};
use reduced_runs::{entry_alone, entry_word};
use std::alloc::Global;
use ttp_base::{GrowingText, List, Memory};
use ttp_world::{Entry, Medl, Script};
use why_story::{Causes, story};
use why_words::{put_alone, put_why_head};

fn is_same_word(a: &Entry, b: &Entry) -> bool
    ensures { result ≡ is_same_word a.now b.now }
{
    entry_word(a) == entry_word(b)
}

// The first line.
fn head_line(
    alloc: Global,
    list: &Medl,
    script: &Script,
    node: u8,
    slot: u32,
) -> Result<GrowingText, Memory>
    requires { IsValid list.now }
    ensures { IfOk result (λ line. line ≡ why_head list.now script.now node slot) }
{
    let mut line = GrowingText::new(alloc);
    put_why_head(&mut line, list, script, node, slot)?;
    Ok(line)
}

// The last line.
fn last_line(alloc: Global, alone: &Entry, suffices: bool) -> Result<GrowingText, Memory>
    ensures { IfOk result (λ line. line ≡ alone_line alone.now suffices) }
{
    let mut line = GrowingText::new(alloc);
    put_alone(&mut line, alone, suffices)?;
    Ok(line)
}

// The lines on a story of a node's entry in a slot.
fn lines_told<C: Causes>(
    alloc: Global,
    list: &Medl,
    script: &Script,
    numbers: &LineNumbers,
    causes: &C,
    slot: u32,
    node: u8,
    story: &Story,
) -> Result<List<GrowingText>, Memory>
    requires valid { IsValid list.now }
    requires script { IsValidScript list.now script.now }
    requires slot { slot < script.now.slots }
    requires node { node < length list.now.slots }
    requires list { (C.source causes.now).list ≡ list.now }
    requires count { length (C.source causes.now).history ≡ slot + 1 }
    requires root { AreRunSpots (C.source causes.now) story.now.root }
    requires told { AreRunSpots (C.source causes.now) (map (λ t. t.spot) story.now.told) }
    ensures { IfOk result (λ lines. lines ≡ why_lines_told list.now script.now numbers.now
        (source_slots (C.source causes.now)) node slot story.now) }
{
    let entry = causes.entry(slot, node);
    let named = all_in_file_order(alloc, numbers, story.told.as_slice())?;
    let alone = entry_alone(alloc, list, script, named.as_slice(), slot, node)?;
    let suffices = is_same_word(&entry, &alone);
    let mut lines = List::new(alloc);
    lines.push(head_line(alloc, list, script, node, slot)?)?;
    put_named(
        alloc,
        list,
        script,
        numbers,
        named.as_slice(),
        slot,
        node,
        &entry,
        suffices,
        &mut lines,
    )?;
    put_story(alloc, list, numbers, causes, story, &mut lines)?;
    lines.push(last_line(alloc, &alone, suffices)?)?;
    Ok(lines)
}

/// The lines on what a node did in a slot, of the causes of a run up to that slot, each with its line feed.
///
/// # Errors
///
/// Where memory was refused.
pub fn why_lines<C: Causes>(
    alloc: Global,
    list: &Medl,
    script: &Script,
    numbers: &LineNumbers,
    causes: &C,
    slot: u32,
    node: u8,
) -> Result<List<GrowingText>, Memory>
    requires valid { IsValid list.now }
    requires script { IsValidScript list.now script.now }
    requires slot { slot < script.now.slots }
    requires node { node < length list.now.slots }
    requires source { C.source causes.now ≡ record {
      list = list.now;
      script = script.now;
      history = zeros_world list.now script.now (suc slot);
    } }
    ensures { IfOk result (λ lines. lines ≡ why_text list.now script.now numbers.now node slot) }
{
    let story = story(alloc, causes, script, list.nodes(), slot + 1, node)?;
    lines_told(alloc, list, script, numbers, causes, slot, node, &story)
}
