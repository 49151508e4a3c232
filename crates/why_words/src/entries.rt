//! The lines of a text on how an entry came about.
ghost use Rattle.std.specs.Prelude.{◌≡◌, ◌++◌, map, codes, OnOk};
ghost use Rattle.std.specs.Fmt.{decimal};
ghost use Rattle.ttp_world.specs.Medl.{IsValid};
ghost use Rattle.campaign.specs.CostText.{listed};
ghost use Rattle.ttp_world.specs.Trace.{entry_word, number_or_dash, peer_of};
ghost use Rattle.causes.specs.WhyText.{spot_word, entry_head, root_part, named_line, why_head, alone_line};
ghost use Rattle.causes.specs.WhyText.{line_number_words};

use crate::because::put_because;
use crate::lists::{put_comma, put_dash, put_number_behind, put_numbers_of};
use causes::{Because, LineNumbers, ScriptLine, Spot};
use line_text::PEER;
use reduced_runs::entry_word;
use std::alloc::Global;
use ttp_base::{GrowingText, Memory};
use ttp_world::{Entry, Medl, Script};

fn put_spot(text: &mut GrowingText, spot: Spot) -> Result<(), Memory>
    ensures { OnOk result (text.new ≡ text.old ++ spot_word spot) }
{
    text.put_number(u64::from(spot.slot))?;
    put_number_behind(text, ":", u32::from(spot.node))
}

fn put_spots(text: &mut GrowingText, spots: &[Spot]) -> Result<(), Memory>
    ensures { OnOk result (text.new ≡ text.old ++ listed (map spot_word spots.now)) }
{
    for (place, spot) in spots.iter().enumerate() {
        put_comma(text, place)?;
        put_spot(text, *spot)?;
    }
    put_dash(text, spots.len())
}

// The node of which the word of an entry speaks.
fn peer_of(node: u8, entry: &Entry) -> Option<u8>
    ensures { result ≡ peer_of node entry.now }
{
    match entry {
        Entry::Off | Entry::Waited | Entry::Retried | Entry::Gone => None,
        Entry::Started | Entry::Sent { .. } => Some(node),
        Entry::Joined { sender, .. } | Entry::Judged { sender, .. } => Some(*sender),
        Entry::Left { peer, .. } => Some(*peer),
    }
}

fn put_or_dash(text: &mut GrowingText, number: Option<u8>) -> Result<(), Memory>
    ensures { OnOk result (text.new ≡ text.old ++ number_or_dash number) }
{
    match number {
        Some(number) => text.put_number(u64::from(number)),
        None => text.put("-"),
    }
}

/// Adds how the line of an entry begins, as in a trace.
///
/// # Errors
///
/// Where memory was refused; some of it may have been added.
pub fn put_entry_head(
    text: &mut GrowingText,
    slot: u32,
    node: u8,
    entry: &Entry,
) -> Result<(), Memory>
    ensures { OnOk result (text.new ≡ text.old ++ entry_head slot node entry.now) }
{
    put_number_behind(text, "slot ", slot)?;
    put_number_behind(text, " node ", u32::from(node))?;
    text.put(" ")?;
    text.put(entry_word(entry))?;
    text.put(PEER)?;
    put_or_dash(text, peer_of(node, entry))
}

/// Adds that an entry hangs on a root, by the entry and the slot of the root.
///
/// # Errors
///
/// Where memory was refused; some of it may have been added.
pub fn put_root(text: &mut GrowingText, entry: &Entry, slot: u32) -> Result<(), Memory>
    ensures { OnOk result (text.new ≡ text.old ++ root_part entry.now slot) }
{
    text.put(", by the ")?;
    text.put(entry_word(entry))?;
    put_number_behind(text, " of slot ", slot)
}

// Adds the lines that an entry names, and the entries.
fn put_named(
    text: &mut GrowingText,
    numbers: &LineNumbers,
    lines: &[ScriptLine],
    entries: &[Spot],
) -> Result<(), Memory>
    ensures { OnOk result (text.new ≡ text.old ++ (codes " lines " ++ line_number_words numbers.now lines.now
        ++ codes " entries " ++ listed (map spot_word entries.now))) }
{
    text.put(" lines ")?;
    put_numbers_of(text, numbers, lines)?;
    text.put(" entries ")?;
    put_spots(text, entries)
}

/// Adds the line of an entry by what it names, in the orders of the file and of the story, with what its root adds.
///
/// # Errors
///
/// Where memory was refused; some of it may have been added.
pub fn put_named_line(
    alloc: Global,
    text: &mut GrowingText,
    list: &Medl,
    numbers: &LineNumbers,
    spot: Spot,
    entry: &Entry,
    lines: &[ScriptLine],
    entries: &[Spot],
    because: &Because,
    origin: &[u8],
) -> Result<(), Memory>
    ensures { OnOk result (text.new ≡ text.old
        ++ named_line list.now numbers.now spot entry.now lines.now entries.now because.now origin.now) }
{
    put_entry_head(text, spot.slot, spot.node, entry)?;
    put_named(text, numbers, lines, entries)?;
    text.put(" because ")?;
    put_because(alloc, text, list, numbers, because)?;
    text.put_bytes(origin)?;
    text.put("\n")
}

// Adds four numbers, each behind a text.
fn put_four(
    text: &mut GrowingText,
    first: &str,
    nodes: u32,
    second: &str,
    slots: u32,
    third: &str,
    node: u32,
    fourth: &str,
    slot: u32,
) -> Result<(), Memory>
    ensures { OnOk result (text.new ≡ text.old ++ (first.now ++ decimal nodes ++ second.now ++ decimal slots
        ++ third.now ++ decimal node ++ fourth.now ++ decimal slot)) }
{
    put_number_behind(text, first, nodes)?;
    put_number_behind(text, second, slots)?;
    put_number_behind(text, third, node)?;
    put_number_behind(text, fourth, slot)
}

/// Adds the first line.
///
/// # Errors
///
/// Where memory was refused; some of it may have been added.
pub fn put_why_head(
    text: &mut GrowingText,
    list: &Medl,
    script: &Script,
    node: u8,
    slot: u32,
) -> Result<(), Memory>
    requires { IsValid list.now }
    ensures { OnOk result (text.new ≡ text.old ++ why_head list.now script.now node slot) }
{
    let nodes = u32::from(list.nodes());
    put_four(
        text,
        "ttplab why 1 nodes ",
        nodes,
        " slots ",
        script.slots,
        " node ",
        u32::from(node),
        " slot ",
        slot,
    )?;
    text.put("\n")
}

/// Adds the last line: whether an entry alone has the same word, or else its word alone.
///
/// # Errors
///
/// Where memory was refused; some of it may have been added.
pub fn put_alone(text: &mut GrowingText, alone: &Entry, suffices: bool) -> Result<(), Memory>
    ensures { OnOk result (text.new ≡ text.old ++ alone_line alone.now suffices) }
{
    if suffices {
        return text.put("alone yes\n");
    }
    text.put("alone no ")?;
    text.put(entry_word(alone))?;
    text.put("\n")
}
