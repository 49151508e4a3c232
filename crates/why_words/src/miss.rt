//! Why a channel brought no frame that is accepted.
ghost use Rattle.std.specs.Prelude.{◌≡◌, ◌++◌, flat_map, codes, OnOk};
ghost use Rattle.causes.specs.declared.cause.Miss.TheVariants as miss;
ghost use Rattle.causes.specs.WhyText.{uncorrected_words, joined_words, note_words, miss_words, node_word};
ghost use Rattle.causes.specs.WhyText.{number_word, line_number_words, number_words};

use crate::lists::{
    put_node, put_node_behind, put_nodes, put_number_behind, put_number_of, put_numbers_of,
    put_three,
};
use causes::{ClockNote, LineNumbers, Miss, ScriptLine};
use ttp_base::{GrowingText, Memory};
use ttp_world::Medl;

fn put_uncorrected(text: &mut GrowingText, note: &ClockNote) -> Result<(), Memory>
    ensures { OnOk result (text.new ≡ text.old ++ uncorrected_words note.now) }
{
    if !note.is_uncorrected {
        return Ok(());
    }
    put_node_behind(text, ", ", note.node)?;
    text.put(" not corrected")
}

fn put_joined(text: &mut GrowingText, node: u8, joined: Option<u32>) -> Result<(), Memory>
    ensures { OnOk result (text.new ≡ text.old ++ joined_words node joined) }
{
    match joined {
        Some(slot) => {
            put_node_behind(text, ", ", node)?;
            put_number_behind(text, " joined in slot ", slot)
        }
        None => Ok(()),
    }
}

fn put_note(text: &mut GrowingText, note: &ClockNote) -> Result<(), Memory>
    ensures { OnOk result (text.new ≡ text.old ++ note_words note.now) }
{
    put_uncorrected(text, note)?;
    put_joined(text, note.node, note.joined)
}

fn put_notes(text: &mut GrowingText, notes: &[ClockNote]) -> Result<(), Memory>
    ensures { OnOk result (text.new ≡ text.old ++ flat_map note_words notes.now) }
{
    for note in notes {
        put_note(text, note)?;
    }
    Ok(())
}

fn put_clock(
    text: &mut GrowingText,
    list: &Medl,
    numbers: &LineNumbers,
    deviation: i64,
    notes: &[ClockNote],
) -> Result<(), Memory>
    ensures { OnOk result (text.new ≡ text.old ++ miss_words list.now numbers.now (miss.Clock deviation notes.now)) }
{
    text.put("clock ")?;
    text.put_signed(deviation)?;
    text.put(" past window ")?;
    text.put_signed(list.window)?;
    put_notes(text, notes)
}

fn put_left(
    text: &mut GrowingText,
    list: &Medl,
    numbers: &LineNumbers,
    node: u8,
    slot: u32,
) -> Result<(), Memory>
    ensures { OnOk result (text.new ≡ text.old ++ miss_words list.now numbers.now (miss.Left node slot)) }
{
    put_node(text, node)?;
    put_number_behind(text, " left in slot ", slot)
}

fn put_differs(
    text: &mut GrowingText,
    list: &Medl,
    numbers: &LineNumbers,
    holds: u8,
    member: u8,
    lacks: u8,
) -> Result<(), Memory>
    ensures { OnOk result (text.new ≡ text.old ++ miss_words list.now numbers.now (miss.Differs holds member lacks)) }
{
    put_three(text, holds, " holds ", member, " and ", lacks)?;
    text.put(" does not")
}

fn put_neither(
    text: &mut GrowingText,
    list: &Medl,
    numbers: &LineNumbers,
    sender: u8,
    receiver: u8,
    doubted: u8,
) -> Result<(), Memory>
    ensures { OnOk result (text.new ≡ text.old
        ++ miss_words list.now numbers.now (miss.HoldsNeither sender receiver doubted)) }
{
    put_three(text, sender, " holds neither ", receiver, " nor ", doubted)
}

fn put_both(
    text: &mut GrowingText,
    list: &Medl,
    numbers: &LineNumbers,
    sender: u8,
    receiver: u8,
    doubted: u8,
) -> Result<(), Memory>
    ensures { OnOk result (text.new ≡ text.old
        ++ miss_words list.now numbers.now (miss.HoldsBoth sender receiver doubted)) }
{
    put_three(text, sender, " holds ", receiver, " and ", doubted)
}

// Adds a text and the number of a line behind it.
fn put_with_line(
    text: &mut GrowingText,
    front: &str,
    numbers: &LineNumbers,
    line: ScriptLine,
) -> Result<(), Memory>
    ensures { OnOk result (text.new ≡ text.old ++ (front.now ++ number_word numbers.now line)) }
{
    text.put(front)?;
    put_number_of(text, numbers, line)
}

// Adds a text and the numbers of lines behind it.
fn put_with_lines(
    text: &mut GrowingText,
    front: &str,
    numbers: &LineNumbers,
    lines: &[ScriptLine],
) -> Result<(), Memory>
    ensures { OnOk result (text.new ≡ text.old ++ (front.now ++ line_number_words numbers.now lines.now)) }
{
    text.put(front)?;
    put_numbers_of(text, numbers, lines)
}

// Adds a node and a text behind it.
fn put_with_node(text: &mut GrowingText, node: u8, behind: &str) -> Result<(), Memory>
    ensures { OnOk result (text.new ≡ text.old ++ (node_word node ++ behind.now)) }
{
    put_node(text, node)?;
    text.put(behind)
}

// Adds a text and the numbers of nodes behind it.
fn put_collision(text: &mut GrowingText, nodes: &[u8]) -> Result<(), Memory>
    ensures { OnOk result (text.new ≡ text.old ++ (codes "collision of nodes " ++ number_words nodes.now)) }
{
    text.put("collision of nodes ")?;
    put_nodes(text, nodes)
}

/// Adds why a channel brought no frame that is accepted.
///
/// # Errors
///
/// Where memory was refused; some of it may have been added.
pub fn put_miss(
    text: &mut GrowingText,
    list: &Medl,
    numbers: &LineNumbers,
    miss: &Miss,
) -> Result<(), Memory>
    ensures { OnOk result (text.new ≡ text.old ++ miss_words list.now numbers.now miss.now) }
{
    match miss {
        Miss::Deaf(line) => put_with_line(text, "AB silence of line ", numbers, *line),
        Miss::Off(node) => put_with_node(text, *node, " is off"),
        Miss::Left { node, slot } => put_left(text, list, numbers, *node, *slot),
        Miss::Listens(node) => put_with_node(text, *node, " listens"),
        Miss::Retries(node) => put_with_node(text, *node, " retries"),
        Miss::Elsewhere(node) => put_with_node(text, *node, " is at another place"),
        Miss::Silenced(lines) => put_with_lines(
            text,
            "silence of line ",
            numbers,
            lines.as_slice(),
        ),
        Miss::Noisy(line) => put_with_line(text, "noise of line ", numbers, *line),
        Miss::Collision(nodes) => put_collision(text, nodes.as_slice()),
        Miss::Flipped(lines) => put_with_lines(text, "flips of line ", numbers, lines.as_slice()),
        Miss::ColdStart(node) => put_node_behind(text, "cold start of ", *node),
        Miss::Clock { deviation, notes } => put_clock(
            text,
            list,
            numbers,
            *deviation,
            notes.as_slice(),
        ),
        Miss::Differs {
            holds,
            member,
            lacks,
        } => put_differs(text, list, numbers, *holds, *member, *lacks),
        Miss::HoldsNeither {
            sender,
            receiver,
            doubted,
        } => put_neither(text, list, numbers, *sender, *receiver, *doubted),
        Miss::HoldsBoth {
            sender,
            receiver,
            doubted,
        } => put_both(text, list, numbers, *sender, *receiver, *doubted),
    }
}
