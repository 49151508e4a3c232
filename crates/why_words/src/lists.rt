//! Numbers with commas between them.
ghost use Rattle.std.specs.Prelude.{◌≡◌, ◌++◌, get_or, OnOk};
ghost use Rattle.std.specs.Fmt.{decimal};
ghost use Rattle.fault_runs.specs.Listing.{comma_before, dash_for};
ghost use Rattle.causes.specs.WhyText.{number_of_line, number_word, line_number_words, number_words, node_word};

use causes::{LineNumbers, ScriptLine};
use ttp_base::{GrowingText, Memory};

/// A comma, unless the word of this place is the first.
pub(crate) fn put_comma(text: &mut GrowingText, place: usize) -> Result<(), Memory>
    ensures { OnOk result (text.new ≡ text.old ++ comma_before place) }
{
    if place == 0 { Ok(()) } else { text.put(",") }
}

/// A dash where there are no words.
pub(crate) fn put_dash(text: &mut GrowingText, count: usize) -> Result<(), Memory>
    ensures { OnOk result (text.new ≡ text.old ++ dash_for count) }
{
    if count == 0 { text.put("-") } else { Ok(()) }
}

// The number of one of these.
fn at_or_none(numbers: &[u32], place: usize) -> u32
    ensures { result ≡ get_or numbers.now place 0 }
{
    match numbers.get(place) {
        Some(number) => *number,
        None => 0,
    }
}

/// The number of a line in the file of its script, 0 where it has none.
pub fn number_of(numbers: &LineNumbers, line: ScriptLine) -> u32
    ensures { result ≡ number_of_line numbers.now line }
{
    match line {
        ScriptLine::Event(place) => at_or_none(numbers.events.as_slice(), place),
        ScriptLine::On(node) => at_or_none(numbers.on.as_slice(), usize::from(node)),
        ScriptLine::Drift(node) => at_or_none(numbers.drift.as_slice(), usize::from(node)),
    }
}

/// Adds the number of a line.
pub(crate) fn put_number_of(
    text: &mut GrowingText,
    numbers: &LineNumbers,
    line: ScriptLine,
) -> Result<(), Memory>
    ensures { OnOk result (text.new ≡ text.old ++ number_word numbers.now line) }
{
    text.put_number(u64::from(number_of(numbers, line)))
}

/// Adds the numbers of lines, as they stand.
pub(crate) fn put_numbers_of(
    text: &mut GrowingText,
    numbers: &LineNumbers,
    lines: &[ScriptLine],
) -> Result<(), Memory>
    ensures { OnOk result (text.new ≡ text.old ++ line_number_words numbers.now lines.now) }
{
    for (place, line) in lines.iter().enumerate() {
        put_comma(text, place)?;
        put_number_of(text, numbers, *line)?;
    }
    put_dash(text, lines.len())
}

// Adds a node's number.
fn put_number(text: &mut GrowingText, node: u8) -> Result<(), Memory>
    ensures { OnOk result (text.new ≡ text.old ++ decimal node) }
{
    text.put_number(u64::from(node))
}

/// Adds the numbers of nodes.
pub(crate) fn put_nodes(text: &mut GrowingText, nodes: &[u8]) -> Result<(), Memory>
    ensures { OnOk result (text.new ≡ text.old ++ number_words nodes.now) }
{
    for (place, node) in nodes.iter().enumerate() {
        put_comma(text, place)?;
        put_number(text, *node)?;
    }
    put_dash(text, nodes.len())
}

/// Adds `node` and its number.
pub(crate) fn put_node(text: &mut GrowingText, node: u8) -> Result<(), Memory>
    ensures { OnOk result (text.new ≡ text.old ++ node_word node) }
{
    text.put("node ")?;
    text.put_number(u64::from(node))
}

/// Adds a text and a node behind it.
pub(crate) fn put_node_behind(text: &mut GrowingText, front: &str, node: u8) -> Result<(), Memory>
    ensures { OnOk result (text.new ≡ text.old ++ (front.now ++ node_word node)) }
{
    text.put(front)?;
    put_node(text, node)
}

/// Adds a text and a number behind it.
pub(crate) fn put_number_behind(
    text: &mut GrowingText,
    front: &str,
    number: u32,
) -> Result<(), Memory>
    ensures { OnOk result (text.new ≡ text.old ++ (front.now ++ decimal number)) }
{
    text.put(front)?;
    text.put_number(u64::from(number))
}

/// Adds two nodes with a text between them.
pub(crate) fn put_pair(
    text: &mut GrowingText,
    node: u8,
    between: &str,
    other: u8,
) -> Result<(), Memory>
    ensures { OnOk result (text.new ≡ text.old ++ (node_word node ++ between.now ++ node_word other)) }
{
    put_node(text, node)?;
    put_node_behind(text, between, other)
}

/// Adds three.
pub(crate) fn put_three(
    text: &mut GrowingText,
    node: u8,
    before_second: &str,
    second: u8,
    before_third: &str,
    third: u8,
) -> Result<(), Memory>
    ensures { OnOk result (text.new ≡ text.old ++ (node_word node ++ before_second.now ++ node_word second
        ++ before_third.now ++ node_word third)) }
{
    put_pair(text, node, before_second, second)?;
    put_node_behind(text, before_third, third)
}
