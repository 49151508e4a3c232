//! Which slots a picture shows.
ghost use Rattle.std.specs.Prelude.{◌≡◌};
ghost use Rattle.std.specs.List.{list_any, list_all};
ghost use Rattle.picture_text.specs.Window.{is_strange_word, is_quiet_word, differ, is_strange, is_busy, is_sought};

use line_reader::Word;
use shown_slot::agreement;
use whole_trace::{NodeShown, SlotShown};

/// The slots from `first` to `last`, both of them too.
#[derive(Clone, Copy)]
pub struct Span {
    pub first: u32,
    pub last: u32,
}

/// What a slot is looked for by.
#[derive(Clone, Copy)]
pub(crate) enum Sought {
    Strange,
    Busy,
}

fn is_strange_word(word: Word) -> bool
    ensures { result ≡ is_strange_word word }
{
    match word {
        Word::Tentative
        | Word::Incorrect
        | Word::Invalid
        | Word::Denied
        | Word::Unacknowledged
        | Word::Clique => true,
        _ => false,
    }
}

fn is_quiet_word(word: Word) -> bool
    ensures { result ≡ is_quiet_word word }
{
    match word {
        Word::Off | Word::Wait => true,
        _ => false,
    }
}

// Whether two holders hold different members.
fn differ(nodes: &[NodeShown]) -> bool
    ensures { result ≡ differ nodes.now }
{
    match agreement(nodes) {
        Some(same) => !same,
        None => false,
    }
}

fn has_strange_word(slot: &SlotShown<'_>) -> bool
    ensures { result ≡ list_any (λ node. is_strange_word node.word) slot.now.nodes }
{
    slot.nodes().iter().any(|node| is_strange_word(node.word))
}

// Whether holders differ in a slot, or a node has a strange word.
fn is_strange(slot: &SlotShown<'_>) -> bool
    ensures { result ≡ is_strange slot.now }
{
    differ(slot.nodes()) || has_strange_word(slot)
}

fn is_quiet(slot: &SlotShown<'_>) -> bool
    ensures { result ≡ list_all (λ node. is_quiet_word node.word) slot.now.nodes }
{
    slot.nodes().iter().all(|node| is_quiet_word(node.word))
}

/// Whether a slot is one that is sought.
pub(crate) fn is_sought(sought: Sought, slot: &SlotShown<'_>) -> bool
    ensures { result ≡ is_sought sought slot.now }
{
    match sought {
        Sought::Strange => is_strange(slot),
        Sought::Busy => !is_quiet(slot),
    }
}
