//! Lists in a line, with commas between their words.
ghost use Rattle.std.specs.Prelude.{◌≡◌, ◌+◌, ◌≤◌, ◌<◌, ◌^◌, Some, fold, IfSome, IsSomeAnd, option_map};
ghost use Rattle.line_text.specs.Numerals.{numeral_in};
ghost use Rattle.line_reader.specs.TraceLines.{slot_digits};
ghost use Rattle.whole_campaign.specs.Words.{node_digits, is_dash, is_reason, leaving_in, node_in_word, with_node_word};
ghost use Rattle.whole_campaign.specs.Words.{no_nodes_yet, nodes_listed, with_set_word, no_sets_yet, sets_listed, split_in};
ghost use Rattle.whole_campaign.specs.Words.{members_listed, words_listed};

use crate::cut::{first_listed, word_behind};
use line_form::hex_or_in;
use line_text::{after_label, numeral_in};

// The most digits of a node, and of a slot.
const NODE_DIGITS: usize = 2;

const SLOT_DIGITS: usize = 5;

/// What a list tells of its nodes.
#[derive(Clone, Copy)]
pub enum Kind {
    /// When each left, in a slot below this, and why.
    Leaving(u32),
    /// Nothing.
    Hurt,
}

/// The nodes of a list so far.
#[derive(Clone, Copy)]
pub struct NodesSoFar {
    /// The least node that may follow.
    pub least: u8,
    pub count: u8,
}

/// The memberships of a list so far.
#[derive(Clone, Copy)]
pub struct SetsSoFar {
    pub count: u64,
    /// Whether one of them has two members or more.
    pub company: bool,
}

/// A node of at most two digits.
pub(crate) fn node_numeral(word: &[u8]) -> Option<u8>
    ensures { result ≡ numeral_in node_digits word.now }
{
    let number = numeral_in(word, NODE_DIGITS)?;
    Some(number as u8)
}

/// A slot of at most five digits, or how many there are.
pub(crate) fn slot_numeral(word: &[u8]) -> Option<u32>
    ensures { result ≡ numeral_in slot_digits word.now }
{
    let number = numeral_in(word, SLOT_DIGITS)?;
    Some(number as u32)
}

fn is_dash(word: &[u8]) -> bool
    ensures { result ≡ is_dash word.now }
{
    word == b"-".as_slice()
}

#[tactic(auto, unfolding(crate::specs::Words::is_reason))]
fn is_reason(word: &[u8]) -> bool
    ensures { result ≡ is_reason word.now }
{
    word == b"denied".as_slice()
        || word == b"unacknowledged".as_slice()
        || word == b"clique".as_slice()
}

// The node that left, of a word that tells its slot and why.
#[tactic(auto, unfolding(crate::specs::Words::leaving_in))]
fn leaving_in(slots: u32, word: &[u8]) -> Option<u8>
    ensures { result ≡ leaving_in slots word.now }
{
    let (node, rest) = word_behind(b':', "", word)?;
    let (slot, rest) = word_behind(b':', ":", rest)?;
    let reason = after_label(b":".as_slice(), rest)?;
    let k = node_numeral(node)?;
    let t = slot_numeral(slot)?;
    if t < slots && is_reason(reason) {
        Some(k)
    } else {
        None
    }
}

fn node_in_word(kind: Kind, word: &[u8]) -> Option<u8>
    ensures { result ≡ node_in_word kind word.now }
{
    match kind {
        Kind::Leaving(slots) => leaving_in(slots, word),
        Kind::Hurt => node_numeral(word),
    }
}

// One word more of a list of nodes.
#[tactic(auto, unfolding(crate::specs::Words::with_node_word))]
fn with_node_word(
    kind: Kind,
    nodes: u8,
    so_far: Option<NodesSoFar>,
    word: &[u8],
) -> Option<NodesSoFar>
    requires { IfSome so_far (λ s. s.count ≤ s.least) }
    ensures value { result ≡ with_node_word kind nodes so_far word.now }
    ensures few { IfSome result (λ s. s.count ≤ s.least) }
{
    let before = so_far?;
    let k = node_in_word(kind, word)?;
    if before.least <= k && k < nodes {
        Some(NodesSoFar {
            least: k + 1,
            count: before.count + 1,
        })
    } else {
        None
    }
}

// The words of a list of nodes, one after another.
fn nodes_of_words(kind: Kind, nodes: u8, list: &[u8]) -> Option<NodesSoFar>
    ensures { result ≡ fold (with_node_word kind nodes) (Some no_nodes_yet) (words_listed list.now) }
{
    let mut so_far = Some(NodesSoFar { least: 0, count: 0 });
    let mut left = Some(list);
    while let Some(words) = left {
        let (word, others) = first_listed(words);
        so_far = with_node_word(kind, nodes, so_far, word);
        left = others;
    }
    so_far
}

/// How many nodes a list tells, if they stand in ascending order and are below this.
#[tactic(auto, unfolding(crate::specs::Words::nodes_listed))]
pub(crate) fn nodes_listed(kind: Kind, nodes: u8, list: &[u8]) -> Option<u8>
    ensures { result ≡ nodes_listed kind nodes list.now }
{
    if is_dash(list) {
        return Some(0);
    }
    let all = nodes_of_words(kind, nodes, list)?;
    Some(all.count)
}

// How many members a set has that is written in four digits or six, if all of them are below so many nodes.
#[tactic(auto, unfolding(crate::specs::Words::members_listed), using(ttp_base::proofs::NodeSets::words))]
fn members_listed(nodes: u8, word: &[u8]) -> Option<u32>
    requires { nodes ≤ 24 }
    ensures { result ≡ members_listed nodes word.now }
{
    let bits = hex_or_in(word, 4, 6)?.1 as u32;
    if bits < 1 << nodes {
        Some(bits.count_ones())
    } else {
        None
    }
}

// One word more of a list of memberships.
#[tactic(auto, unfolding(crate::specs::Words::with_set_word))]
fn with_set_word(nodes: u8, so_far: Option<SetsSoFar>, word: &[u8]) -> Option<SetsSoFar>
    requires few { nodes ≤ 24 }
    requires room { IfSome so_far (λ s. s.count + 1 < 2 ^ 64) }
    ensures value { result ≡ with_set_word nodes so_far word.now }
    ensures more { IfSome result (λ s. IsSomeAnd so_far (λ before. s.count ≡ before.count + 1)) }
{
    let before = so_far?;
    let members = members_listed(nodes, word)?;
    Some(SetsSoFar {
        count: before.count + 1,
        company: before.company || 2 <= members,
    })
}

// The words of a list of memberships, one after another.
fn sets_of_words(nodes: u8, list: &[u8]) -> Option<SetsSoFar>
    requires { nodes ≤ 24 }
    ensures { result ≡ fold (with_set_word nodes) (Some no_sets_yet) (words_listed list.now) }
{
    let mut so_far = Some(SetsSoFar {
        count: 0,
        company: false,
    });
    let mut left = Some(list);
    while let Some(words) = left {
        let (word, others) = first_listed(words);
        so_far = with_set_word(nodes, so_far, word);
        left = others;
    }
    so_far
}

/// What a list of memberships tells, if the members are below this.
#[tactic(auto, unfolding(crate::specs::Words::sets_listed))]
pub(crate) fn sets_listed(nodes: u8, list: &[u8]) -> Option<SetsSoFar>
    requires few { nodes ≤ 24 }
    ensures { result ≡ sets_listed nodes list.now }
{
    if is_dash(list) {
        return Some(SetsSoFar {
            count: 0,
            company: false,
        });
    }
    sets_of_words(nodes, list)
}

/// Whether memberships were split, by the words of the first and the last such slot.
#[tactic(auto, unfolding(crate::specs::Words::split_in))]
pub(crate) fn split_in(slots: u32, first: &[u8], last: &[u8]) -> Option<bool>
    ensures { result ≡ split_in slots first.now last.now }
{
    if is_dash(first) && is_dash(last) {
        return Some(false);
    }
    let f = slot_numeral(first)?;
    let g = slot_numeral(last)?;
    if f <= g && g < slots {
        Some(true)
    } else {
        None
    }
}
