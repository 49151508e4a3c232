//! The lines of the nodes after a slot.
ghost use Rattle.std.specs.Prelude.{◌≡◌, ◌≢◌, ◌+◌, ◌≤◌, [], ◌∷◌, ◌++◌, length, codes, MatchBool, Some, IfSome, OnOk, OnErr, option_map};
ghost use Rattle.ttp_base.specs.Outside.{WroteLines, CutShort};
ghost use Rattle.ttp_base.specs.NodeSet.{set_bits};
ghost use Rattle.ttp_base.specs.Text.{hex};
ghost use Rattle.ttp_world.specs.declared.node.Ack.TheVariants as ack;
ghost use Rattle.ttp_world.specs.Trace.{number_or_dash, ack_word, member_digits};
ghost use Rattle.line_text.specs.LineParts.{HasDigits, listed_line, head_text, shown_text, ack_text, end_text};
ghost use Rattle.line_text.specs.LineParts.{entry_text, text_of_judged, with_rest};
ghost use Rattle.line_text.specs.Labels.{after_label};

use crate::labels::after_label;
use crate::shared::{put_ack_word, put_number_or_dash};
use crate::words::{peer_of, put_array, put_gone, put_off, put_word};
use std::marker::Model;
use ttp_base::{Failed, Line, NodeSet, Sink};
use ttp_world::{Ack, Entry, Medl, NodeState, Verdict};

/// How a node judged a slot, as its line shows it.
#[derive(Clone, Copy)]
pub(crate) struct Judged {
    wide: bool,
    sender: u8,
    verdict: Verdict,
    message: Option<u64>,
    // The members' word.
    bits: u32,
}

// How long a text of a judgement may be that is kept. All of them are shorter.
const KEPT: usize = 64;

/// The newest judgement that a line showed, and what that shows between the node's number and its counts.
/// Contracts see both.
#[derive(Drop)]
struct Told {
    judged: Option<Judged>,
    // The text, and what is of no account behind it.
    text: [u8; 64],
    len: usize,
}

impl Model for Told {
    ghost use Rattle.std.specs.Prelude.{take};
    ghost use Rattle.line_text.specs.LineParts.{ToldState, TellsJudgement};

    ghost Value = { ToldState };

    ghost view = { λ t. record { judged = t.judged; text = take t.len t.text } };

    ghost invariant = { λ t. TellsJudgement t.judged t.len (take t.len t.text) };
}

/// Where the lines of nodes are formed, one after another. Contracts see it as the slot whose lines they
/// are.
///
/// What all lines of a slot begin with is formed once. Nodes mostly judge a slot alike, so what the newest
/// line shows of that is kept too. It takes no memory.
#[derive(Drop)]
pub struct NodeLines {
    slot: u32,
    // The newest line, and how much of it all lines of the slot begin with.
    line: Line,
    head: usize,
    told: Told,
}

impl Model for NodeLines {
    ghost use Rattle.std.specs.Prelude.{ℕ};
    ghost use Rattle.line_text.specs.LineParts.{IsLineBegun};

    ghost Value = { ℕ };

    ghost view = { λ l. l.slot };

    ghost invariant = { λ l. IsLineBegun l.slot l.head l.line };
}

#[tactic(auto, using(ttp_base::proofs::Room::room))]
fn put_entry(line: &mut Line, node: u8, entry: &Entry)
    requires { length line.old + 50 ≤ 640 }
    ensures text { line.new ≡ line.old ++ entry_text node entry.now }
    ensures short { length line.new ≤ length line.old + 50 }
{
    put_word(line, entry);
    put_number_or_dash(line, peer_of(node, entry).map(u64::from));
}

#[tactic(auto, using(ttp_base::proofs::Room::room))]
fn put_message(line: &mut Line, message: Option<u64>)
    requires { length line.old + 30 ≤ 640 }
    ensures text { line.new ≡ line.old ++ codes " msg " ++ number_or_dash message }
    ensures short { length line.new ≤ length line.old + 30 }
{
    put_array(line, b" msg ");
    put_number_or_dash(line, message);
}

// Adds the members in the digits that the list gives.
#[tactic(auto, using(ttp_base::proofs::Room::room))]
fn put_members(line: &mut Line, list: &Medl, state: &NodeState)
    requires room { length line.old + 30 ≤ 640 }
    requires digits { HasDigits list.now state.now }
    ensures text { line.new ≡ line.old ++ codes " mem " ++ hex (member_digits list.now) (set_bits state.now.members) }
    ensures short { length line.new ≤ length line.old + 30 }
{
    let digits = if list.is_wide() { 6 } else { 4 };
    put_array(line, b" mem ");
    line.put_hex(u64::from(state.members.bits()), digits);
}

// Adds what a line shows between the node's number and its counts.
#[tactic(auto, using(ttp_base::proofs::Room::room))]
fn put_shown(line: &mut Line, list: &Medl, node: u8, state: &NodeState, message: Option<u64>)
    requires room { length line.old + 130 ≤ 640 }
    requires digits { HasDigits list.now state.now }
    ensures text { line.new ≡ line.old ++ shown_text list.now node state.now message }
    ensures short { length line.new ≤ length line.old + 115 }
{
    put_entry(line, node, &state.entry);
    put_message(line, message);
    put_members(line, list, state);
    put_array(line, b" acc ");
}

fn is_same_message(one: Option<u64>, other: Option<u64>) -> bool
    ensures { MatchBool result (one ≡ other) (one ≢ other) }
{
    match (one, other) {
        (None, None) => true,
        (Some(one), Some(other)) => one == other,
        _ => false,
    }
}

// Whether both are the same, so that lines show the same of them.
fn is_same_judgement(one: &Judged, other: &Judged) -> bool
    ensures { MatchBool result (one.now ≡ other.now) (one.now ≢ other.now) }
{
    one.bits == other.bits
        && one.sender == other.sender
        && one.verdict == other.verdict
        && one.wide == other.wide
        && is_same_message(one.message, other.message)
}

impl Told {
    fn nothing() -> Told {
        Told {
            judged: None,
            text: [0; 64],
            len: 0,
        }
    }

    // Whether this judgement is the newest that was told.
    fn tells(&self, judged: &Judged) -> bool
        ensures { MatchBool result (self.now.judged ≡ Some judged.now) (self.now.judged ≢ Some judged.now) }
    {
        match &self.judged {
            Some(told) => is_same_judgement(told, judged),
            None => false,
        }
    }

    // Keeps the text of a judgement, if there is room for it.
    fn keep(&mut self, judged: Judged, text: &[u8])
        requires { text.now ≡ text_of_judged judged }
    {
        if text.len() <= KEPT {
            self.text[..text.len()].copy_from_slice(text);
            self.len = text.len();
            self.judged = Some(judged);
        }
    }

    // Adds the text. All the room for it is copied, since a copy of a known size takes few instructions.
    #[inline(always)]
    fn put(&self, line: &mut Line)
        requires { length line.old + 64 ≤ 640 }
        ensures text { line.new ≡ line.old ++ self.now.text }
        ensures told { IfSome self.now.judged (λ j. self.now.text ≡ text_of_judged j) }
        ensures short { length line.new ≤ length line.old + 64 }
    {
        let end = line.len() + self.len;
        let text = self.text;
        line.put_bytes(&text);
        line.cut(end);
    }
}

// Adds what a line shows between the node's number and its counts, and keeps the text.
#[inline(never)]
fn put_judged(
    line: &mut Line,
    told: &mut Told,
    list: &Medl,
    node: u8,
    state: &NodeState,
    judged: Judged,
)
    requires room { length line.old + 130 ≤ 640 }
    requires digits { HasDigits list.now state.now }
    requires judged { shown_text list.now node state.now judged.message ≡ text_of_judged judged }
    ensures text { line.new ≡ line.old ++ shown_text list.now node state.now judged.message }
    ensures short { length line.new ≤ length line.old + 115 }
{
    let start = line.len();
    put_shown(line, list, node, state, judged.message);
    told.keep(judged, &line.bytes()[start..]);
}

// Adds what a line shows between the node's number and its counts. Where the node judged the slot, it is
// formed only if it is not what the line before showed, and of a node that is off or gone it is a text.
#[inline(always)]
fn put_state(
    line: &mut Line,
    told: &mut Told,
    list: &Medl,
    node: u8,
    state: &NodeState,
    message: Option<u64>,
)
    requires room { length line.old + 130 ≤ 640 }
    requires digits { HasDigits list.now state.now }
    ensures text { line.new ≡ line.old ++ shown_text list.now node state.now message }
    ensures short { length line.new ≤ length line.old + 115 }
{
    match (&state.entry, message, state.members.bits()) {
        (
            Entry::Judged {
                sender,
                verdict,
                ..
            },
            message,
            bits,
        ) => {
            let judged = Judged {
                wide: list.is_wide(),
                sender: *sender,
                verdict: *verdict,
                message,
                bits,
            };
            if told.tells(&judged) {
                told.put(line);
            } else {
                put_judged(line, told, list, node, state, judged);
            }
        }
        (Entry::Gone, None, 0) => put_gone(line, list),
        (Entry::Off, None, 0) => put_off(line, list),
        _ => put_shown(line, list, node, state, message),
    }
}

#[tactic(auto, using(ttp_base::proofs::Room::room))]
fn put_head(line: &mut Line, slot: u32)
    requires { length line.old + 40 ≤ 640 }
    ensures text { line.new ≡ line.old ++ head_text slot }
    ensures short { length line.new ≤ length line.old + 40 }
{
    line.put_text("slot ");
    line.put_number(u64::from(slot));
    line.put_text(" node ");
}

// Adds what a line shows behind the accepted frames. It stands apart, since most lines end in a text.
#[inline(never)]
#[tactic(auto, using(ttp_base::proofs::Room::room))]
fn put_any_end(line: &mut Line, state: &NodeState)
    requires { length line.old + 130 ≤ 640 }
    ensures { line.new ≡ line.old ++ end_text state.now.rejected state.now.ack state.now.offset }
{
    put_array(line, b" rej ");
    line.put_number(u64::from(state.rejected));
    put_array(line, b" ack ");
    put_ack_word(line, state.ack);
    put_array(line, b" clock ");
    line.put_signed(state.offset);
    line.put_text("\n");
}

// Adds that nothing was rejected and no acknowledgement is open.
#[tactic(auto, using(ttp_base::proofs::Room::room, std::proofs::lemmas::Fmt::decimal_digit))]
fn put_closed(line: &mut Line)
    requires { length line.old + 30 ≤ 640 }
    ensures text { line.new ≡ line.old ++ ack_text 0 ack.Closed }
    ensures short { length line.new ≤ length line.old + 30 }
{
    put_array(line, b" rej 0 ack none clock ");
}

// The same as `put_any_end` where that holds.
#[inline(always)]
#[tactic(auto, using(ttp_base::proofs::Room::room))]
fn put_closed_end(line: &mut Line, offset: i64)
    requires { length line.old + 130 ≤ 640 }
    ensures { line.new ≡ line.old ++ end_text 0 ack.Closed offset }
{
    put_closed(line);
    line.put_signed(offset);
    line.put_text("\n");
}

// The same, by a text for the cases that are by far the most frequent.
#[inline(always)]
#[tactic(auto, using(ttp_base::proofs::Room::room, std::proofs::lemmas::Fmt::decimal_digit))]
fn put_end(line: &mut Line, state: &NodeState)
    requires { length line.old + 130 ≤ 640 }
    ensures { line.new ≡ line.old ++ end_text state.now.rejected state.now.ack state.now.offset }
{
    match (state.rejected, state.ack, state.offset) {
        (0, Ack::Closed, 0) => put_array(line, b" rej 0 ack none clock 0\n"),
        (0, Ack::Closed, offset) => put_closed_end(line, offset),
        _ => put_any_end(line, state),
    }
}

// Adds all that comes behind what the lines of a slot begin with. It is inlined, so that its registers are saved
// once for it and what is done with the line.
#[inline(always)]
#[tactic(auto, using(ttp_base::proofs::Room::room))]
fn put_rest(
    line: &mut Line,
    told: &mut Told,
    list: &Medl,
    node: u8,
    state: &NodeState,
    message: Option<u64>,
)
    requires room { length line.old ≤ 40 }
    requires digits { HasDigits list.now state.now }
    ensures { line.new ≡ with_rest line.old list.now node state.now message }
{
    line.put_number(u64::from(node));
    put_state(line, told, list, node, state, message);
    line.put_number(u64::from(state.accepted));
    put_end(line, state);
}

impl NodeLines {
    /// The lines of slot 0.
    pub fn new() -> NodeLines
        ensures { result ≡ 0 }
    {
        let mut line = Line::new();
        put_head(&mut line, 0);
        NodeLines {
            slot: 0,
            head: line.len(),
            line,
            told: Told::nothing(),
        }
    }

    /// Begins the lines of a slot.
    pub fn begin(&mut self, slot: u32)
        ensures { self.new ≡ slot }
    {
        self.line.clear();
        put_head(&mut self.line, slot);
        self.head = self.line.len();
        self.slot = slot;
    }

    /// What of a text follows the line of a node after the slot, if the text begins with it.
    pub(crate) fn behind<'a>(
        &mut self,
        list: &Medl,
        node: u8,
        state: &NodeState,
        message: Option<u64>,
        text: &'a [u8],
    ) -> Option<&'a [u8]>
        requires { HasDigits list.now state.now }
        ensures slot { self.new ≡ self.old }
        ensures rest { option_map (λ p. p.now) result
            ≡ after_label (listed_line list.now self.old node state.now message) text.now }
    {
        self.line.cut(self.head);
        put_rest(&mut self.line, &mut self.told, list, node, state, message);
        after_label(self.line.bytes(), text)
    }

    /// Writes the line of a node after the slot.
    pub(crate) fn put<K: Sink>(
        &mut self,
        list: &Medl,
        node: u8,
        state: &NodeState,
        message: Option<u64>,
        out: &mut K,
    ) -> Result<(), Failed>
        requires { HasDigits list.now state.now }
        ensures slot { self.new ≡ self.old }
        ensures ok { OnOk result (WroteLines (K.output out.old) (K.output out.new)
            (listed_line list.now self.old node state.now message ∷ [])) }
        ensures failed { OnErr result (CutShort (K.output out.old) (K.output out.new)
            (listed_line list.now self.old node state.now message ∷ [])) }
    {
        self.line.cut(self.head);
        put_rest(&mut self.line, &mut self.told, list, node, state, message);
        out.write(self.line.bytes())
    }
}
