//! Lines of nodes that say nearly the same as one before.
ghost use Rattle.std.specs.Prelude.{◌≡◌, ◌+◌, ◌*◌, ◌<◌, ◌∷◌, ◌++◌, None, Some, IfSome, decimal};
ghost use Rattle.std.specs.Fmt.{signed_decimal};
ghost use Rattle.ttp_base.specs.Text.{newline};
ghost use Rattle.line_reader.specs.TraceLines.{Fits, FitsOffset};
ghost use Rattle.whole_trace.specs.Alike.{said_by, IsNodeFront};

use crate::text::{put_behind, put_head, put_told};
use line_form::signed_in;
use line_reader::{NodeLine, Word};
use line_text::{after_label, cut_line};
use std::marker::Model;
use ttp_base::Line;

// Offsets are nearer to 0.
const OFFSETS: u64 = 1_000_000_000_000_000_000;

/// The newest line of a node that was read word by word, if there is one, and the pieces of it that the lines of other
/// nodes mostly share: in a slot they say the same but for their numbers, the frames that they accepted, and their clocks.
/// Of such a line these are read, and the pieces are compared. Contracts see it as what the newest line says.
///
/// It takes no memory.
#[derive(Drop)]
pub(crate) struct Alike {
    newest: Option<NodeLine>,
    // What the lines of the slot begin with.
    head: Line,
    // What stands behind the node's number, up to the frames that it accepted.
    judged: Line,
    // And what stands behind these, up to its clock.
    behind: Line,
}

impl Model for Alike {
    ghost use Rattle.std.specs.Prelude.{Option};
    ghost use Rattle.line_reader.specs.declared.trace_line.NodeLine.{NodeLine};
    ghost use Rattle.whole_trace.specs.Alike.{HavePieces};

    ghost Value = { Option NodeLine };

    ghost view = { λ a. a.newest };

    ghost invariant = { λ a. HavePieces a.newest a.head a.judged a.behind };
}

// A digit at the front of bytes, and what follows it.
fn digit_in_front(bytes: &[u8]) -> Option<(u8, &[u8])>
    ensures { IfSome result (λ r. (bytes.now ≡ (48 + r.0) ∷ r.1.now) × (r.0 < 10)) }
{
    match bytes {
        [digit, rest @ ..] => {
            if *digit < b'0' || b'9' < *digit {
                return None;
            }
            Some((*digit - b'0', rest))
        }
        [] => None,
    }
}

// A number of one digit or of two at the front of bytes, and what follows it.
#[tactic(auto, using(crate::proofs::Pieces::one_digit, crate::proofs::Pieces::two_digits))]
fn number_in_front(bytes: &[u8]) -> Option<(u8, &[u8])>
    ensures { IfSome result (λ r. (bytes.now ≡ decimal r.0 ++ r.1.now) × (r.0 < 100)) }
{
    let (high, rest) = digit_in_front(bytes)?;
    match digit_in_front(rest) {
        Some((low, behind)) => {
            if high == 0 {
                return None;
            }
            Some((10 * high + low, behind))
        }
        None => Some((high, rest)),
    }
}

// A clock, with the line feed behind it.
fn clock_in(bytes: &[u8]) -> Option<i64>
    ensures { IfSome result (λ z. (bytes.now ≡ signed_decimal z ++ newline) × FitsOffset z) }
{
    if bytes.is_empty() {
        return None;
    }
    let (word, end) = bytes.split_at(bytes.len() - 1);
    if end[0] == b'\n' {
        signed_in(word, OFFSETS)
    } else {
        None
    }
}

impl Alike {
    /// With no line yet.
    pub(crate) fn new() -> Alike
        ensures { result ≡ None }
    {
        Alike {
            newest: None,
            head: Line::new(),
            judged: Line::new(),
            behind: Line::new(),
        }
    }

    /// What the line of a node at the front of a text says, and what follows it there, where its pieces are those of the
    /// newest line. Of such a line the end is not looked for.
    pub(crate) fn read<'a>(&self, text: &'a [u8]) -> Option<(NodeLine, &'a [u8])>
        ensures { IfSome result (λ r. IsNodeFront text.now r.0 r.1.now) }
    {
        let newest = self.newest?;
        let rest = after_label(self.head.bytes(), text)?;
        let (node, rest) = number_in_front(rest)?;
        let rest = after_label(self.judged.bytes(), rest)?;
        let (accepted, rest) = number_in_front(rest)?;
        let rest = after_label(self.behind.bytes(), rest)?;
        let (last, behind) = cut_line(rest);
        let offset = clock_in(last)?;
        let node = NodeLine {
            slot: newest.slot,
            node,
            word: newest.word,
            peer: newest.peer,
            message: newest.message,
            wide: newest.wide,
            members: newest.members,
            accepted,
            rejected: newest.rejected,
            ack: newest.ack,
            offset,
        };
        Some((node, behind))
    }

    // Keeps the pieces of a line.
    fn keep(&mut self, node: &NodeLine)
        requires { Fits (said_by node.now) }
        ensures { self.new ≡ Some node.now }
    {
        self.head.clear();
        put_head(&mut self.head, node.slot);
        self.judged.clear();
        put_told(
            &mut self.judged,
            node.word,
            node.peer,
            node.message,
            node.wide,
            node.members,
        );
        self.behind.clear();
        put_behind(&mut self.behind, node.rejected, node.ack);
        self.newest = Some(*node);
    }

    /// Takes a line that was read word by word. That of a sender is not kept, since no other one in its slot is like it.
    pub(crate) fn note(&mut self, node: &NodeLine)
        requires { Fits (said_by node.now) }
    {
        match node.word {
            Word::Send => {}
            _ => self.keep(node),
        }
    }
}
