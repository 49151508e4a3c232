//! A place in the text of a trace.
ghost use Rattle.std.specs.Prelude.{◌≡◌, ◌<◌, [], length, get_or, drop, Some, Err, IfSome, IsNone};
ghost use Rattle.ttp_base.specs.Text.{lines_of};
ghost use Rattle.line_reader.specs.declared.trace_line.TraceLine.{TraceLine as Line};
ghost use Rattle.line_reader.specs.declared.trace_line.TraceLine.TheVariants as said;
ghost use Rattle.whole_trace.specs.declared.due.Due.TheVariants as due;
ghost use Rattle.whole_trace.specs.declared.shown.NodeShown.{NodeShown as Shown};
ghost use Rattle.whole_trace.specs.Alike.{said_by, IsNodeFront};
ghost use Rattle.whole_trace.specs.Steps.{IsLineStep, GoesOn, IsNodeStep};
ghost use Rattle.whole_trace.specs.Whole.{value_of, judged};

use crate::alike::Alike;
use crate::due::{Due, due_after, is_due_node, next_node};
use crate::shown::{Head, NodeShown};
use line_reader::{NodeLine, TraceLine, read_line, read_node_line};
use memchr::memchr;

/// What is left of a text before one of its lines, and what is due there.
#[derive(Clone, Copy)]
pub(crate) struct Place<'a> {
    pub(crate) due: Due,
    pub(crate) rest: &'a [u8],
}

/// A line that was due, and the place behind it.
#[derive(Drop)]
pub(crate) struct Step<'a> {
    pub(crate) line: TraceLine,
    pub(crate) behind: Place<'a>,
}

// The first line of a text, with its line feed if it has one, and what follows it. The line feed is looked for many
// bytes at a time.
fn cut_line(text: &[u8]) -> (&[u8], &[u8])
    ensures first { get_or (lines_of text.now) 0 [] ≡ result.0.now }
    ensures others { drop 1 (lines_of text.now) ≡ lines_of result.1.now }
{
    match memchr(b'\n', text) {
        Some(end) => text.split_at(end + 1),
        None => (text, &[]),
    }
}

// What a line says, its line feed with it.
fn value_of(line: &[u8]) -> Option<TraceLine>
    ensures { result ≡ value_of line.now }
{
    if line.is_empty() {
        return None;
    }
    let (bytes, end) = line.split_at(line.len() - 1);
    if end == b"\n".as_slice() {
        read_line(bytes)
    } else {
        None
    }
}

// What the line of a node says, its line feed with it, if it is one. It is read word by word.
fn words_of(text: &[u8]) -> Option<NodeLine>
    ensures { IfSome result (λ n. value_of text.now ≡ Some (said_by n)) }
{
    if text.is_empty() {
        return None;
    }
    let (bytes, end) = text.split_at(text.len() - 1);
    if end == b"\n".as_slice() {
        read_node_line(bytes)
    } else {
        None
    }
}

// What the first line of a text says, if it is that of a node, and what follows it. It is read word by word where it is
// not made of the pieces of the newest line.
fn node_in_front<'a>(text: &'a [u8], alike: &mut Alike) -> Option<(NodeLine, &'a [u8])>
    ensures { IfSome result (λ r. IsNodeFront text.now r.0 r.1.now) }
{
    if let Some(found) = alike.read(text) {
        return Some(found);
    }
    let (line, behind) = cut_line(text);
    let node = words_of(line)?;
    alike.note(&node);
    Some((node, behind))
}

// What the line of a node says, and the place behind it, where it is the first line that is left and is due. This is
// `Place::next` for these lines, which are most of a trace, with less to move.
fn due_node<'a>(
    head: Head,
    slot: u32,
    node: u8,
    rest: &'a [u8],
    alike: &mut Alike,
) -> Option<(NodeShown, Place<'a>)>
    ensures step { IfSome result (λ r. (v : Line) × IsLineStep
        (due.Node head slot node) rest.now v r.1.due r.1.rest.now) }
    ensures node { IfSome result (λ r. IsNodeStep (due.Node head slot node) rest.now r.0 r.1.due r.1.rest.now) }
{
    let Some((value, behind)) = node_in_front(rest, alike) else {
        return None;
    };
    if !is_due_node(&head, slot, node, &value) {
        return None;
    }
    let shown = NodeShown {
        word: value.word,
        peer: value.peer,
        message: value.message,
        members: value.members,
        accepted: value.accepted,
        rejected: value.rejected,
        ack: value.ack,
        offset: value.offset,
    };
    let place = Place {
        due: next_node(head, slot, node),
        rest: behind,
    };
    Some((shown, place))
}

// The same of the first line of the next slot, where no line of a host comes before it.
fn later_node<'a>(
    head: Head,
    slot: u32,
    has_read: bool,
    rest: &'a [u8],
    alike: &mut Alike,
) -> Option<(NodeShown, Place<'a>)>
    ensures step { IfSome result (λ r. (v : Line) × IsLineStep
        (due.Host head slot has_read) rest.now v r.1.due r.1.rest.now) }
    ensures node { IfSome result (λ r. IsNodeStep (due.Host head slot has_read) rest.now r.0 r.1.due r.1.rest.now) }
{
    if head.slots <= slot {
        return None;
    }
    if head.slots <= slot + 1 {
        return None;
    }
    match due_node(head, slot + 1, 0, rest, alike) {
        Some(found) => Some(found),
        None => None,
    }
}

impl<'a> Place<'a> {
    /// What the line of a node says, and the place behind it, where it is the first line that is left and is due.
    #[inline(always)]
    pub(crate) fn next_shown(self, alike: &mut Alike) -> Option<(NodeShown, Place<'a>)>
        ensures step { IfSome result (λ r. (v : Line)
            × IsLineStep self.entry.due self.entry.rest.now v r.1.due r.1.rest.now) }
        ensures node { IfSome result (λ r. IsNodeStep self.entry.due self.entry.rest.now r.0 r.1.due r.1.rest.now) }
    {
        match self.due {
            Due::Node { head, slot, node } => due_node(head, slot, node, self.rest, alike),
            Due::Host {
                head,
                slot,
                has_read,
            } => later_node(head, slot, has_read, self.rest, alike),
            _ => None,
        }
    }

    /// The place behind the first line that is left, if it is due.
    pub(crate) fn behind_next(self, alike: &mut Alike) -> Option<Place<'a>>
        ensures some { IfSome result (λ p. (v : Line)
            × IsLineStep self.entry.due self.entry.rest.now v p.due p.rest.now) }
        ensures none { IsNone result → 0 < length self.entry.rest.now
            → judged self.entry.due (lines_of self.entry.rest.now) ≡ Err 1 }
    {
        if let Some((_, behind)) = self.next_shown(alike) {
            return Some(behind);
        }
        let Step { behind, .. } = self.next()?;
        Some(behind)
    }

    /// The first line that is left, if it is due. It stands apart, since its values are large and few lines need it.
    #[inline(never)]
    pub(crate) fn next(self) -> Option<Step<'a>>
        ensures some { IfSome result (λ s.
            IsLineStep self.entry.due self.entry.rest.now s.line s.behind.due s.behind.rest.now) }
        ensures none { IsNone result → 0 < length self.entry.rest.now
            → judged self.entry.due (lines_of self.entry.rest.now) ≡ Err 1 }
    {
        let (line, rest) = cut_line(self.rest);
        let line = value_of(line)?;
        let due = due_after(self.due, &line)?;
        Some(Step {
            line,
            behind: Place { due, rest },
        })
    }
}

/// The place behind the line of a node that is due in a trace. Of the line nothing but its end is looked for.
pub(crate) fn behind_node<'a>(head: Head, slot: u32, node: u8, rest: &'a [u8]) -> Place<'a>
    requires { GoesOn (due.Node head slot node) (lines_of rest.now) }
    ensures { (shown : Shown) × IsNodeStep (due.Node head slot node) rest.now shown result.due result.rest.now }
{
    let (_, behind) = cut_line(rest);
    Place {
        due: next_node(head, slot, node),
        rest: behind,
    }
}
