//! The words of a node's line.
ghost use Rattle.std.specs.Prelude.{◌≡◌, ◌+◌, ◌≤◌, ◌++◌, length, codes};
ghost use Rattle.ttp_base.specs.Text.{hex};
ghost use Rattle.ttp_world.specs.Trace.{verdict_word, reason_word, entry_word, member_digits, peer_of};

use ttp_base::Line;
use ttp_world::{Entry, Medl, Reason, Verdict};

/// What stands before the node of which a word speaks.
pub const PEER: &str = " peer ";

/// Adds a text of a known size. A copy of it can't lie in the line, so this takes few instructions.
#[inline(always)]
pub(crate) fn put_array<const N: usize>(line: &mut Line, text: &[u8; N])
    requires { length line.old + N ≤ 640 }
    ensures { line.new ≡ line.old ++ text.now }
{
    let copy = *text;
    line.put_bytes(&copy);
}

fn put_verdict(line: &mut Line, verdict: Verdict)
    requires { length line.old + 30 ≤ 640 }
    ensures text { line.new ≡ line.old ++ codes " " ++ verdict_word verdict ++ codes " peer " }
    ensures short { length line.new ≤ length line.old + 30 }
{
    match verdict {
        Verdict::Null => put_array(line, b" null peer "),
        Verdict::Invalid => put_array(line, b" invalid peer "),
        Verdict::Incorrect => put_array(line, b" incorrect peer "),
        Verdict::Correct => put_array(line, b" correct peer "),
        Verdict::Tentative => put_array(line, b" tentative peer "),
        Verdict::Denied => put_array(line, b" denied peer "),
    }
}

fn reason_word(reason: Reason) -> &'static str
    ensures text { result.now ≡ reason_word reason }
    ensures short { length result.now ≤ 14 }
{
    match reason {
        Reason::Denied => "denied",
        Reason::Unacknowledged => "unacknowledged",
        Reason::Clique => "clique",
    }
}

fn put_reason(line: &mut Line, reason: Reason)
    requires { length line.old + 30 ≤ 640 }
    ensures text { line.new ≡ line.old ++ codes " " ++ reason_word reason ++ codes " peer " }
    ensures short { length line.new ≤ length line.old + 30 }
{
    line.put_text(" ");
    line.put_text(reason_word(reason));
    line.put_text(PEER);
}

/// Adds the word for what a node did in a slot, and what stands before its peer.
pub(crate) fn put_word(line: &mut Line, entry: &Entry)
    requires { length line.old + 30 ≤ 640 }
    ensures text { line.new ≡ line.old ++ codes " " ++ entry_word entry.now ++ codes " peer " }
    ensures short { length line.new ≤ length line.old + 30 }
{
    match entry {
        Entry::Off => put_array(line, b" off peer "),
        Entry::Waited => put_array(line, b" wait peer "),
        Entry::Retried => put_array(line, b" retry peer "),
        Entry::Gone => put_array(line, b" gone peer "),
        Entry::Started => put_array(line, b" start peer "),
        Entry::Sent { .. } => put_array(line, b" send peer "),
        Entry::Joined { .. } => put_array(line, b" join peer "),
        Entry::Judged { verdict, .. } => put_verdict(line, *verdict),
        Entry::Left { reason, .. } => put_reason(line, *reason),
    }
}

// Adds an empty membership, and what a line shows behind it before its counts.
fn put_nobody(line: &mut Line, list: &Medl)
    requires { length line.old + 20 ≤ 640 }
    ensures text { line.new ≡ line.old ++ hex (member_digits list.now) 0 ++ codes " acc " }
    ensures short { length line.new ≤ length line.old + 20 }
{
    if list.is_wide() {
        put_array(line, b"000000 acc ");
    } else {
        put_array(line, b"0000 acc ");
    }
}

/// Adds what a line shows of a node that is off, between its number and its counts.
pub(crate) fn put_off(line: &mut Line, list: &Medl)
    requires { length line.old + 50 ≤ 640 }
    ensures text { line.new ≡ line.old
        ++ codes " off peer - msg - mem " ++ hex (member_digits list.now) 0 ++ codes " acc " }
    ensures short { length line.new ≤ length line.old + 50 }
{
    put_array(line, b" off peer - msg - mem ");
    put_nobody(line, list);
}

/// Adds what a line shows of a node that is gone, between its number and its counts.
pub(crate) fn put_gone(line: &mut Line, list: &Medl)
    requires { length line.old + 50 ≤ 640 }
    ensures text { line.new ≡ line.old
        ++ codes " gone peer - msg - mem " ++ hex (member_digits list.now) 0 ++ codes " acc " }
    ensures short { length line.new ≤ length line.old + 50 }
{
    put_array(line, b" gone peer - msg - mem ");
    put_nobody(line, list);
}

/// The node that an entry speaks of, beside the one whose entry it is.
pub(crate) fn peer_of(node: u8, entry: &Entry) -> Option<u8>
    ensures { result ≡ peer_of node entry.now }
{
    match entry {
        Entry::Off | Entry::Waited | Entry::Retried | Entry::Gone => None,
        Entry::Started | Entry::Sent { .. } => Some(node),
        Entry::Joined { sender, .. } | Entry::Judged { sender, .. } => Some(*sender),
        Entry::Left { peer, .. } => Some(*peer),
    }
}
