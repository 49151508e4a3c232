//! The words of entries.
ghost use Rattle.std.specs.Prelude.{◌≡◌};
ghost use Rattle.ttp_world.specs.Trace.{verdict_word, reason_word, entry_word};

use ttp_world::{Entry, Reason, Verdict};

// The word for a verdict.
fn verdict_word(verdict: Verdict) -> &'static str
    ensures { result.now ≡ verdict_word verdict }
{
    match verdict {
        Verdict::Null => "null",
        Verdict::Invalid => "invalid",
        Verdict::Incorrect => "incorrect",
        Verdict::Correct => "correct",
        Verdict::Tentative => "tentative",
        Verdict::Denied => "denied",
    }
}

// The word for why a node left.
fn reason_word(reason: Reason) -> &'static str
    ensures { result.now ≡ reason_word reason }
{
    match reason {
        Reason::Denied => "denied",
        Reason::Unacknowledged => "unacknowledged",
        Reason::Clique => "clique",
    }
}

/// The word for what a node did in a slot.
pub fn entry_word(entry: &Entry) -> &'static str
    ensures { result.now ≡ entry_word entry.now }
{
    match entry {
        Entry::Off => "off",
        Entry::Waited => "wait",
        Entry::Retried => "retry",
        Entry::Gone => "gone",
        Entry::Started => "start",
        Entry::Sent { .. } => "send",
        Entry::Joined { .. } => "join",
        Entry::Judged { verdict, .. } => verdict_word(*verdict),
        Entry::Left { reason, .. } => reason_word(*reason),
    }
}
