//! What a line says, by its first word.
ghost use Rattle.std.specs.Prelude.{◌≡◌};
ghost use Rattle.line_numbers.specs.Numbers.{line_kind, names_event};

use script_text::is_text;

/// What a line says.
#[derive(Clone, Copy)]
pub enum LineKind {
    /// When a node is switched on.
    On,
    /// How the clock of a node drifts.
    Drift,
    /// An event.
    Event,
    /// Anything else, or nothing.
    Other,
}

// Whether a word begins lines of events.
fn names_event(word: &[u8]) -> bool
    ensures { result ≡ names_event word.now }
{
    if is_text(b"send", word) {
        true
    } else if is_text(b"receive", word) {
        true
    } else if is_text(b"flip", word) {
        true
    } else if is_text(b"error", word) {
        true
    } else if is_text(b"jump", word) {
        true
    } else if is_text(b"arm", word) {
        true
    } else if is_text(b"write", word) {
        true
    } else {
        is_text(b"read", word)
    }
}

/// What a line says whose first word is this.
pub(crate) fn line_kind(word: &[u8]) -> LineKind
    ensures { result ≡ line_kind word.now }
{
    if is_text(b"on", word) {
        LineKind::On
    } else if is_text(b"drift", word) {
        LineKind::Drift
    } else if names_event(word) {
        LineKind::Event
    } else {
        LineKind::Other
    }
}
