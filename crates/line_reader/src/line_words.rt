//! The words of a line that are no numbers.
ghost use Rattle.std.specs.Prelude.{◌≡◌, ◌<◌};
ghost use Rattle.line_form.specs.Kinds.{one_of};
ghost use Rattle.line_form.specs.Forms.{field_value, past, FitsNamed};
ghost use Rattle.line_reader.specs.TraceLines.{names_peer, may_name_message, fits_word, has_size};
ghost use Rattle.line_reader.specs.TraceForms.{node_words, word_place, ack_kind, ack_told, source_kind, source_told};

use crate::trace_line::Word;
use line_form::{Named, Reader};
use ttp_world::{Ack, Source};

// The word at a place.
fn word_at(place: usize) -> Word
    requires { place < 15 }
    ensures { word_place result ≡ place }
{
    match place {
        0 => Word::Off,
        1 => Word::Wait,
        2 => Word::Retry,
        3 => Word::Gone,
        4 => Word::Start,
        5 => Word::Join,
        6 => Word::Send,
        7 => Word::Correct,
        8 => Word::Tentative,
        9 => Word::Incorrect,
        10 => Word::Invalid,
        11 => Word::Null,
        12 => Word::Denied,
        13 => Word::Unacknowledged,
        _ => Word::Clique,
    }
}

/// What a node did, behind a label.
pub(crate) fn node_word(line: &mut Reader, label: &str) -> Word
    ensures value { word_place result ≡ field_value label.now (one_of node_words) line.old }
    ensures left { line.new ≡ past label.now (one_of node_words) line.old }
{
    word_at(line.one_of(
        label,
        &[
            "off",
            "wait",
            "retry",
            "gone",
            "start",
            "join",
            "send",
            "correct",
            "tentative",
            "incorrect",
            "invalid",
            "null",
            "denied",
            "unacknowledged",
            "clique",
        ],
    ))
}

fn names_peer(word: Word) -> bool
    ensures { result ≡ names_peer word }
{
    !matches!(word, Word::Off | Word::Wait | Word::Retry | Word::Gone)
}

fn may_name_message(word: Word) -> bool
    ensures { result ≡ may_name_message word }
{
    matches!(word, Word::Send | Word::Correct)
}

/// Whether the line of a word may name this peer and this message.
pub(crate) fn fits_word(word: Word, peer: Option<u8>, message: Option<u64>) -> bool
    ensures { result ≡ fits_word word peer message }
{
    let names = if names_peer(word) {
        peer.is_some()
    } else {
        peer.is_none()
    };
    names && (may_name_message(word) || message.is_none())
}

// What is told of an acknowledgement.
fn ack_of(told: Named<u64>) -> Ack
    requires { FitsNamed 2 256 told }
    ensures { ack_told result ≡ told }
{
    match told {
        Named::Told(0) => Ack::Closed,
        Named::Told(_) => Ack::First,
        Named::Other(node) => Ack::Doubt(node as u8),
    }
}

/// What a node knows of its newest frame, behind a label.
pub(crate) fn ack(line: &mut Reader, label: &str) -> Ack
    ensures value { ack_told result ≡ field_value label.now ack_kind line.old }
    ensures left { line.new ≡ past label.now ack_kind line.old }
{
    ack_of(line.named(label, &["none", "first"], "doubt:", 256))
}

// What is told of a source.
fn source_of(told: Named<u64>) -> Source
    requires { FitsNamed 1 256 told }
    ensures { source_told result ≡ told }
{
    match told {
        Named::Told(_) => Source::Status,
        Named::Other(node) => Source::Node(node as u8),
    }
}

/// Whose message a host read, behind a label.
pub(crate) fn source(line: &mut Reader, label: &str) -> Source
    ensures value { source_told result ≡ field_value label.now source_kind line.old }
    ensures left { line.new ≡ past label.now source_kind line.old }
{
    source_of(line.named(label, &["status"], "", 256))
}

/// Whether a message of the source may have so many bytes.
pub(crate) fn has_size(source: Source, size: usize) -> bool
    ensures { result ≡ has_size source size }
{
    match source {
        Source::Status => size == 32,
        Source::Node(_) => 1 <= size,
    }
}
