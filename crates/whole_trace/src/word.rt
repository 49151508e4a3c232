//! What a node did in a slot, as a word.
ghost use Rattle.std.specs.Prelude.{◌≡◌, ◌≤◌, length};
ghost use Rattle.line_reader.specs.TraceLines.{word_text};

use line_reader::Word;

/// The word of a node's line, at most 14 letters.
pub fn word_text(word: Word) -> &'static str
    ensures text { result.now ≡ word_text word }
    ensures short { length result.now ≤ 14 }
{
    match word {
        Word::Off => "off",
        Word::Wait => "wait",
        Word::Retry => "retry",
        Word::Gone => "gone",
        Word::Start => "start",
        Word::Join => "join",
        Word::Send => "send",
        Word::Correct => "correct",
        Word::Tentative => "tentative",
        Word::Incorrect => "incorrect",
        Word::Invalid => "invalid",
        Word::Null => "null",
        Word::Denied => "denied",
        Word::Unacknowledged => "unacknowledged",
        Word::Clique => "clique",
    }
}
