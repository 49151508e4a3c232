//! Words that are numbers.
ghost use Rattle.std.specs.Prelude.{◌≡◌};
ghost use Rattle.line_text.specs.Numerals.{message_digits, numeral_in};

use line_form::numeral_in;

// The most digits of a message number.
const MESSAGE_DIGITS: usize = 6;

/// The number of a message: at most six digits, of which none leads and is 0. Takes no memory.
pub fn message_in(word: &[u8]) -> Option<u64>
    ensures { result ≡ numeral_in message_digits word.now }
{
    numeral_in(word, MESSAGE_DIGITS)
}
