//! What single words are.
ghost use Rattle.std.specs.Prelude.{SomeIff, IsTrue};
ghost use Rattle.script_text.specs.Numbers.{is_value, value_in};

use script_text::decimal_value;

/// The number, with or without a `-` before it, that a word is.
pub(crate) fn value_in(word: &[u8]) -> Option<i64>
    ensures { SomeIff result (IsTrue (is_value word.now)) (value_in word.now) }
{
    match word.first() {
        Some(b'-') => Some(-i64::from(decimal_value(&word[1..])?)),
        _ => Some(i64::from(decimal_value(word)?)),
    }
}
