//! Words that are numbers.
ghost use Rattle.std.specs.Prelude.{SomeIff, IsTrue};
ghost use Rattle.script_text.specs.Numbers.{is_number, decimal_value};
ghost use Rattle.script_text.specs.Words.{FrontDigits};

// The most digits of a number.
const MOST_DIGITS: usize = 9;

/// Digits, and the number that they are.
#[derive(Clone, Copy)]
pub(crate) struct Digits {
    pub(crate) count: usize,
    pub(crate) number: u32,
}

/// The digits at the front of a text, up to as many as a number has.
pub(crate) fn front_digits(text: &[u8]) -> Digits
    ensures { FrontDigits text.now result.count result.number }
{
    let front = &text[..text.len().min(MOST_DIGITS)];
    let mut number: u32 = 0;
    for (count, byte) in front.iter().enumerate() {
        if !byte.is_ascii_digit() {
            return Digits { count, number };
        }
        number = number * 10 + u32::from(*byte - b'0');
    }
    Digits {
        count: front.len(),
        number,
    }
}

/// The number that a word with these digits at its front is, 1 to 9 decimal digits.
#[inline(always)]
pub(crate) fn whole_number(word: &[u8], digits: Digits) -> Option<u32>
    requires { FrontDigits word.now digits.count digits.number }
    ensures { SomeIff result (IsTrue (is_number word.now)) (decimal_value word.now) }
{
    let Digits { count, number } = digits;
    if count == 0 || count < word.len() {
        return None;
    }
    Some(number)
}

/// The number that a word of 1 to 9 decimal digits is.
pub fn decimal_value(word: &[u8]) -> Option<u32>
    ensures { SomeIff result (IsTrue (is_number word.now)) (decimal_value word.now) }
{
    whole_number(word, front_digits(word))
}
