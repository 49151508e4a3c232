//! Numerals among words.
ghost use Rattle.std.specs.Prelude.{◌≡◌, ◌^◌, ◌<◌, ◌≤◌, IfSome};
ghost use Rattle.commands.specs.Words.{numeral_named};

/// The number that a word of 1 to so many decimal digits is; none where it has more, or another
/// byte. Takes no memory.
pub fn numeral_named(word: &[u8], most: usize) -> Option<u128>
    requires { most ≤ 20 }
    ensures value { result ≡ numeral_named most word.now }
    ensures small { IfSome result (λ number. number < 10 ^ most) }
{
    if word.is_empty() || most < word.len() {
        return None;
    }
    let mut number: u128 = 0;
    for byte in word {
        if !byte.is_ascii_digit() {
            return None;
        }
        number = number * 10 + u128::from(*byte - b'0');
    }
    Some(number)
}
