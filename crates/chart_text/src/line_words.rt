//! The words of a line of a campaign.
#![tactic(auto)]

ghost use Rattle.std.specs.Prelude.{◌≡◌, ◌≤◌, ◌==◌, length, position};
ghost use Rattle.chart_text.specs.Worst.{first_word, behind_first_word, words_from, hurt_word, fault_in_line};

// Where the first space is.
fn space(text: &[u8]) -> Option<usize>
    ensures { result ≡ position (λ b. b == 32) text.now }
{
    text.iter().position(|byte| *byte == b' ')
}

// A text up to its first space.
fn first_word(text: &[u8]) -> &[u8]
    ensures value { result.now ≡ first_word text.now }
    ensures within { length result.now ≤ length text.now }
{
    match space(text) {
        Some(end) => &text[..end],
        None => text,
    }
}

// What stands behind it.
fn behind_first_word(text: &[u8]) -> &[u8]
    ensures value { result.now ≡ behind_first_word text.now }
    ensures within { length result.now ≤ length text.now }
{
    match space(text) {
        Some(end) => &text[end + 1..],
        None => &text[text.len()..],
    }
}

// What stands behind the first so many words of a text.
fn words_from(count: u8, text: &[u8]) -> &[u8]
    ensures value { result.now ≡ words_from count text.now }
    ensures within { length result.now ≤ length text.now }
{
    let mut rest = text;
    for _number in 0..count {
        rest = behind_first_word(rest);
    }
    rest
}

/// The healthy nodes that a line says were hurt.
pub(crate) fn hurt_word(text: &[u8]) -> &[u8]
    ensures value { result.now ≡ hurt_word text.now }
    ensures within { length result.now ≤ length text.now }
{
    first_word(words_from(11, text))
}

/// The fault of a line, as a script has it.
pub(crate) fn fault_in_line(text: &[u8]) -> &[u8]
    ensures value { result.now ≡ fault_in_line text.now }
    ensures within { length result.now ≤ length text.now }
{
    words_from(18, text)
}
