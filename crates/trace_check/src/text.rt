//! The text that is checked, and its lines.
ghost use Rattle.std.specs.Prelude.{◌≡◌, ◌+◌, ◌<◌, ◌^◌, count_by, option_map};
ghost use Rattle.std.specs.Prelude.{IfOk, IfErr, Some, None};
ghost use Rattle.ttp_base.specs.Text.{is_newline};
ghost use Rattle.trace_check.specs.Outgoing.{number_by_line};

use line_text::message_in;

/// A text from its first wrong line on.
#[derive(Clone, Copy)]
pub(crate) struct Wrong<'a> {
    pub(crate) text: &'a [u8],
}

/// What is left of a text behind a line that is due, where the text begins with it.
pub(crate) fn expect<'a>(behind: Option<&'a [u8]>, text: &'a [u8]) -> Result<&'a [u8], Wrong<'a>>
    ensures ok { IfOk result (λ rest. option_map (λ p. p.now) behind.entry ≡ Some rest.now) }
    ensures none { IfErr result (λ wrong. option_map (λ p. p.now) behind.entry ≡ None) }
    ensures wrong { IfErr result (λ wrong. wrong.text.now ≡ text.now) }
{
    match behind {
        Some(rest) => Ok(rest),
        None => Err(Wrong { text }),
    }
}

/// The message that the line of a node names, if it names one.
pub(crate) fn number_by_line(line: &[u8]) -> Option<u64>
    ensures { result ≡ number_by_line line.now }
{
    match line.split(|byte| *byte == b' ').nth(8) {
        Some(word) => message_in(word),
        None => None,
    }
}

/// The number, counted from 1, of the line that follows these whole lines.
pub(crate) fn line_behind(lines: &[u8]) -> u32
    requires { count_by is_newline lines.now + 1 < 2 ^ 32 }
    ensures { result ≡ count_by is_newline lines.now + 1 }
{
    let ends = lines.iter().filter(|byte| **byte == b'\n').count();
    ends as u32 + 1
}
