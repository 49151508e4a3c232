//! A text within a line.
ghost use Rattle.std.specs.Prelude.{◌≡◌, ◌<◌, encode_utf8_all, chars, Some};
ghost use Rattle.std.specs.Fmt.{WritesOnOk};
ghost use Rattle.told.specs.Shown.{is_control, hex_digit, shown_char, text_in_line};

use std::fmt::{self, Display, Formatter};

/// A text that is shown within a line: a control character, as a line feed in a file's name, stands as `\xHH`. Takes no memory.
#[derive(Clone, Copy)]
pub struct Shown<'a>(pub &'a str);

impl Display for Shown<'_> {
    ghost output = { λ it. Some (text_in_line (chars it.0.now)) };

    fn fmt<W: fmt::Write>(&self, f: &mut Formatter<W>) -> fmt::Result {
        let mut rest = self.0.chars();
        while let Some(ch) = rest.next() {
            put_char(f, ch)?;
        }
        Ok(())
    }
}

// A character, or what stands for it.
fn put_char<W: fmt::Write>(f: &mut Formatter<W>, ch: char) -> fmt::Result
    ensures { WritesOnOk W.write_str_gives f.old result (encode_utf8_all (shown_char ch)) f.new }
{
    if !is_control(ch) {
        return f.write_char(ch);
    }
    let number = ch as u8;
    f.write_str("\\x")?;
    f.write_char(hex_digit(number / 16))?;
    f.write_char(hex_digit(number % 16))
}

fn is_control(ch: char) -> bool
    ensures { result ≡ is_control ch }
{
    ch < ' ' || (ch > '~' && ch < '\u{a0}')
}

fn hex_digit(digit: u8) -> char
    requires { digit < 16 }
    ensures { result ≡ hex_digit digit }
{
    if digit < 10 {
        char::from(b'0' + digit)
    } else {
        char::from(b'a' - 10 + digit)
    }
}

#[cfg(test)]
mod tests {
    use super::Shown;

    // What a terminal or a reader of lines would take for its own is told as a number; any other character stays.
    #[test]
    fn control_characters_are_numbers(rt: HostRuntime) {
        let text = Shown("a b\n\u{1b}[0m\u{7f}\u{9b}\u{a0}ö~\\");
        let shown = format!(in rt.alloc(); "{text}").expect(&rt, "there is memory");
        let right = "a b\\x0a\\x1b[0m\\x7f\\x9b\u{a0}ö~\\";
        assert_eq!(rt; shown.as_str(), right);
    }
}
