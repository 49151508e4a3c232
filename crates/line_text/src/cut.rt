//! A text, cut behind its first line.
ghost use Rattle.std.specs.Prelude.{◌≡◌, [], get_or, drop, position};
ghost use Rattle.ttp_base.specs.Text.{is_newline, lines_of};

// Where the first line feed of a text is.
fn line_feed(text: &[u8]) -> Option<usize>
    ensures { result ≡ position is_newline text.now }
{
    text.iter().position(|byte| *byte == b'\n')
}

/// The first line of a text, with its line feed if it has one, and what follows it. Takes no memory.
pub fn cut_line(text: &[u8]) -> (&[u8], &[u8])
    ensures first { get_or (lines_of text.now) 0 [] ≡ result.0.now }
    ensures others { drop 1 (lines_of text.now) ≡ lines_of result.1.now }
{
    match line_feed(text) {
        Some(end) => text.split_at(end + 1),
        None => (text, &[]),
    }
}
