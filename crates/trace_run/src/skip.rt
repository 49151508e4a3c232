//! What is left of a text behind its first lines.
ghost use Rattle.std.specs.Prelude.{◌≡◌, ◌+◌, length, drop};
ghost use Rattle.ttp_base.specs.Text.{lines_of};
ghost use Rattle.ttp_world.specs.Medl.{IsValid};
ghost use Rattle.ttp_world.specs.Script.{reads_in};

use line_text::cut_line;
use ttp_world::{Medl, Script};

// What is left of a text behind its first lines, so many.
fn skip_lines(text: &[u8], count: usize) -> &[u8]
    ensures { lines_of result.now ≡ drop count (lines_of text.now) }
{
    let mut rest = text;
    for _ in 0..count {
        rest = cut_line(rest).1;
    }
    rest
}

/// What is left of a text behind the lines of a slot, in which hosts write so many messages.
pub(crate) fn skip_slot<'a>(
    list: &Medl,
    script: &Script,
    slot: u32,
    text: &'a [u8],
    writes: usize,
) -> &'a [u8]
    requires { IsValid list.now }
    ensures { lines_of result.now ≡ drop (length list.now.slots + (writes + length (reads_in script.now slot)))
        (lines_of text.now) }
{
    let hosts = skip_lines(text, usize::from(list.nodes()));
    let reads = skip_lines(hosts, writes);
    skip_lines(reads, script.reads(slot).len())
}
