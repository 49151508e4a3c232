//! The words of a check.

use check_words::{
    Piece, Place, Text, put_byte_hex, put_last, put_meant, put_pieces, put_place, put_said,
    put_shown, wrong_fault,
};
use script_errors::{Part, Wrong};
use std::alloc::Global;
use ttp_base::Memory;

const CHANNELS: Wrong = Wrong::Misspelt {
    part: Part::Channels,
};

// The lines of a script whose one mistake is `BA` for `AB`.
const LINES: &[u8] =
    b"run.script:11:8: error: word: CHANNELS is \"BA\", wanted A, B or AB\nerrors 1 warnings 0 keeps -\n";

fn put_line(alloc: Global, text: &mut Text) -> Result<(), Memory> {
    put_place(
        text,
        b"run.script",
        Place {
            line: 11,
            column: 8,
        },
    )?;
    text.put("error: ")?;
    text.put(wrong_fault(CHANNELS))?;
    text.put(": ")?;
    put_said(alloc, text, b"BA", CHANNELS)?;
    text.put("\n")?;
    put_last(text, 1, 0, b"keeps -\n")
}

fn is_told(alloc: Global) -> Result<bool, Memory> {
    let mut text = Text::new(alloc);
    put_line(alloc, &mut text)?;
    Ok(text.bytes() == LINES)
}

#[test]
fn a_fault_is_told_in_a_line(rt: HostRuntime) {
    assert!(rt; matches!(is_told(rt.alloc()), Ok(true)));
}

// A word as it is shown, the nearest name, a byte, and pieces.
fn put_each(alloc: Global, text: &mut Text) -> Result<(), Memory> {
    put_shown(text, b"64\xf6s")?;
    text.put(" ")?;
    put_meant(alloc, text, b"synch", &["data", "sync", "start"])?;
    text.put(" ")?;
    put_byte_hex(text, 0xf6)?;
    text.put_number(7)?;
    text.put_signed(-3)?;
    let pieces = [Piece::Words(" of "), Piece::Number(24)];
    put_pieces(text, &pieces)
}

fn are_put(alloc: Global) -> Result<bool, Memory> {
    let mut text = Text::new(alloc);
    text.put_bytes(b"gone")?;
    text.clear();
    put_each(alloc, &mut text)?;
    Ok(text.bytes() == b"\"64\\xf6s\" \"synch\", nearest sync f67-3 of 24".as_slice())
}

#[test]
fn words_are_put(rt: HostRuntime) {
    assert!(rt; matches!(are_put(rt.alloc()), Ok(true)));
}
