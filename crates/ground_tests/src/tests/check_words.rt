//! Published check words, and words of pieces beside those of a loop over bits.
ghost use Rattle.std.specs.Prelude.{◌^◌, ◌<◌};

use ttp_frame::check_word::Check;

// The check word of some bytes in one piece.
fn word_of(start: u32, bytes: &[u8]) -> u32
    requires { start < 2 ^ 24 }
{
    let mut check = Check::new(start);
    check.feed(bytes);
    check.word()
}

// The register after one bit more.
fn next_register(register: u32, bit: u32) -> u32 {
    let moved = (register << 1) & 0xff_ffff;
    if (register >> 23) & 1 == bit {
        moved
    } else {
        moved ^ 0x5d_6dcb
    }
}

/// The register after some bytes, bit by bit: where it began at the start, it is their check word.
pub(super) fn register_after(start: u32, bytes: &[u8]) -> u32 {
    let mut register = start;
    for byte in bytes {
        for place in 0..8u32 {
            register = next_register(register, (u32::from(*byte) >> (7 - place)) & 1);
        }
    }
    register
}

// The next of a sequence of numbers that looks like chance.
fn next_number(number: u32) -> u32 {
    number.wrapping_mul(1_664_525).wrapping_add(1_013_904_223)
}

// Bytes, and their check word from 0 on.
const WORDS: &[(&[u8], u32)] = &[
    (b"", 0),
    (&[1], 0x5d_6dcb),
    (&[2], 0xba_db96),
    (&[4], 0x28_dae7),
];

fn are_published() -> bool {
    for (bytes, word) in WORDS {
        if word_of(0, bytes) != *word {
            return false;
        }
    }
    true
}

fn go_on_from_a_start() -> bool {
    let digits = b"123456789";
    word_of(0xfe_dcba, digits) == 0x79_79bd && word_of(0xab_cdef, digits) == 0x1f_23b8
}

#[test]
fn published_words(rt: HostRuntime) {
    assert!(rt; are_published() && go_on_from_a_start());
}

// Fills the bytes with the numbers that follow one, and gives the last of them.
fn fill(bytes: &mut [u8; 64], number: u32) -> u32 {
    let mut number = number;
    for byte in bytes.iter_mut() {
        number = next_number(number);
        *byte = (number >> 24) as u8;
    }
    number
}

// Whether two pieces, with none between them, have the words of a loop over bits.
fn have_words(start: u32, front: &[u8], rest: &[u8], whole: &[u8]) -> bool
    requires { start < 2 ^ 24 }
{
    let mut check = Check::new(start);
    check.feed(front);
    check.feed(&[]);
    let copy = check;
    check.feed(rest);
    check.word() == register_after(start, whole) && copy.word() == register_after(start, front)
}

#[test]
fn pieces_have_the_word_of_the_whole(rt: HostRuntime) {
    let mut bytes = [0u8; 64];
    let mut number = 1;
    for round in 0..400 {
        let start = number % 0x100_0000;
        number = fill(&mut bytes, number);
        let whole = &bytes[..round % 65];
        let cut = number as usize % (whole.len() + 1);
        assert!(rt; have_words(start, &whole[..cut], &whole[cut..], whole));
    }
}

// Whether a check that began at 7 is another one after a byte, that of its word.
fn is_told_after_a_byte(check: &mut Check) -> bool {
    check.feed(b"a");
    *check != Check::new(7) && *check == Check::new(check.word())
}

#[test]
fn checks_are_compared_by_their_words(rt: HostRuntime) {
    let mut check = Check::new(7);
    assert!(rt; check == Check::new(7) && is_told_after_a_byte(&mut check));
}
