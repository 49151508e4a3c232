//! A line of a waveform while it is formed.
ghost use Rattle.std.specs.Prelude.{◌≡◌, ◌+◌, ◌≤◌, ◌<◌, ◌++◌, length};
ghost use Rattle.wave_text.specs.Values.{binary, binary_number, number_text, wires_text};

use ttp_base::Text;

/// A text of at most 2,048 bytes.
pub(crate) type Draft = Text<2048>;

/// Adds the lowest binary digits of a number, as many as are asked for, the most significant first.
#[tactic(auto, using(crate::proofs::Binary::digits))]
pub(crate) fn put_binary(line: &mut Draft, digits: u8, v: u32)
    requires { length line.old + digits ≤ 2048 }
    ensures text { line.new ≡ line.old ++ binary digits v }
    ensures size { length line.new ≡ length line.old + digits }
{
    if digits > 0 {
        put_binary(line, digits - 1, v / 2);
        line.put_bytes(&[b'0' + (v % 2) as u8]);
    }
}

/// Adds the binary digits of a number, at most so many, without leading zeros.
#[tactic(auto, using(crate::proofs::Binary::digits))]
pub(crate) fn put_digits(line: &mut Draft, more: u8, v: u64)
    requires { length line.old + more ≤ 2048 }
    ensures text { line.new ≡ line.old ++ binary_number more v }
    ensures short { length line.new ≤ length line.old + more }
{
    if more > 0 {
        if v >= 2 {
            put_digits(line, more - 1, v / 2);
            line.put_bytes(&[b'0' + (v % 2) as u8]);
        } else {
            line.put_bytes(&[b'0' + v as u8]);
        }
    }
}

// The values of small numbers, as those of nodes and of frames that they accepted are.
const SMALL_NUMBERS: [&str; 32] = [
    "b0", "b1", "b10", "b11", "b100", "b101", "b110", "b111", "b1000", "b1001", "b1010", "b1011",
    "b1100", "b1101", "b1110", "b1111", "b10000", "b10001", "b10010", "b10011", "b10100", "b10101",
    "b10110", "b10111", "b11000", "b11001", "b11010", "b11011", "b11100", "b11101", "b11110",
    "b11111",
];

fn small_number_text(v: u64) -> &'static str
    requires { v < 32 }
    ensures text { result.now ≡ number_text v }
    ensures short { length result.now ≤ 6 }
{
    SMALL_NUMBERS[v as usize]
}

/// Adds a number as the value of a variable.
pub(crate) fn put_number(line: &mut Draft, v: u64)
    requires { length line.old + 65 ≤ 2048 }
    ensures text { line.new ≡ line.old ++ number_text v }
    ensures short { length line.new ≤ length line.old + 65 }
{
    if v < 32 {
        line.put_text(small_number_text(v));
    } else {
        line.put_text("b");
        put_digits(line, 64, v);
    }
}

/// Adds a wire of so many bits as the value of a variable.
pub(crate) fn put_wires(line: &mut Draft, width: u8, v: u32)
    requires { length line.old + width + 1 ≤ 2048 }
    ensures text { line.new ≡ line.old ++ wires_text width v }
    ensures size { length line.new ≡ length line.old + (width + 1) }
{
    line.put_text("b");
    put_binary(line, width, v);
}
