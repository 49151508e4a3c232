//! A text in a buffer of fixed size.
ghost use Rattle.std.specs.Prelude.{◌≡◌, ℕ, ◌+◌, ◌-◌, ◌*◌, ◌^◌, ◌<◌, ◌≤◌, [], ◌++◌, length, take, drop};
ghost use Rattle.std.specs.Fmt.{decimal, signed_decimal};
ghost use Rattle.ttp_base.specs.Text.{hex_digit, hex, hex_bytes};

use std::marker::Model;

/// A text of at most so many bytes, which contracts see as the list of its bytes.
///
/// It lies in a fixed buffer, so no call takes memory. A caller knows that what it adds fits, by
/// the text's length or by [`Text::room`].
#[derive(Drop)]
pub struct Text<const ROOM: usize> {
    bytes: [u8; ROOM],
    len: usize,
}

impl<const ROOM: usize> Model for Text<ROOM> {
    ghost use Rattle.std.specs.Prelude.{List, ℕ, take, ◌≤◌};

    ghost Value = { List ℕ };

    ghost view = { λ l. take l.len l.bytes };

    ghost invariant = { λ l. l.len ≤ ROOM };
}

/// A text with room for each line of a trace: at most 640 bytes.
pub type Line = Text<640>;

// Writes a piece into a buffer from a place on.
fn put_at(buffer: &mut [u8], at: usize, piece: &[u8])
    requires { at + length piece.now ≤ length buffer.old }
    ensures { buffer.new ≡ take at buffer.old ++ piece.now ++ drop (at + length piece.now) buffer.old }
{
    let end = at + piece.len();
    buffer[at..end].copy_from_slice(piece);
}

// The lower-case hexadecimal digit of a number below 16.
fn hex_digit(value: u8) -> u8
    requires { value < 16 }
    ensures { result ≡ hex_digit value }
{
    if value < 10 {
        b'0' + value
    } else {
        b'a' + (value - 10)
    }
}

impl<const ROOM: usize> Text<ROOM> {
    /// The empty text.
    pub fn new() -> Text<ROOM>
        ensures { result ≡ [] }
    {
        Text {
            bytes: [0; ROOM],
            len: 0,
        }
    }

    /// Takes all of the text away.
    pub fn clear(&mut self)
        ensures { self.new ≡ [] }
    {
        self.len = 0;
    }

    /// Takes away all but the first `len` bytes.
    pub fn cut(&mut self, len: usize)
        requires { len ≤ length self.old }
        ensures { self.new ≡ take len self.old }
    {
        self.len = len;
    }

    /// How many bytes it has.
    pub fn len(&self) -> usize
        ensures { result ≡ length self.now }
    {
        self.len
    }

    /// How many bytes still fit.
    pub fn room(&self) -> usize
        ensures { result + length self.now ≡ ROOM }
    {
        ROOM - self.len
    }

    /// The text so far.
    pub fn bytes(&self) -> &[u8]
        ensures { result.now ≡ self.now }
    {
        &self.bytes[..self.len]
    }

    /// Adds a text as it is.
    pub fn put_text(&mut self, t: &str)
        requires { length self.old + length t.now ≤ ROOM }
        ensures { self.new ≡ self.old ++ t.now }
    {
        self.put_bytes(t.as_bytes());
    }

    /// Adds a number in decimal digits, with no leading zeros.
    #[inline(always)]
    #[tactic(auto, using(std::proofs::lemmas::Fmt::decimal_digit, crate::proofs::Decimal::decimal_two_digits))]
    pub fn put_number(&mut self, v: u64)
        requires { length self.old + length (decimal v) ≤ ROOM }
        ensures { self.new ≡ self.old ++ decimal v }
    {
        if v < 10 {
            self.put_bytes(&[b'0' + v as u8]);
        } else if v < 100 {
            self.put_bytes(&[b'0' + (v / 10) as u8, b'0' + (v % 10) as u8]);
        } else {
            self.put_digits(v);
        }
    }

    // The same for any number. It stands apart, so that numbers of one digit or two are put in place.
    #[inline(never)]
    fn put_digits(&mut self, v: u64)
        requires { length self.old + length (decimal v) ≤ ROOM }
        ensures { self.new ≡ self.old ++ decimal v }
    {
        let mut buffer = itoa::Buffer::new();
        let digits = buffer.format(v);
        self.put_bytes(digits.as_bytes());
    }

    /// Adds a number in decimal digits, with a `-` before a negative one.
    pub fn put_signed(&mut self, v: i64)
        requires { length self.old + length (signed_decimal v) ≤ ROOM }
        ensures { self.new ≡ self.old ++ signed_decimal v }
    {
        if v < 0 {
            self.put_text("-");
        }
        self.put_number(v.unsigned_abs());
    }

    /// Adds exactly `digits` lower-case hexadecimal digits, with leading zeros where they are due.
    pub fn put_hex(&mut self, v: u64, digits: u8)
        requires count { (1 ≤ digits) × (digits ≤ 16) }
        requires value { v < 16 ^ digits }
        requires room { length self.old + digits ≤ ROOM }
        ensures { self.new ≡ self.old ++ hex digits v }
    {
        let start = self.len;
        let end = start + digits as usize;
        fill_hex(&mut self.bytes[..end], start, v);
        self.len = end;
    }

    /// Adds two lower-case hexadecimal digits for each byte.
    pub fn put_hex_bytes(&mut self, b: &[u8])
        requires { length self.old + 2 * length b.now ≤ ROOM }
        ensures { self.new ≡ self.old ++ hex_bytes b.now }
    {
        for byte in b {
            self.put_bytes(&[hex_digit(*byte / 16), hex_digit(*byte % 16)]);
        }
    }

    /// Adds bytes as they are.
    pub fn put_bytes(&mut self, piece: &[u8])
        requires { length self.old + length piece.now ≤ ROOM }
        ensures { self.new ≡ self.old ++ piece.now }
    {
        // Read once, since for all that a compiler sees the bytes written may change it.
        let start = self.len;
        put_at(&mut self.bytes, start, piece);
        self.len = start + piece.len();
    }
}

// Fills a text from a place on with the lowest hexadecimal digits of a number.
fn fill_hex(text: &mut [u8], start: usize, v: u64)
    requires { start ≤ length text.old }
    ensures { text.new ≡ take start text.old ++ hex (length text.old - start) v }
{
    let mut rest = v;
    for place in (start..text.len()).rev() {
        text[place] = hex_digit((rest % 16) as u8);
        rest /= 16;
    }
}
