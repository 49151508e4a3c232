//! A text that grows.
#![tactic(auto, using(std::proofs::Common::append_assoc))]

ghost use Rattle.std.specs.Prelude.{◌≡◌, ◌<◌, [], ◌∷◌, ◌++◌, OnOk};
ghost use Rattle.std.specs.Fmt.{decimal, signed_decimal};
ghost use Rattle.ttp_base.specs.Text.{hex_digit, hex};

use crate::fault::Memory;
use crate::text::Line;
use std::alloc::Global;
use std::marker::Model;

/// A growing text, which contracts see as the list of its bytes. Once it has grown to its longest, no call
/// takes memory. A call that adds answers `Memory` where memory was refused; some of what is due may have
/// been added.
#[derive(Drop)]
pub struct GrowingText {
    bytes: Vec<u8>,
}

impl Model for GrowingText {
    ghost use Rattle.std.specs.Prelude.{List, ℕ};

    ghost Value = { List ℕ };

    ghost view = { λ t. t.bytes.items };
}

impl GrowingText {
    /// The empty text.
    pub fn new(alloc: Global) -> GrowingText
        ensures { result ≡ [] }
    {
        GrowingText {
            bytes: Vec::new(alloc),
        }
    }

    /// Takes all of it away.
    pub fn clear(&mut self)
        ensures { self.new ≡ [] }
    {
        self.bytes.clear();
    }

    /// The text so far.
    pub fn bytes(&self) -> &[u8]
        ensures { result.now ≡ self.now }
    {
        self.bytes.as_slice()
    }

    /// Adds bytes as they are.
    pub fn put_bytes(&mut self, piece: &[u8]) -> Result<(), Memory>
        ensures { OnOk result (self.new ≡ self.old ++ piece.now) }
    {
        match self.bytes.extend_from_slice(piece) {
            Ok(()) => Ok(()),
            Err(_) => Err(Memory),
        }
    }

    /// Adds a text as it is.
    pub fn put(&mut self, piece: &str) -> Result<(), Memory>
        ensures { OnOk result (self.new ≡ self.old ++ piece.now) }
    {
        self.put_bytes(piece.as_bytes())
    }

    /// Adds a number in decimal digits.
    #[tactic(auto, using(crate::proofs::Room::room))]
    pub fn put_number(&mut self, number: u64) -> Result<(), Memory>
        ensures { OnOk result (self.new ≡ self.old ++ decimal number) }
    {
        let mut digits = Line::new();
        digits.put_number(number);
        self.put_bytes(digits.bytes())
    }

    /// Adds a label, and a number in decimal digits.
    pub fn put_labelled(&mut self, label: &str, number: u64) -> Result<(), Memory>
        ensures { OnOk result (self.new ≡ self.old ++ (label.now ++ decimal number)) }
    {
        self.put(label)?;
        self.put_number(number)
    }

    /// Adds a number in decimal digits, with a `-` before a negative one.
    #[tactic(auto, using(crate::proofs::Room::room))]
    pub fn put_signed(&mut self, number: i64) -> Result<(), Memory>
        ensures { OnOk result (self.new ≡ self.old ++ signed_decimal number) }
    {
        let mut digits = Line::new();
        digits.put_signed(number);
        self.put_bytes(digits.bytes())
    }

    // Adds a lower-case hexadecimal digit.
    fn put_digit(&mut self, digit: u8) -> Result<(), Memory>
        requires { digit < 16 }
        ensures { OnOk result (self.new ≡ self.old ++ hex_digit digit ∷ []) }
    {
        if digit < 10 {
            self.put_bytes(&[b'0' + digit])
        } else {
            self.put_bytes(&[b'a' + (digit - 10)])
        }
    }

    /// Adds the four lowest hexadecimal digits of a number, in lower case.
    pub fn put_four_digits(&mut self, number: u32) -> Result<(), Memory>
        ensures { OnOk result (self.new ≡ self.old ++ hex 4 number) }
    {
        self.put_digit((number / 16 / 16 / 16 % 16) as u8)?;
        self.put_digit((number / 16 / 16 % 16) as u8)?;
        self.put_digit((number / 16 % 16) as u8)?;
        self.put_digit((number % 16) as u8)
    }

    /// Adds the six lowest ones.
    pub fn put_six_digits(&mut self, number: u32) -> Result<(), Memory>
        ensures { OnOk result (self.new ≡ self.old ++ hex 6 number) }
    {
        self.put_four_digits(number / 16 / 16)?;
        self.put_digit((number / 16 % 16) as u8)?;
        self.put_digit((number % 16) as u8)
    }
}
