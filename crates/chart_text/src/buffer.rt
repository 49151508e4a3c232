//! A line with a text of the campaign in it.
#![tactic(auto)]

ghost use Rattle.std.specs.Prelude.{◌≡◌, ◌+◌, ◌≤◌, [], ◌++◌, length, IfOk};

use std::alloc::Global;
use std::marker::Model;
use ttp_base::Memory;

/// A text in a room of a fixed size, which contracts see as both. Memory is taken for the room alone.
#[derive(Drop)]
pub(crate) struct Buffer {
    bytes: Vec<u8>,
    len: usize,
}

impl Model for Buffer {
    ghost use Rattle.std.specs.Prelude.{take, length, ◌≤◌};
    ghost use Rattle.chart_text.specs.Steps.{Roomy};

    ghost Value = { Roomy };

    ghost view = { λ b. record { text = take b.len b.bytes.items; room = length b.bytes.items } };

    ghost invariant = { λ b. b.len ≤ length b.bytes.items };
}

impl Buffer {
    /// An empty text, with room for so many bytes.
    pub(crate) fn with_room(alloc: Global, room: usize) -> Result<Buffer, Memory>
        ensures { IfOk result (λ b. b.room ≡ room) }
    {
        match vec![in alloc; 0u8; room] {
            Ok(bytes) => Ok(Buffer { bytes, len: 0 }),
            Err(_) => Err(Memory),
        }
    }

    /// Takes all of the text away.
    pub(crate) fn clear(&mut self)
        ensures text { self.new.text ≡ [] }
        ensures room { self.new.room ≡ self.old.room }
    {
        self.len = 0;
    }

    /// The text so far.
    pub(crate) fn bytes(&self) -> &[u8]
        ensures { result.now ≡ self.now.text }
    {
        &self.bytes[..self.len]
    }

    /// Adds bytes as they are.
    pub(crate) fn put_bytes(&mut self, piece: &[u8])
        requires { length self.old.text + length piece.now ≤ self.old.room }
        ensures text { self.new.text ≡ self.old.text ++ piece.now }
        ensures room { self.new.room ≡ self.old.room }
    {
        let start = self.len;
        let end = start + piece.len();
        self.bytes[start..end].copy_from_slice(piece);
        self.len = end;
    }
}
