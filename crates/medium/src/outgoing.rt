//! A frame that a node hands to the medium.
ghost use Rattle.std.specs.Prelude.{◌≡◌};
ghost use Rattle.ttp_world.specs.Medium.{flip_bits};
ghost use Rattle.ttp_world.specs.Script.{bits_on};

use crate::flip::flip_bits;
use std::marker::Model;
use ttp_world::{Channel, FlippedBit};

/// A frame that is to be sent, at most 256 bytes, which contracts see as the list of its bytes.
#[derive(Drop)]
pub struct Outgoing {
    /// How many bytes there are.
    pub len: u16,
    /// The bytes, and behind them whatever there is.
    pub bytes: [u8; 256],
}

impl Model for Outgoing {
    ghost use Rattle.std.specs.Prelude.{List, ℕ, ◌≤◌, take};

    ghost Value = { List ℕ };

    ghost view = { λ f. take f.len f.bytes };

    ghost invariant = { λ f. f.len ≤ 256 };
}

impl Outgoing {
    /// The bytes.
    pub fn as_slice(&self) -> &[u8]
        ensures { result.now ≡ self.now }
    {
        &self.bytes[..self.len as usize]
    }

    /// Becomes a copy of another frame. It costs that frame's bytes.
    pub(crate) fn copy(&mut self, frame: &Outgoing)
        ensures { self.new ≡ frame.now }
    {
        let len = frame.len as usize;
        self.bytes[..len].copy_from_slice(&frame.bytes[..len]);
        self.len = frame.len;
    }

    /// Flips those of the bits that are flipped on a channel.
    pub(crate) fn flip(&mut self, flips: &[FlippedBit], channel: Channel)
        ensures { self.new ≡ flip_bits self.old (bits_on channel flips.now) }
    {
        let len = self.len as usize;
        flip_bits(&mut self.bytes[..len], flips, channel);
    }
}
