//! One channel of the medium.
ghost use Rattle.std.specs.Prelude.{◌≡◌};
ghost use Rattle.ttp_world.specs.Medium.{flip_bits};
ghost use Rattle.ttp_world.specs.Script.{is_among, bits_on};
ghost use Rattle.medium.specs.ChannelState.{nothing, bits, with_frame};
ghost use Rattle.medium.specs.Shows.{Shows};

use crate::arrival::Arrival;
use crate::flip::is_among;
use crate::outgoing::Outgoing;
use std::marker::Model;
use ttp_world::{Channel, FlippedBit, Incidents};

/// A frame that is put on both channels, with what the script says of its sender in the slot.
#[derive(Clone, Copy)]
pub(crate) struct Sent<'a> {
    pub sender: u8,
    pub frame: &'a Outgoing,
    /// How far the sender's clock is ahead.
    pub offset: i64,
    pub incidents: Incidents,
    pub flips: &'a [FlippedBit],
}

/// What is on a channel.
#[derive(Clone, Copy)]
pub(crate) enum Content {
    Silence,
    Noise,
    /// The bytes that lie in the channel's buffer. The sender is there for contracts to name: no
    /// receiver is told it.
    Bits { sender: u8, offset: i64 },
}

/// A channel in a slot, with a buffer for the one frame that it may carry. Contracts see what is on
/// it, and the clock of the node that sent that.
#[derive(Drop)]
pub(crate) struct ChannelState {
    content: Content,
    frame: Outgoing,
}

impl Model for ChannelState {
    ghost use Rattle.medium.specs.Carried.{OnChannel};

    ghost Value = { OnChannel };

    ghost use Rattle.medium.specs.ChannelState.{on_channel};

    ghost view = { λ c. on_channel c.content c.frame };
}

impl ChannelState {
    pub(crate) fn silent() -> ChannelState
        ensures { result ≡ nothing }
    {
        ChannelState {
            content: Content::Silence,
            frame: Outgoing {
                len: 0,
                bytes: [0; 256],
            },
        }
    }

    /// Takes away what is there. It costs nothing that grows with a frame.
    pub(crate) fn clear(&mut self)
        ensures { self.new ≡ nothing }
    {
        self.content = Content::Silence;
    }

    /// Becomes a copy of another channel. It costs the bytes of the frame that is there, if one is.
    pub(crate) fn copy(&mut self, other: &ChannelState)
        ensures { self.new ≡ other.now }
    {
        if let Content::Bits { .. } = other.content {
            self.frame.copy(&other.frame);
        }
        self.content = other.content;
    }

    // Puts the frame there as the sender's flips leave it on this channel.
    fn carry(&mut self, sent: &Sent, channel: Channel)
        ensures { self.new ≡ bits sent.now.sender
            (flip_bits sent.now.frame.now (bits_on channel sent.now.flips.now)) sent.now.offset }
    {
        self.frame.copy(sent.frame);
        self.frame.flip(sent.flips, channel);
        self.content = Content::Bits {
            sender: sent.sender,
            offset: sent.offset,
        };
    }

    /// Adds a frame to what is there, as its sender's faults leave it on this channel.
    pub(crate) fn put(&mut self, sent: &Sent, channel: Channel)
        ensures { self.new ≡ with_frame self.old
            (is_among channel sent.now.incidents.send_silence)
            (is_among channel sent.now.incidents.send_noise)
            (bits sent.now.sender (flip_bits sent.now.frame.now (bits_on channel sent.now.flips.now)) sent.now.offset) }
    {
        if is_among(channel, sent.incidents.send_silence) {
            return;
        }
        let noisy = is_among(channel, sent.incidents.send_noise);
        match self.content {
            Content::Silence if !noisy => self.carry(sent, channel),
            _ => self.content = Content::Noise,
        }
    }

    /// What is there, for a receiver without faults.
    pub(crate) fn arrival(&self) -> Arrival<'_>
        ensures { Shows result self.now.signal (λ _. self.now.offset) }
    {
        match self.content {
            Content::Silence => Arrival::Silence,
            Content::Noise => Arrival::Noise,
            Content::Bits { sender: _, offset } => Arrival::Bits {
                bytes: self.frame.as_slice(),
                offset,
            },
        }
    }
}
