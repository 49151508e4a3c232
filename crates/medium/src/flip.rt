//! Flipped bits.
ghost use Rattle.std.specs.Prelude.{◌≡◌, ◌<◌};
ghost use Rattle.ttp_world.specs.Medium.{flip_in_byte, flip_bit, flip_bits};
ghost use Rattle.ttp_world.specs.Script.{is_among, bits_on};

use ttp_world::{Channel, Channels, FlippedBit};

/// Whether a channel is one of these.
pub fn is_among(channel: Channel, channels: Channels) -> bool
    ensures { result ≡ is_among channel channels }
{
    match channel {
        Channel::A => channels.a,
        Channel::B => channels.b,
    }
}

// A byte with a bit flipped, counted from the least significant.
fn flip_in_byte(place: u8, byte: u8) -> u8
    requires { place < 8 }
    ensures { result ≡ flip_in_byte place byte }
{
    byte ^ (1 << place)
}

// Flips a bit, counted from the first byte's most significant. One past the end has no effect.
fn flip_bit(bytes: &mut [u8], bit: u16)
    ensures { bytes.new ≡ flip_bit bytes.old bit }
{
    let at = (bit / 8) as usize;
    if at < bytes.len() {
        bytes[at] = flip_in_byte((7 - bit % 8) as u8, bytes[at]);
    }
}

/// Flips those of the bits that are flipped on a channel, one after the other.
pub fn flip_bits(bytes: &mut [u8], flips: &[FlippedBit], channel: Channel)
    ensures { bytes.new ≡ flip_bits bytes.old (bits_on channel flips.now) }
{
    for flip in flips {
        if is_among(channel, flip.channels) {
            flip_bit(bytes, flip.bit);
        }
    }
}
