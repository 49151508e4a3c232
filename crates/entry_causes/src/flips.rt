//! Bits of frames that are flipped.
ghost use Rattle.causes.specs.LinesOf.{first_line, flipping_lines, flips_bit, is_turned, lines_where};
ghost use Rattle.causes.specs.Sources.{only_lines};
ghost use Rattle.entry_causes.specs.Hearing.{first_bits};
ghost use Rattle.run_looks.specs.Added.{AddsSources};
ghost use Rattle.std.specs.List.{filter_map};
ghost use Rattle.std.specs.Option.{option_to_list};
ghost use Rattle.std.specs.Prelude.{IfSome, OnOk, [], count_by, filter, length, not, slice_get, take, ◌&&◌, ◌%◌, ◌<◌, ◌==◌, ◌∷◌, ◌≡◌, ◌≤◌};
ghost use Rattle.ttp_base.specs.NodeSet.{has_node};
ghost use Rattle.ttp_world.specs.Events.{bits_on, is_among};
ghost use Rattle.ttp_world.specs.Medium.{flip_bits};

use medium::{Outgoing, flip_bits, is_among};
use run_looks::{Question, Sources, first_line};
use run_rows::RunRows;
use ttp_base::Memory;
use ttp_world::{Channel, FlippedBit};

/// Flips the bits of a frame that are flipped on a channel.
pub(crate) fn flip_frame(frame: &mut Outgoing, flips: &[FlippedBit], channel: Channel)
    ensures { frame.new ≡ flip_bits frame.old (bits_on channel flips.now) }
{
    let len = frame.len as usize;
    flip_bits(&mut frame.bytes[..len], flips, channel);
}

// A flip is of a bit on a channel.
fn is_of_bit(flip: &FlippedBit, channel: Channel, bit: u16) -> bool
    ensures { result ≡ has_node (bits_on channel (flip.now ∷ [])) bit }
{
    is_among(channel, flip.channels) && flip.bit == bit
}

// One of some flips is of a bit on a channel.
fn is_flipped(flips: &[FlippedBit], channel: Channel, bit: u16) -> bool
    ensures { result ≡ has_node (bits_on channel flips.now) bit }
{
    for flip in flips {
        if is_of_bit(flip, channel, bit) {
            return true;
        }
    }
    false
}

// An odd number of flips are of a bit on a channel.
fn is_odd(flips: &[FlippedBit], channel: Channel, bit: u16) -> bool
    ensures { result ≡ (count_by (λ other. other == bit) (bits_on channel flips.now) % 2 == 1) }
{
    let mut odd = false;
    for flip in flips {
        if is_of_bit(flip, channel, bit) {
            odd = !odd;
        }
    }
    odd
}

// A bit is within so many bytes, and an odd number of flips turn it on a channel.
fn is_turned(flips: &[FlippedBit], channel: Channel, size: u16, bit: u16) -> bool
    requires size { size ≤ 256 }
    ensures { result ≡ is_turned (bits_on channel flips.now) size bit }
{
    bit < 8 * size && is_odd(flips, channel, bit)
}

// The flip at a place is one on a channel, and no earlier one is of its bit.
fn is_first(flips: &[FlippedBit], channel: Channel, at: usize) -> bool
    requires at { at < length flips.now }
    ensures { IfSome (slice_get flips.now at) (λ flip. result
        ≡ (is_among channel flip.channels && not (has_node (bits_on channel (take at flips.now)) flip.bit))) }
{
    let flip = &flips[at];
    is_among(channel, flip.channels) && !is_flipped(&flips[..at], channel, flip.bit)
}

// The bit of the flip at a place on a channel, where it is turned in so many bytes, and no earlier flip is of it.
fn turned_bit(flips: &[FlippedBit], channel: Channel, size: u16, at: usize) -> Option<u16>
    requires size { size ≤ 256 }
    requires at { at < length flips.now }
    ensures { option_to_list result ≡ filter (is_turned (bits_on channel flips.now) size) (first_bits channel flips.now at) }
{
    if is_first(flips, channel, at) {
        let bit = flips[at].bit;
        if is_turned(flips, channel, size, bit) {
            Some(bit)
        } else {
            None
        }
    } else {
        None
    }
}

// Adds the first line that flips a bit of a node's frame on a channel.
fn add_bit_line(
    run: &RunRows,
    slot: u32,
    sender: u8,
    channel: Channel,
    bit: u16,
    out: &mut Sources,
) -> Result<(), Memory>
    ensures { OnOk result (AddsSources out.old out.new (only_lines
        (filter_map (λ turned. first_line (lines_where (flips_bit sender channel slot turned) run.now.script)) (bit ∷ [])))) }
{
    let question = Question::Flips {
        sender,
        channel,
        slot,
        bit,
    };
    match first_line(run, question) {
        Some(line) => out.add_line(line),
        None => Ok(()),
    }
}

// Adds the first line that flips a bit of a node's frame on a channel, if there is a bit.
fn add_turned(
    run: &RunRows,
    slot: u32,
    sender: u8,
    channel: Channel,
    bit: Option<u16>,
    out: &mut Sources,
) -> Result<(), Memory>
    ensures { OnOk result (AddsSources out.old out.new (only_lines
        (filter_map (λ turned. first_line (lines_where (flips_bit sender channel slot turned) run.now.script)) (option_to_list bit)))) }
{
    match bit {
        Some(bit) => add_bit_line(run, slot, sender, channel, bit, out),
        None => Ok(()),
    }
}

/// Adds the lines of flips of a node's frame of so many bytes on a channel.
pub(crate) fn add_flipping(
    run: &RunRows,
    slot: u32,
    sender: u8,
    channel: Channel,
    size: u16,
    out: &mut Sources,
) -> Result<(), Memory>
    requires size { size ≤ 256 }
    ensures { OnOk result (AddsSources out.old out.new (only_lines (flipping_lines run.now.script sender channel slot size))) }
{
    let flips = run.script().flips(sender, slot);
    for at in 0..flips.len() {
        let bit = turned_bit(flips, channel, size, at);
        add_turned(run, slot, sender, channel, bit, out)?;
    }
    Ok(())
}
