//! The lines of the text of frames.
ghost use Rattle.std.specs.Prelude.{◌≡◌, ℕ, ℤ, ◌+◌, ◌*◌, ◌^◌, ◌≤◌, ◌<◌, ◌++◌, length, true, codes, decimal};
ghost use Rattle.std.specs.Fmt.{signed_decimal};
ghost use Rattle.ttp_base.specs.NodeSet.{set_bits};
ghost use Rattle.ttp_base.specs.Text.{hex_bytes};
ghost use Rattle.ttp_world.specs.Frame.{cstate_bytes};
ghost use Rattle.ttp_world.specs.Fitting.{carried_length};
ghost use Rattle.ttp_world.specs.Medium.{Signal};
ghost use Rattle.ttp_world.specs.Medl.{IsValid, member_bytes, member_limit, member_width};
ghost use Rattle.medium.specs.Shows.{Shows};
ghost use Rattle.bus_frames.specs.FrameText.{frame_head, channel_letter, frame_kind, match_word, found_word};
ghost use Rattle.bus_frames.specs.FrameText.{spaced, byte_words, line_front, frame_line, signal_line};
ghost use Rattle.bus_frames.specs.Standing.{IsAsLong, IsSendable};

use crate::sending::Sending;
use line_form::{put_hexed, put_number, put_payload, put_signed, put_word};
use medium::Arrival;
use ttp_base::Line;
use ttp_frame::{Expect, FrameMatch, judge};
use ttp_world::{CState, Channel, Medl, Script};

/// The first line.
#[tactic(auto, unfolding(line_form::specs::Forms::worded))]
pub(crate) fn head_line(list: &Medl, script: &Script) -> Line
    requires { IsValid list.now }
    ensures { result ≡ frame_head list.now script.now }
{
    let mut line = Line::new();
    put_number(&mut line, "ttplab frames ", u64::from(list.version));
    put_number(&mut line, " nodes ", u64::from(list.nodes()));
    put_number(&mut line, " rounds ", u64::from(list.rounds));
    put_number(&mut line, " slots ", u64::from(script.slots));
    put_hexed(&mut line, " schedule ", u64::from(list.schedule), 6);
    line.put_text("\n");
    line
}

fn channel_letter(channel: Channel) -> &'static str
    ensures text { result.now ≡ channel_letter channel }
    ensures short { length result.now ≤ 1 }
{
    match channel {
        Channel::A => "A",
        Channel::B => "B",
    }
}

fn frame_kind(header: u8) -> &'static str
    ensures text { result.now ≡ frame_kind header }
    ensures short { length result.now ≤ 4 }
{
    match header {
        0 => "N",
        1 => "I",
        2 => "X",
        _ => "cold",
    }
}

fn match_word(found: FrameMatch) -> &'static str
    ensures text { result.now ≡ match_word found }
    ensures short { length result.now ≤ 7 }
{
    match found {
        FrameMatch::Match => "match",
        FrameMatch::Differs => "differs",
        FrameMatch::Invalid => "invalid",
    }
}

// Adds the digits of a C-state, which are those of its bytes.
#[tactic(auto, using(ttp_base::proofs::Room::room))]
fn put_state(line: &mut Line, wide: bool, c: &CState)
    requires room { length line.old ≤ 200 }
    requires members { set_bits c.now.members < 2 ^ (8 * member_bytes wide) }
    ensures text { line.new ≡ line.old ++ hex_bytes (cstate_bytes (member_bytes wide) c.now) }
    ensures short { length line.new ≤ length line.old + 14 }
{
    line.put_hex(u64::from(c.time), 4);
    line.put_hex(u64::from(c.round), 2);
    line.put_hex(u64::from(c.slot), 2);
    if wide {
        line.put_hex(u64::from(c.members.bits()), 6);
    } else {
        line.put_hex(u64::from(c.members.bits()), 4);
    }
}

// Adds the words up to the sender.
#[tactic(auto, using(ttp_base::proofs::Room::room), unfolding(line_form::specs::Forms::worded))]
fn put_place(line: &mut Line, slot: u32, channel: Channel, node: u8)
    requires room { length line.old ≡ 0 }
    ensures text { line.new ≡ codes "slot " ++ decimal slot ++ codes " " ++ channel_letter channel
        ++ codes " node " ++ decimal node }
    ensures short { length line.new ≤ 36 }
{
    put_number(line, "slot ", u64::from(slot));
    put_word(line, " ", channel_letter(channel));
    put_number(line, " node ", u64::from(node));
}

// Adds a clock and a C-state.
#[tactic(auto, using(ttp_base::proofs::Room::room), unfolding(line_form::specs::Forms::worded))]
fn put_sender(line: &mut Line, wide: bool, clock: i64, state: &CState)
    requires room { length line.old ≤ 60 }
    requires members { set_bits state.now.members < 2 ^ (8 * member_bytes wide) }
    ensures text { line.new ≡ line.old ++ codes " clock " ++ signed_decimal clock
        ++ codes " state " ++ hex_bytes (cstate_bytes (member_bytes wide) state.now) }
    ensures short { length line.new ≤ length line.old + 48 }
{
    put_signed(line, " clock ", clock);
    line.put_text(" state ");
    put_state(line, wide, state);
}

// Adds the words of a line before its bytes.
#[tactic(auto, using(ttp_base::proofs::Room::room), unfolding(line_form::specs::Forms::worded))]
fn put_front(
    line: &mut Line,
    list: &Medl,
    slot: u32,
    channel: Channel,
    sending: &Sending,
    word: &str,
)
    requires room { length line.old ≡ 0 }
    requires word { length word.now ≤ 9 }
    requires sendable { IsSendable list.now sending.now }
    ensures text { line.new ≡ line_front list.now slot channel sending.now word.now }
    ensures short { length line.new ≤ 100 }
{
    put_place(line, slot, channel, sending.node);
    put_word(line, " ", frame_kind(sending.header));
    put_word(line, " ", word);
    put_sender(line, list.is_wide(), sending.clock, &sending.state);
}

// Adds the digits of bytes behind a space; nothing where there are none.
#[tactic(auto, using(ttp_base::proofs::Room::room), unfolding(line_form::specs::Forms::worded))]
fn put_spaced(line: &mut Line, bytes: &[u8])
    requires { length line.old + 1 + 2 * length bytes.now ≤ 640 }
    ensures text { line.new ≡ line.old ++ spaced bytes.now }
    ensures short { length line.new ≤ length line.old + 1 + 2 * length bytes.now }
{
    if !bytes.is_empty() {
        put_payload(line, " ", bytes);
    }
}

// How many bytes of C-state a frame with this header has.
fn carried_length(wide: bool, header: u8) -> usize
    ensures value { result ≡ carried_length (member_bytes wide) header }
    ensures few { result ≤ 7 }
{
    if header == 0 {
        0
    } else if wide {
        7
    } else {
        6
    }
}

// Adds the bytes of a frame in words.
fn put_bytes(line: &mut Line, wide: bool, header: u8, size: u8, bytes: &[u8])
    requires room { length line.old ≤ 100 }
    requires long { length bytes.now
        ≡ 1 + carried_length (member_bytes wide) header + size + 3 }
    requires size { size ≤ 240 }
    ensures text { line.new ≡ line.old ++ byte_words (member_bytes wide) header size bytes.now }
    ensures short { length line.new ≤ 610 }
{
    let (first, behind) = bytes.split_at(1);
    let (state, behind) = behind.split_at(carried_length(wide, header));
    let (payload, word) = behind.split_at(size as usize);
    put_spaced(line, first);
    put_spaced(line, state);
    put_spaced(line, payload);
    put_spaced(line, word);
}

// What bytes are to a receiver that expects the frame.
fn found_word(list: &Medl, sending: &Sending, bytes: &[u8]) -> &'static str
    requires valid { IsValid list.now }
    requires sendable { IsSendable list.now sending.now }
    ensures text { result.now ≡ found_word list.now sending.now bytes.now }
    ensures short { length result.now ≤ 7 }
{
    let expect = Expect {
        wide: list.is_wide(),
        header: sending.header,
        payload: sending.size,
    };
    match_word(judge(bytes, list.schedule, &expect, &sending.state))
}

/// The line of a frame that meets another on the channel.
#[tactic(auto, using(ttp_base::proofs::Room::room))]
pub(crate) fn collision_line(
    list: &Medl,
    slot: u32,
    channel: Channel,
    sending: &Sending,
    line: &mut Line,
)
    requires sendable { IsSendable list.now sending.now }
    ensures { (s : Signal) → line.new ≡ frame_line list.now slot channel sending.now true s }
{
    line.clear();
    put_front(line, list, slot, channel, sending, "collision");
    line.put_text("\n");
}

/// The line of a frame, where this is on the channel and the frame alone.
#[tactic(auto, using(ttp_base::proofs::Room::room))]
pub(crate) fn signal_line(
    list: &Medl,
    slot: u32,
    channel: Channel,
    sending: &Sending,
    there: &Arrival,
    line: &mut Line,
)
    requires valid { IsValid list.now }
    requires sendable { IsSendable list.now sending.now }
    requires long { IsAsLong list.now sending.now there.now }
    ensures { (s : Signal) (clock : ℕ → ℤ) → Shows there.now s clock
        → line.new ≡ signal_line list.now slot channel sending.now s }
{
    line.clear();
    match there {
        Arrival::Silence => {}
        Arrival::Noise => {
            put_front(line, list, slot, channel, sending, "noise");
            line.put_text("\n");
        }
        Arrival::Bits { bytes, .. } => {
            let word = found_word(list, sending, bytes);
            put_front(line, list, slot, channel, sending, word);
            put_bytes(line, list.is_wide(), sending.header, sending.size, bytes);
            line.put_text("\n");
        }
    }
}
