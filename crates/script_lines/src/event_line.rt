//! The line of an event.
#![tactic(auto, using(ttp_base::proofs::Room::room), unfolding(crate::specs::ScriptLines::event_words, line_form::specs::Forms::worded))]

ghost use Rattle.std.specs.Prelude.{◌≡◌, ◌+◌, ◌≤◌, ◌++◌, length};
ghost use Rattle.ttp_world.specs.declared.script.Event.TheVariants as event;
ghost use Rattle.ttp_world.specs.Trace.{source_word};
ghost use Rattle.campaign.specs.CostText.{channels_word, kind_word, loss_words};
ghost use Rattle.script_lines.specs.ScriptLines.{event_words, event_line};

use line_form::{put_number, put_signed};
use ttp_base::Line;
use ttp_world::{Channels, Event, Fault, Payload, Source};

fn channels_word(channels: Channels) -> &'static str
    ensures text { result.now ≡ channels_word channels }
    ensures short { length result.now ≤ 2 }
{
    match (channels.a, channels.b) {
        (true, true) => "AB",
        (true, false) => "A",
        (false, _) => "B",
    }
}

fn kind_word(fault: Fault) -> &'static str
    ensures text { result.now ≡ kind_word fault }
    ensures short { length result.now ≤ 7 }
{
    match fault {
        Fault::Silence => "silence",
        Fault::Noise => "noise",
    }
}

// Adds the words of a loss.
fn put_loss(
    line: &mut Line,
    word: &str,
    node: u8,
    channels: Channels,
    fault: Fault,
    from: u32,
    to: u32,
)
    requires { length line.old + length word.now + 100 ≤ 640 }
    ensures text { line.new ≡ line.old ++ loss_words word.now node channels fault from to }
    ensures short { length line.new ≤ length line.old + length word.now + 100 }
{
    put_number(line, word, u64::from(node));
    line.put_text(" ");
    line.put_text(channels_word(channels));
    line.put_text(" ");
    line.put_text(kind_word(fault));
    put_number(line, " ", u64::from(from));
    put_number(line, " ", u64::from(to));
}

// Adds those of a flipped bit.
fn put_flip(line: &mut Line, node: u8, channels: Channels, bit: u16, slot: u32)
    requires { length line.old + 100 ≤ 640 }
    ensures text { line.new ≡ line.old ++ event_words (event.Flip node channels bit slot) }
    ensures short { length line.new ≤ length line.old + 100 }
{
    put_number(line, "flip ", u64::from(node));
    line.put_text(" ");
    line.put_text(channels_word(channels));
    put_number(line, " ", u64::from(bit));
    put_number(line, " ", u64::from(slot));
}

// Adds those of a reading error.
fn put_error(line: &mut Line, node: u8, value: i64, from: u32, to: u32)
    requires { length line.old + 100 ≤ 640 }
    ensures text { line.new ≡ line.old ++ event_words (event.Error node value from to) }
    ensures short { length line.new ≤ length line.old + 100 }
{
    put_number(line, "error ", u64::from(node));
    put_signed(line, " ", value);
    put_number(line, " ", u64::from(from));
    put_number(line, " ", u64::from(to));
}

// Adds those of a jump.
fn put_jump(line: &mut Line, node: u8, value: i64, slot: u32)
    requires { length line.old + 100 ≤ 640 }
    ensures text { line.new ≡ line.old ++ event_words (event.Jump node value slot) }
    ensures short { length line.new ≤ length line.old + 100 }
{
    put_number(line, "jump ", u64::from(node));
    put_signed(line, " ", value);
    put_number(line, " ", u64::from(slot));
}

// Adds those of a node that is armed.
fn put_arm(line: &mut Line, node: u8, slot: u32)
    requires { length line.old + 100 ≤ 640 }
    ensures text { line.new ≡ line.old ++ event_words (event.Arm node slot) }
    ensures short { length line.new ≤ length line.old + 100 }
{
    put_number(line, "arm ", u64::from(node));
    put_number(line, " ", u64::from(slot));
}

// Adds those of a message.
fn put_message(line: &mut Line, node: u8, slot: u32, payload: &Payload)
    requires { length line.old + 600 ≤ 640 }
    ensures text { line.new ≡ line.old ++ event_words (event.Write node slot payload.now) }
    ensures short { length line.new ≤ length line.old + 600 }
{
    put_number(line, "write ", u64::from(node));
    put_number(line, " ", u64::from(slot));
    line.put_text(" ");
    line.put_hex_bytes(payload.bytes());
}

// Adds the word for what a host reads.
fn put_source(line: &mut Line, from: Source)
    requires { length line.old + 20 ≤ 640 }
    ensures text { line.new ≡ line.old ++ source_word from }
    ensures short { length line.new ≤ length line.old + 20 }
{
    match from {
        Source::Status => line.put_text("status"),
        Source::Node(node) => line.put_number(u64::from(node)),
    }
}

// Adds those of a read.
fn put_read(line: &mut Line, node: u8, slot: u32, from: Source)
    requires { length line.old + 100 ≤ 640 }
    ensures text { line.new ≡ line.old ++ event_words (event.Read node slot from) }
    ensures short { length line.new ≤ length line.old + 100 }
{
    put_number(line, "read ", u64::from(node));
    put_number(line, " ", u64::from(slot));
    line.put_text(" ");
    put_source(line, from);
}

// Adds those of any event.
fn put_words(line: &mut Line, event: &Event)
    requires { length line.old + 610 ≤ 640 }
    ensures text { line.new ≡ line.old ++ event_words event.now }
    ensures short { length line.new ≤ length line.old + 610 }
{
    match event {
        Event::Send {
            node,
            channels,
            fault,
            from,
            to,
        } => put_loss(line, "send ", *node, *channels, *fault, *from, *to),
        Event::Receive {
            node,
            channels,
            fault,
            from,
            to,
        } => put_loss(line, "receive ", *node, *channels, *fault, *from, *to),
        Event::Flip {
            node,
            channels,
            bit,
            slot,
        } => put_flip(line, *node, *channels, *bit, *slot),
        Event::Error {
            node,
            value,
            from,
            to,
        } => put_error(line, *node, *value, *from, *to),
        Event::Jump { node, value, slot } => put_jump(line, *node, *value, *slot),
        Event::Arm { node, slot } => put_arm(line, *node, *slot),
        Event::Write {
            node,
            slot,
            payload,
        } => put_message(line, *node, *slot, payload),
        Event::Read { node, slot, source } => put_read(line, *node, *slot, *source),
    }
}

/// The line.
pub(crate) fn event_line(event: &Event) -> Line
    ensures { result ≡ event_line event.now }
{
    let mut line = Line::new();
    put_words(&mut line, event);
    line.put_text("\n");
    line
}
