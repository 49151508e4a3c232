//! The lines of what hosts write and read in a slot.
ghost use Rattle.std.specs.Prelude.{◌≡◌, ◌+◌, ◌*◌, ◌≤◌, ◌++◌, length};
ghost use Rattle.std.specs.List.{flat_map};
ghost use Rattle.ttp_base.specs.Text.{hex_bytes};
ghost use Rattle.ttp_world.specs.declared.script.Source.TheVariants as source;
ghost use Rattle.ttp_world.specs.Trace.{word_hex, message_hex};
ghost use Rattle.line_text.specs.HostLines.{bytes_in, message_in, HasWords, written_line, message_line};

use crate::shared::{put_host, put_source};
use line_form::{put_number, put_payload};
use ttp_base::Line;
use ttp_world::Source;

/// A message as its ring gives it to the host that reads it.
#[derive(Clone, Copy)]
pub struct RingMessage<'a> {
    /// The ring that it was read from.
    pub source: Source,
    /// Its number in the ring.
    pub number: u64,
    /// Its words: the four of a status, and else those of a payload, the first byte most significant
    /// and zeros behind the last.
    pub words: &'a [u64],
    /// How many bytes a payload has. Of a status it says nothing.
    pub size: u8,
}

// Adds words, sixteen digits for each.
#[tactic(auto, using(crate::proofs::WordTexts::lengths))]
fn put_words(line: &mut Line, words: &[u64])
    requires { length line.old + 16 * length words.now ≤ 640 }
    ensures text { line.new ≡ line.old ++ flat_map word_hex words.now }
    ensures short { length line.new ≤ length line.old + 16 * length words.now }
{
    for word in words {
        line.put_hex(*word, 16);
    }
}

// Adds the first bytes of words, two digits for each byte.
#[tactic(auto, using(crate::proofs::WordTexts::lengths))]
fn put_bytes(line: &mut Line, words: &[u64], size: u8)
    requires { length line.old + 2 * size ≤ 640 }
    ensures text { line.new ≡ line.old ++ hex_bytes (bytes_in size words.now) }
    ensures short { length line.new ≤ length line.old + 2 * size }
{
    let mut left = size as usize;
    for word in words {
        let count = left.min(8);
        line.put_hex_bytes(&word.to_be_bytes()[..count]);
        left -= count;
    }
}

fn put_message(line: &mut Line, message: &RingMessage)
    requires room { length line.old + 500 ≤ 640 }
    requires words { HasWords message.now.source message.now.size message.now.words.now }
    ensures text { line.new ≡ line.old
        ++ message_hex message.now.source (message_in message.now.source message.now.size message.now.words.now) }
    ensures short { length line.new ≤ length line.old + 500 }
{
    match message.source {
        Source::Status => put_words(line, message.words),
        Source::Node(_) => put_bytes(line, message.words, message.size),
    }
}

/// The line of a message that a host wrote.
#[tactic(auto, unfolding(line_form::specs::Forms::worded))]
pub(crate) fn make_write_line(slot: u32, host: u8, number: u64, line: &mut Line)
    ensures { line.new ≡ written_line slot host number }
{
    line.clear();
    put_host(line, slot, host);
    put_number(line, " write ", number);
    line.put_text("\n");
}

/// The line of a message that a host read.
#[tactic(auto, using(ttp_base::proofs::Room::room), unfolding(line_form::specs::Forms::worded))]
pub(crate) fn make_read_line(slot: u32, host: u8, message: &RingMessage, line: &mut Line)
    requires { HasWords message.now.source message.now.size message.now.words.now }
    ensures { line.new ≡ message_line slot host message.now.source message.now.number
        (message_in message.now.source message.now.size message.now.words.now) }
{
    line.clear();
    put_host(line, slot, host);
    line.put_text(" read ");
    put_source(line, message.source);
    put_number(line, " ", message.number);
    line.put_text(" ");
    put_message(line, message);
    line.put_text("\n");
}

/// The line of a message of a node that a host read, by the message's bytes.
#[tactic(auto, using(ttp_base::proofs::Room::room), unfolding(line_form::specs::Forms::worded))]
pub(crate) fn make_payload_line(
    slot: u32,
    host: u8,
    from: u8,
    number: u64,
    payload: &[u8],
    line: &mut Line,
)
    requires { length payload.now ≤ 240 }
    ensures { line.new ≡ message_line slot host (source.Node from) number payload.now }
{
    line.clear();
    put_host(line, slot, host);
    line.put_text(" read ");
    put_source(line, Source::Node(from));
    put_number(line, " ", number);
    put_payload(line, " ", payload);
    line.put_text("\n");
}
