//! What is written to a port's rings: status, delivered messages, and a host's messages.
ghost use Rattle.std.specs.Prelude.{◌≡◌, ◌<◌, ◌≤◌, ◌*◌, length, IsSomeAnd};
ghost use Rattle.ttp_world.specs.declared.script.Source.TheVariants as source;
ghost use Rattle.ttp_world.specs.Words.{words_of_payload};
ghost use Rattle.host_port.specs.Rings.{at_source, IsControllerEndOf, IsHostEndOf};
ghost use Rattle.host_port.specs.Writing.{written, written_at, HasRoom, Takes, IsNewest};

use crate::ends::{ControllerEnd, HostEnd};
use crate::port::Port;
use crate::source::source_place;
use crate::words::{MOST_WORDS, put_words};
use nbw_ring::Writer;
use ttp_base::Gate;
use ttp_world::{Delivered, Source, StatusWords};

// Writes a message to a ring, and answers its number.
fn write_words<G: Gate>(writer: &mut Option<Writer>, words: &[u64], gate: &G) -> u64
    requires width { IsSomeAnd writer.old (λ w. length words.now ≡ w.ring.shape.width) }
    requires room { HasRoom writer.old }
    ensures written { writer.new ≡ written writer.old words.now }
    ensures number { IsNewest writer.new result }
{
    if let Some(writer) = writer {
        writer.write(words, gate);
        return writer.number();
    }
    0
}

// The same of a payload, whose words are put over these.
fn write_over<G: Gate>(
    writer: &mut Option<Writer>,
    payload: &[u8],
    words: &mut [u64],
    gate: &G,
) -> u64
    requires payload { Takes writer.old (length payload.now) }
    requires words { length payload.now ≤ 8 * length words.old }
    requires room { HasRoom writer.old }
    ensures written { writer.new ≡ written writer.old (words_of_payload payload.now) }
    ensures number { IsNewest writer.new result }
{
    let count = put_words(payload, words);
    write_words(writer, &words[..count], gate)
}

// The same. Most payloads are short, and need no room for the words of the longest one.
fn write_payload<G: Gate>(writer: &mut Option<Writer>, payload: &[u8], gate: &G) -> u64
    requires payload { Takes writer.old (length payload.now) }
    requires room { HasRoom writer.old }
    ensures written { writer.new ≡ written writer.old (words_of_payload payload.now) }
    ensures number { IsNewest writer.new result }
{
    if payload.len() <= 64 {
        return write_over(writer, payload, &mut [0; 8], gate);
    }
    write_over(writer, payload, &mut [0; MOST_WORDS], gate)
}

impl ControllerEnd {
    /// Writes the node's status to the status ring.
    pub fn publish<G: Gate>(&mut self, status: &StatusWords, gate: &G)
        requires room { HasRoom (at_source self.old source.Status) }
        ensures written { self.new ≡ written_at self.old source.Status status.now.words }
    {
        write_words(&mut self.writers[0], &status.words, gate);
    }

    /// Writes a delivered payload to the ring of its sender, and answers the message's number there.
    pub fn deliver<G: Gate>(&mut self, got: &Delivered, gate: &G) -> u64
        requires payload { Takes (at_source self.old (source.Node got.now.sender)) (length got.now.payload) }
        requires room { HasRoom (at_source self.old (source.Node got.now.sender)) }
        ensures written { let words = words_of_payload got.now.payload in
            self.new ≡ written_at self.old (source.Node got.now.sender) words }
        ensures number { IsNewest (at_source self.new (source.Node got.now.sender)) result }
    {
        let place = source_place(Source::Node(got.sender));
        write_payload(&mut self.writers[place], got.payload.bytes(), gate)
    }
}

impl HostEnd {
    /// Writes the host's message to the outgoing ring, and answers the message's number there.
    pub fn write<G: Gate>(&mut self, payload: &[u8], gate: &G) -> u64
        requires payload { Takes self.old (length payload.now) }
        requires room { HasRoom self.old }
        ensures written { self.new ≡ written self.old (words_of_payload payload.now) }
        ensures number { IsNewest self.new result }
    {
        write_payload(&mut self.writer, payload, gate)
    }
}

impl Port {
    /// Writes a node's status to its status ring.
    pub fn publish<G: Gate>(&self, end: &mut ControllerEnd, status: &StatusWords, gate: &G)
        requires own { IsControllerEndOf self.now end.old }
        requires room { HasRoom (at_source end.old source.Status) }
        ensures own { IsControllerEndOf self.now end.new }
        ensures written { end.new ≡ written_at end.old source.Status status.now.words }
    {
        end.publish(status, gate);
    }

    /// Writes a delivered payload to the ring of its sender, and answers the message's number there.
    pub fn deliver<G: Gate>(&self, end: &mut ControllerEnd, got: &Delivered, gate: &G) -> u64
        requires own { IsControllerEndOf self.now end.old }
        requires payload { Takes (at_source end.old (source.Node got.now.sender)) (length got.now.payload) }
        requires room { HasRoom (at_source end.old (source.Node got.now.sender)) }
        ensures own { IsControllerEndOf self.now end.new }
        ensures written { let words = words_of_payload got.now.payload in
            end.new ≡ written_at end.old (source.Node got.now.sender) words }
        ensures number { IsNewest (at_source end.new (source.Node got.now.sender)) result }
    {
        end.deliver(got, gate)
    }

    /// Writes a host's message to its outgoing ring, and answers the message's number there.
    pub fn host_write<G: Gate>(&self, end: &mut HostEnd, payload: &[u8], gate: &G) -> u64
        requires own { IsHostEndOf self.now end.old }
        requires payload { Takes end.old (length payload.now) }
        requires room { HasRoom end.old }
        ensures own { IsHostEndOf self.now end.new }
        ensures written { end.new ≡ written end.old (words_of_payload payload.now) }
        ensures number { IsNewest end.new result }
    {
        end.write(payload, gate)
    }
}
