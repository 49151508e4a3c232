//! What a trace shows of hosts in a slot.
ghost use Rattle.std.specs.Prelude.{◌≡◌};
ghost use Rattle.whole_trace.specs.declared.shown.HostLine.TheVariants as line;
ghost use Rattle.shown_slot.specs.Ports.{same_source, message_in_line};

use ttp_world::{Payload, Source};
use whole_trace::HostLine;

/// What a host does with messages: it writes its node's, or reads those of a source.
#[derive(Clone, Copy)]
pub enum What {
    Write,
    Read(Source),
}

/// A message that a host wrote or read: its number, and what was read of it.
#[derive(Drop)]
pub struct Message {
    pub number: u64,
    /// No bytes where it was written, since the line says none.
    pub payload: Payload,
}

/// What a host does anywhere in a trace, with the most bytes that one of these lines says.
#[derive(Clone, Copy)]
pub struct Port {
    pub host: u8,
    pub what: What,
    pub size: u8,
}

fn same_source(one: Source, other: Source) -> bool
    ensures { result ≡ same_source one other }
{
    match one {
        Source::Status => match other {
            Source::Status => true,
            Source::Node(_) => false,
        },
        Source::Node(p) => match other {
            Source::Status => false,
            Source::Node(q) => p == q,
        },
    }
}

// The message of a line of a host that wrote, if it is this host and writes are asked for.
fn written(host: u8, what: What, writer: u8, number: u64) -> Option<Message>
    ensures { result ≡ message_in_line host what (line.Write writer number) }
{
    match what {
        What::Write => {
            if writer != host {
                return None;
            }
            Some(Message {
                number,
                payload: Payload::of(&[]),
            })
        }
        What::Read(_) => None,
    }
}

// That of a host that read, if it is this host and what was read is asked for.
fn read(
    host: u8,
    what: What,
    reader: u8,
    source: Source,
    number: u64,
    payload: &Payload,
) -> Option<Message>
    ensures { result ≡ message_in_line host what (line.Read reader source number payload.now) }
{
    match what {
        What::Write => None,
        What::Read(from) => {
            if reader != host || !same_source(from, source) {
                return None;
            }
            Some(Message {
                number,
                payload: Payload::of(payload.bytes()),
            })
        }
    }
}

/// The message of a host's line, if it is this host and does this in it.
pub fn message_in_line(host: u8, what: What, line: &HostLine) -> Option<Message>
    ensures { result ≡ message_in_line host what line.now }
{
    match line {
        HostLine::Write {
            host: writer,
            number,
        } => written(host, what, *writer, *number),
        HostLine::Read {
            host: reader,
            source,
            number,
            payload,
        } => read(host, what, *reader, *source, *number, payload),
    }
}
