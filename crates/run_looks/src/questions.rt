//! The lines of a script that have a part in what happens to a node in a slot.
ghost use Rattle.std.specs.Prelude.{◌≡◌, ◌&&◌, OnOk};
ghost use Rattle.causes.specs.Clocks.{errs, jumps_clock};
ghost use Rattle.causes.specs.LinesOf.{first_line, flips_bit, is_on_both, lines_where, strikes, widest_line};
ghost use Rattle.causes.specs.Sources.{only_lines};
ghost use Rattle.run_looks.specs.Added.{AddsSources};
ghost use Rattle.run_looks.specs.Questions.{is_meant, senders_by};
ghost use Rattle.ttp_world.specs.Events.{arms, covers, is_among, is_receive_fault, is_send_fault};

use crate::sources::Sources;
use causes::ScriptLine;
use run_rows::RunRows;
use ttp_base::Memory;
use ttp_world::{Channel, Channels, Event, Fault};

/// What is asked of an event.
#[derive(Clone, Copy)]
pub enum Question {
    /// It strikes what a receiver hears on a channel, or the frame of this one sender.
    Strikes {
        kind: Fault,
        receiver: u8,
        sender: Option<u8>,
        channel: Channel,
        slot: u32,
    },
    /// It strikes what a node sends on a channel.
    StrikesSender {
        kind: Fault,
        sender: u8,
        channel: Channel,
        slot: u32,
    },
    /// It silences both channels of a receiver.
    Deafens {
        receiver: u8,
        slot: u32,
    },
    /// It flips this bit of a node's frame on a channel.
    Flips {
        sender: u8,
        channel: Channel,
        slot: u32,
        bit: u16,
    },
    /// It arms a node.
    Arms {
        node: u8,
        slot: u32,
    },
    /// It makes a clock jump, other than by nothing.
    Jumps {
        node: u8,
        slot: u32,
    },
    /// It gives a receiver a reading error, other than of nothing.
    Errs {
        node: u8,
        slot: u32,
    },
}

fn is_among(channel: Channel, channels: &Channels) -> bool
    ensures { result ≡ is_among channel channels.now }
{
    match channel {
        Channel::A => channels.a,
        Channel::B => channels.b,
    }
}

fn covers(from: u32, to: u32, slot: u32) -> bool
    ensures { result ≡ covers from to slot }
{
    from <= slot && slot <= to
}

fn is_send_fault(kind: Fault, sender: u8, channel: Channel, slot: u32, event: &Event) -> bool
    ensures { result ≡ is_send_fault kind sender channel slot event.now }
{
    match event {
        Event::Send {
            node,
            channels,
            fault,
            from,
            to,
        } => {
            *node == sender
                && is_among(channel, channels)
                && *fault == kind
                && covers(*from, *to, slot)
        }
        _ => false,
    }
}

fn is_receive_fault(kind: Fault, receiver: u8, channel: Channel, slot: u32, event: &Event) -> bool
    ensures { result ≡ is_receive_fault kind receiver channel slot event.now }
{
    match event {
        Event::Receive {
            node,
            channels,
            fault,
            from,
            to,
        } => {
            *node == receiver
                && is_among(channel, channels)
                && *fault == kind
                && covers(*from, *to, slot)
        }
        _ => false,
    }
}

// A loss is on both channels.
fn is_on_both(event: &Event) -> bool
    ensures { result ≡ is_on_both event.now }
{
    match event {
        Event::Send { channels, .. } | Event::Receive { channels, .. } => channels.a && channels.b,
        _ => false,
    }
}

fn strikes(
    kind: Fault,
    receiver: u8,
    sender: Option<u8>,
    channel: Channel,
    slot: u32,
    event: &Event,
) -> bool
    ensures { result ≡ strikes kind receiver channel slot (senders_by sender) event.now }
{
    if is_receive_fault(kind, receiver, channel, slot, event) {
        return true;
    }
    match sender {
        Some(sender) => is_send_fault(kind, sender, channel, slot, event),
        None => false,
    }
}

fn flips(sender: u8, channel: Channel, slot: u32, bit: u16, event: &Event) -> bool
    ensures { result ≡ flips_bit sender channel slot bit event.now }
{
    match event {
        Event::Flip {
            node,
            channels,
            bit: other,
            slot: at,
        } => *node == sender && is_among(channel, channels) && *at == slot && *other == bit,
        _ => false,
    }
}

fn arms(node: u8, slot: u32, event: &Event) -> bool
    ensures { result ≡ arms node slot event.now }
{
    match event {
        Event::Arm {
            node: armed,
            slot: at,
        } => *armed == node && *at == slot,
        _ => false,
    }
}

fn jumps(node: u8, slot: u32, event: &Event) -> bool
    ensures { result ≡ jumps_clock node slot event.now }
{
    match event {
        Event::Jump {
            node: other,
            value,
            slot: at,
        } => *other == node && *at == slot && *value != 0,
        _ => false,
    }
}

fn errs(node: u8, slot: u32, event: &Event) -> bool
    ensures { result ≡ errs node slot event.now }
{
    match event {
        Event::Error {
            node: other,
            value,
            from,
            to,
        } => *other == node && covers(*from, *to, slot) && *value != 0,
        _ => false,
    }
}

// An event is what is asked for.
fn is_meant(question: Question, event: &Event) -> bool
    ensures { result ≡ is_meant question event.now }
{
    match question {
        Question::Strikes {
            kind,
            receiver,
            sender,
            channel,
            slot,
        } => strikes(kind, receiver, sender, channel, slot, event),
        Question::StrikesSender {
            kind,
            sender,
            channel,
            slot,
        } => is_send_fault(kind, sender, channel, slot, event),
        Question::Deafens { receiver, slot } => {
            is_receive_fault(Fault::Silence, receiver, Channel::A, slot, event) && is_on_both(event)
        }
        Question::Flips {
            sender,
            channel,
            slot,
            bit,
        } => flips(sender, channel, slot, bit, event),
        Question::Arms { node, slot } => arms(node, slot, event),
        Question::Jumps { node, slot } => jumps(node, slot, event),
        Question::Errs { node, slot } => errs(node, slot, event),
    }
}

/// The first line that is meant, if there is one.
pub fn first_line(run: &RunRows, question: Question) -> Option<ScriptLine>
    ensures { result ≡ first_line (lines_where (is_meant question) run.now.script) }
{
    let events = run.script().events.as_slice();
    for place in 0..events.len() {
        if is_meant(question, &events[place]) {
            return Some(ScriptLine::Event(place));
        }
    }
    None
}

// An event is what is asked for, on both channels.
fn is_meant_on_both(question: Question, event: &Event) -> bool
    ensures { result ≡ (is_meant question event.now && is_on_both event.now) }
{
    is_meant(question, event) && is_on_both(event)
}

// The first line that is meant and stands on both channels.
fn first_on_both(run: &RunRows, question: Question) -> Option<ScriptLine>
    ensures { result ≡ first_line (lines_where (λ e. is_meant question e && is_on_both e) run.now.script) }
{
    let events = run.script().events.as_slice();
    for place in 0..events.len() {
        if is_meant_on_both(question, &events[place]) {
            return Some(ScriptLine::Event(place));
        }
    }
    None
}

/// Of the lines that are meant the first with channels AB, or else the first.
pub fn widest_line(run: &RunRows, question: Question) -> Option<ScriptLine>
    ensures { result ≡ widest_line (is_meant question) run.now.script }
{
    match first_on_both(run, question) {
        Some(line) => Some(line),
        None => first_line(run, question),
    }
}

/// Adds all lines that are meant, ascending.
///
/// # Errors
///
/// Where memory was refused; some of them may have been added.
pub fn add_lines(run: &RunRows, question: Question, out: &mut Sources) -> Result<(), Memory>
    ensures { OnOk result (AddsSources out.old out.new (only_lines (lines_where (is_meant question) run.now.script))) }
{
    let events = run.script().events.as_slice();
    for place in 0..events.len() {
        if is_meant(question, &events[place]) {
            out.add_line(ScriptLine::Event(place))?;
        }
    }
    Ok(())
}
