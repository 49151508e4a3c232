//! The line of a script that a story names.
ghost use Rattle.std.specs.Prelude.{◌≡◌, ◌++◌, ◌<◌, length, OnOk};
ghost use Rattle.ttp_world.specs.declared.script.Event.TheVariants as event;
ghost use Rattle.campaign.specs.CostText.{channels_word};
ghost use Rattle.causes.specs.WhyText.{named_event_words};

use fault_runs::campaign_text::put_fault;
use ttp_base::{GrowingText, Memory};
use ttp_world::{Channels, Event};

fn put_channels(text: &mut GrowingText, channels: Channels) -> Result<(), Memory>
    ensures { OnOk result (text.new ≡ text.old ++ channels_word channels) }
{
    match (channels.a, channels.b) {
        (true, true) => text.put("AB"),
        (true, false) => text.put("A"),
        (false, _) => text.put("B"),
    }
}

fn put_flip(
    text: &mut GrowingText,
    node: u8,
    channels: Channels,
    bit: u16,
    slot: u32,
) -> Result<(), Memory>
    ensures { OnOk result (text.new ≡ text.old ++ named_event_words (event.Flip node channels bit slot)) }
{
    text.put("flip ")?;
    text.put_number(u64::from(node))?;
    text.put(" ")?;
    put_channels(text, channels)?;
    text.put(" ")?;
    text.put_number(u64::from(bit))?;
    text.put(" ")?;
    text.put_number(u64::from(slot))
}

fn put_error(text: &mut GrowingText, node: u8, value: i64, from: u32, to: u32) -> Result<(), Memory>
    ensures { OnOk result (text.new ≡ text.old ++ named_event_words (event.Error node value from to)) }
{
    text.put("error ")?;
    text.put_number(u64::from(node))?;
    text.put(" ")?;
    text.put_signed(value)?;
    text.put(" ")?;
    text.put_number(u64::from(from))?;
    text.put(" ")?;
    text.put_number(u64::from(to))
}

fn put_arm(text: &mut GrowingText, node: u8, slot: u32) -> Result<(), Memory>
    ensures { OnOk result (text.new ≡ text.old ++ named_event_words (event.Arm node slot)) }
{
    text.put("arm ")?;
    text.put_number(u64::from(node))?;
    text.put(" ")?;
    text.put_number(u64::from(slot))
}

/// Adds the line of an event as a script may have it, without its line feed. What a host does has no words.
///
/// # Errors
///
/// Where memory was refused; some of it may have been added.
pub fn put_event(text: &mut GrowingText, event: &Event) -> Result<(), Memory>
    ensures { OnOk result (text.new ≡ text.old ++ named_event_words event.now) }
{
    match event {
        Event::Flip {
            node,
            channels,
            bit,
            slot,
        } => put_flip(text, *node, *channels, *bit, *slot),
        Event::Error {
            node,
            value,
            from,
            to,
        } => put_error(text, *node, *value, *from, *to),
        Event::Arm { node, slot } => put_arm(text, *node, *slot),
        Event::Send { .. }
        | Event::Receive { .. }
        | Event::Jump { .. }
        | Event::Write { .. }
        | Event::Read { .. } => { put_fault(text, event) }
    }
}
