//! A fault, as the line of a script.
ghost use Rattle.std.specs.Prelude.{◌≡◌, ◌++◌, OnOk};
ghost use Rattle.ttp_world.specs.declared.script.Event.TheVariants as event;
ghost use Rattle.campaign.specs.CostText.{channels_word, kind_word, loss_words, fault_words};

use ttp_base::{GrowingText, Memory};
use ttp_world::{Channels, Event, Fault};

fn put_channels(text: &mut GrowingText, channels: Channels) -> Result<(), Memory>
    ensures { OnOk result (text.new ≡ text.old ++ channels_word channels) }
{
    match (channels.a, channels.b) {
        (true, true) => text.put("AB"),
        (true, false) => text.put("A"),
        (false, _) => text.put("B"),
    }
}

fn put_kind(text: &mut GrowingText, fault: Fault) -> Result<(), Memory>
    ensures { OnOk result (text.new ≡ text.old ++ kind_word fault) }
{
    match fault {
        Fault::Silence => text.put("silence"),
        Fault::Noise => text.put("noise"),
    }
}

fn put_loss(
    text: &mut GrowingText,
    word: &str,
    node: u8,
    channels: Channels,
    fault: Fault,
    from: u32,
    to: u32,
) -> Result<(), Memory>
    ensures { OnOk result (text.new ≡ text.old ++ loss_words word.now node channels fault from to) }
{
    text.put_labelled(word, u64::from(node))?;
    text.put(" ")?;
    put_channels(text, channels)?;
    text.put(" ")?;
    put_kind(text, fault)?;
    text.put_labelled(" ", u64::from(from))?;
    text.put_labelled(" ", u64::from(to))
}

fn put_jump(text: &mut GrowingText, node: u8, value: i64, slot: u32) -> Result<(), Memory>
    ensures { OnOk result (text.new ≡ text.old ++ fault_words (event.Jump node value slot)) }
{
    text.put_labelled("jump ", u64::from(node))?;
    text.put(" ")?;
    text.put_signed(value)?;
    text.put_labelled(" ", u64::from(slot))
}

/// Adds a fault as the line of a script, without its line feed. What is no loss and no jump has no words.
///
/// # Errors
///
/// Where memory was refused; some of it may have been added.
pub fn put_fault(text: &mut GrowingText, fault: &Event) -> Result<(), Memory>
    ensures { OnOk result (text.new ≡ text.old ++ fault_words fault.now) }
{
    match fault {
        Event::Send {
            node,
            channels,
            fault,
            from,
            to,
        } => put_loss(text, "send ", *node, *channels, *fault, *from, *to),
        Event::Receive {
            node,
            channels,
            fault,
            from,
            to,
        } => put_loss(text, "receive ", *node, *channels, *fault, *from, *to),
        Event::Jump { node, value, slot } => put_jump(text, *node, *value, *slot),
        _ => Ok(()),
    }
}
