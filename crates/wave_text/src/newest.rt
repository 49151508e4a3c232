//! The newest messages of ports in a slot.
ghost use Rattle.std.specs.Prelude.{◌≡◌, ℕ, [], ◌∷◌, ◌++◌, length, All, List, IfOk};
ghost use Rattle.whole_trace.specs.declared.shown.HostLine.{HostLine as Shown};
ghost use Rattle.shown_slot.specs.declared.host.What.{What as Does};
ghost use Rattle.wave_text.specs.Places.{HasNewest, HasPlace};
ghost use Rattle.wave_text.specs.Variables.{HasLetters};
ghost use Rattle.wave_text.specs.declared.place.TheConstants.{PLACES};

use crate::place::{PLACES, placed, table_place};
use shown_slot::{Message, Port, message_in_line};
use std::alloc::Global;
use ttp_base::Memory;
use whole_trace::{HostLine, SlotShown};

/// A table of messages, one for each place.
pub(crate) fn no_messages(alloc: Global) -> Result<Vec<Option<Message>>, Memory>
    ensures { IfOk result (λ messages. length messages.items ≡ PLACES) }
{
    let mut messages = Vec::new(alloc);
    for _ in 0..PLACES {
        match messages.push(None) {
            Ok(()) => {}
            Err(_) => return Err(Memory),
        }
    }
    Ok(messages)
}

// Takes a line into a table of messages.
fn note_message(messages: &mut [Option<Message>], line: &HostLine)
    requires { length messages.old ≡ PLACES }
    ensures { (k : ℕ) (does : Does) (lines : List Shown) → HasPlace k does → HasNewest messages.old lines k does
        → HasNewest messages.new (lines ++ line.now ∷ []) k does }
{
    if let Some((host, what)) = placed(line) {
        messages[table_place(host, what)] = message_in_line(host, what, line);
    }
}

// Takes the messages of ports out of a table.
fn clear(messages: &mut [Option<Message>], ports: &[Port])
    requires size { length messages.old ≡ PLACES }
    requires ports { All HasLetters ports.now }
    ensures { All (λ port. HasNewest messages.new [] port.host port.what) ports.now }
{
    for port in ports {
        messages[table_place(port.host, port.what)] = None;
    }
}

/// The newest message of each port in a slot, in place of what stood in the table.
pub(crate) fn note_slot(messages: &mut [Option<Message>], ports: &[Port], slot: &SlotShown)
    requires size { length messages.old ≡ PLACES }
    requires ports { All HasLetters ports.now }
    ensures { All (λ port. HasNewest messages.new slot.now.hosts port.host port.what) ports.now }
{
    clear(messages, ports);
    let mut hosts = slot.hosts();
    while let Some(line) = hosts.next_line() {
        note_message(messages, &line);
    }
}
