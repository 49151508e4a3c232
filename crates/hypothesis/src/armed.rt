//! Whether nodes are armed at all.
ghost use Rattle.std.specs.Prelude.{◌≡◌};
ghost use Rattle.ttp_world.specs.Returning.{is_arm, has_arm};

use ttp_world::{Event, Script};

// Whether an event arms a node to listen again.
fn is_arm(event: &Event) -> bool
    ensures { result ≡ is_arm event.now }
{
    match event {
        Event::Arm { .. } => true,
        _ => false,
    }
}

/// Whether a script arms a node to listen again, so that a trace has the line of [`crate::returns`]. Takes no
/// memory, and goes over all events.
pub fn has_arm(script: &Script) -> bool
    ensures { result ≡ has_arm script.now }
{
    for event in script.events.as_slice() {
        if is_arm(event) {
            return true;
        }
    }
    false
}
