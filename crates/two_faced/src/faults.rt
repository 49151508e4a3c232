//! Faults that are no reading errors: send and receive faults, flipped bits and jumps of clocks.
ghost use Rattle.std.specs.Prelude.{◌≡◌};
ghost use Rattle.two_faced.specs.Faced.{first_fault_slot, faults_broken};

use hypothesis::lesser;
use ttp_world::{Event, Script};

// The slot of such a fault, the first where it has two.
fn first_fault_slot(event: &Event) -> Option<u32>
    ensures { result ≡ first_fault_slot event.now }
{
    match event {
        Event::Send { from, .. } | Event::Receive { from, .. } => Some(*from),
        Event::Flip { slot, .. } | Event::Jump { slot, .. } => Some(*slot),
        _ => None,
    }
}

/// The least slot of such a fault.
pub(crate) fn faults_broken(script: &Script) -> Option<u32>
    ensures { result ≡ faults_broken script.now }
{
    let mut least = None;
    for event in script.events.as_slice() {
        if let Some(slot) = first_fault_slot(event) {
            least = Some(lesser(slot, least));
        }
    }
    least
}
