//! What comes to a receiver.
ghost use Rattle.std.specs.Prelude.{◌≡◌, ℕ};
ghost use Rattle.ttp_world.specs.declared.script.Script.{Script};
ghost use Rattle.ttp_world.specs.Script.{incidents_of};
ghost use Rattle.medium.specs.Carried.{Carried};
ghost use Rattle.medium.specs.Shows.{ShowsReceived, IsPartOf};
ghost use Rattle.medium.specs.StandsFor.{ShowsCarried, ShowsHeard};

use crate::flip::is_among;
use ttp_world::{Channel, Incidents};

/// What comes to a receiver on one channel in a slot.
#[derive(Clone, Copy)]
pub enum Arrival<'a> {
    /// Nothing.
    Silence,
    /// Bits that are no frame.
    Noise,
    /// The bits of one frame, as they lie in the medium, and how far the clock of the node that sent
    /// them is ahead, in microticks.
    Bits { bytes: &'a [u8], offset: i64 },
}

// What of this arrival comes through a receiver's faults on its channel.
fn through<'a, 'b>(there: &'b Arrival<'a>, silenced: bool, noisy: bool) -> &'b Arrival<'a>
    ensures shows { ShowsReceived there.now silenced noisy result.now }
    ensures part { IsPartOf there.now result.now }
{
    if silenced {
        return &Arrival::Silence;
    }
    if noisy && let Arrival::Bits { .. } = there {
        return &Arrival::Noise;
    }
    there
}

/// What a node hears of what is on a channel, if `incidents` are what the script says of it in the slot.
pub fn received<'a, 'b>(
    there: &'b Arrival<'a>,
    incidents: &Incidents,
    channel: Channel,
) -> &'b Arrival<'a>
    ensures heard { (carried : Carried) (script : Script) (node : ℕ)
        → incidents.now ≡ incidents_of script node carried.slot → ShowsCarried carried channel there.now
        → ShowsHeard carried script node channel result.now }
    ensures part { IsPartOf there.now result.now }
{
    let silenced = is_among(channel, incidents.receive_silence);
    let noisy = is_among(channel, incidents.receive_noise);
    through(there, silenced, noisy)
}
