//! Where the causes of entries come from.
ghost use Rattle.std.specs.Prelude.{◌≡◌, ◌<◌, length, IfOk};
ghost use Rattle.causes.specs.Causes.{cause_at};
ghost use Rattle.causes.specs.Members.{entry_at_spot};
ghost use Rattle.causes.specs.Said.{root};
ghost use Rattle.why_story.specs.RunSource.{IsRunSpot, RunSource, source_slots, slots_up_to, spot_at};

use causes::{Cause, Spot};
use std::alloc::Global;
use ttp_base::Memory;
use ttp_world::Entry;

/// How the entries of a run came about.
pub trait Causes {
    /// Which run it is: of this list and script, and what its nodes did.
    ghost source: { Self → RunSource };

    /// What a node did in a slot.
    fn entry(&self, slot: u32, node: u8) -> Entry
        requires slot { slot < length (source self.now).history }
        requires node { node < length (source self.now).list.slots }
        ensures { result ≡ entry_at_spot (source_slots (source self.now)) (spot_at slot node) };

    /// How it came about.
    ///
    /// # Errors
    ///
    /// Where memory was refused.
    fn cause(&self, alloc: Global, slot: u32, node: u8) -> Result<Cause, Memory>
        requires slot { slot < length (source self.now).history }
        requires node { node < length (source self.now).list.slots }
        ensures { IfOk result (λ cause. cause ≡ cause_at (source_slots (source self.now)) (spot_at slot node)) };

    /// The root of a node, in the slots before one.
    fn root(&self, slot: u32, node: u8) -> Spot
        requires slot { slot < length (source self.now).history }
        requires node { node < length (source self.now).list.slots }
        ensures value { result ≡ root node (slots_up_to (source_slots (source self.now)) slot) }
        ensures within { IsRunSpot (source self.now) result };
}
