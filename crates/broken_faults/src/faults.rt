//! The rules on faults, all at once.
ghost use Rattle.std.specs.Prelude.{◌≡◌, ◌+◌, ◌*◌, ◌<◌, Some};
ghost use Rattle.ttp_base.specs.NodeSet.{most_nodes};
ghost use Rattle.ttp_world.specs.Hypothesis.{start_of};
ghost use Rattle.ttp_world.specs.Medl.{IsValid};
ghost use Rattle.ttp_world.specs.Script.{IsValidScript};
ghost use Rattle.hypothesis.specs.Standing.{told_start};
ghost use Rattle.broken_faults.specs.BrokenFaults.{broken_faults, NameFaultSlots};

use crate::early::{EarlyFault, early_fault};
use crate::few::{TooFew, too_few_left};
use crate::losses::{LostFrame, lost_frame};
use hypothesis::Start;
use ttp_world::{Medl, SLOT_LIMIT, Script};

/// What breaks the rules on faults: those of the test on armed nodes, which are those of the hypothesis where none is
/// armed. The last two are asked only where each loss is that of one fault.
#[derive(Clone, Copy)]
pub struct BrokenFaults {
    /// A frame that is lost to some and not to others.
    pub lost: Option<LostFrame>,
    /// A fault that comes less than two rounds after the start or the fault before.
    pub early: Option<EarlyFault>,
    /// The slot after which fewer than four nodes to measure are left.
    pub few: Option<TooFew>,
}

/// Each of the rules on faults that a script breaks, by what, where its cluster starts so.
///
/// Takes no memory. For each rule the slots are gone over once, up to the first in which it is broken, as in
/// [`hypothesis::returns`], and the events for what is found.
pub fn broken_faults(list: &Medl, script: &Script, start: Start) -> BrokenFaults
    requires valid { IsValid list.now }
    requires script { IsValidScript list.now script.now }
    requires start { start_of list.now script.now ≡ Some (told_start start) }
    requires bound { start.slot < SLOT_LIMIT + 3 * most_nodes }
    ensures exact { result ≡ broken_faults list.now script.now (told_start start) }
    ensures slots { NameFaultSlots list.now script.now (told_start start) result }
{
    let lost = lost_frame(list, script, start);
    if lost.is_some() {
        return BrokenFaults {
            lost,
            early: None,
            few: None,
        };
    }
    BrokenFaults {
        lost,
        early: early_fault(list, script, start),
        few: too_few_left(list, script, start),
    }
}
