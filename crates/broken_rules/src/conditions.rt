//! The rules that ask nothing of faulty nodes, all at once.
ghost use Rattle.std.specs.Prelude.{◌≡◌};
ghost use Rattle.ttp_world.specs.Hypothesis.{clocks_broken};
ghost use Rattle.ttp_world.specs.Medl.{IsValid};
ghost use Rattle.ttp_world.specs.Returning.{has_arm};
ghost use Rattle.ttp_world.specs.Script.{IsValidScript};
ghost use Rattle.broken_rules.specs.Conditions.{broken_conditions, narrow_by};

use crate::clocks::{PastBound, narrow_window, narrow_window_back, past_bound};
use crate::jumps::{Disturbed, first_disturbed};
use crate::start::{NoStart, no_start};
use ttp_world::{Medl, Script};

/// What breaks the first four rules of the hypothesis, or of the test on armed nodes.
#[derive(Clone, Copy)]
pub struct BrokenConditions {
    /// Clocks past a bound of the list.
    pub clocks: Option<PastBound>,
    /// How wide the list's window has to be, in microticks, where it is narrower.
    pub window: Option<i64>,
    /// A flipped bit, or a jump that is not allowed.
    pub disturbed: Option<Disturbed>,
    /// Why no node starts alone, with all others on by then.
    pub start: Option<NoStart>,
}

// How wide the window has to be, where it is narrower.
fn narrow_by(list: &Medl, armed: bool) -> Option<i64>
    requires { IsValid list.now }
    ensures { result ≡ narrow_by list.now armed }
{
    if armed {
        narrow_window_back(list)
    } else {
        narrow_window(list)
    }
}

/// Each of the first four rules that a script breaks, by what: those of [`hypothesis::returns`] where a node is armed,
/// and else those of [`hypothesis::keeps`], of which the first names this slot. A rule is asked whether or not one before
/// it is broken. Goes over the events twice, and over the nodes.
pub(crate) fn broken_conditions(
    list: &Medl,
    script: &Script,
    armed: bool,
    clocks: Option<u32>,
) -> BrokenConditions
    requires valid { IsValid list.now }
    requires script { IsValidScript list.now script.now }
    requires armed { armed ≡ has_arm script.now }
    requires clocks { clocks ≡ clocks_broken list.now script.now }
    ensures { result ≡ broken_conditions list.now script.now }
{
    BrokenConditions {
        clocks: past_bound(list, script, clocks),
        window: narrow_by(list, armed),
        disturbed: first_disturbed(list, script),
        start: no_start(list, script),
    }
}
