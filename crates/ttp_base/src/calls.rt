//! Calls that are to fail, by their numbers.
ghost use Rattle.std.specs.Prelude.{◌≡◌, ◌+◌, min};
ghost use Rattle.ttp_base.specs.Outside.{comes_up, count_end};

use crate::list::List;

/// Counts one call more, and says whether it is one of those that are to fail.
pub(crate) fn is_next_to_fail(fail: &List<u32>, calls: &mut u64) -> bool
    ensures number { calls.new ≡ min (calls.old + 1) count_end }
    ensures answer { result ≡ comes_up fail.now calls.new }
{
    *calls = calls.saturating_add(1);
    let number = *calls;
    fail.as_slice().iter().any(|n| u64::from(*n) == number)
}
