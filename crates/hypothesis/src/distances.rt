//! The distances of faults: they lie two rounds apart, and the first lies two rounds after the start.
ghost use Rattle.std.specs.Prelude.{◌≡◌, ℕ, ◌+◌, ◌<◌, ◌^◌, replicate};
ghost use Rattle.std.specs.Option.{option_or};
ghost use Rattle.ttp_world.specs.Hypothesis.{first_too_early};
ghost use Rattle.hypothesis.specs.Walks.{earliest_after};

/// The first slot in which a fault may come, once so many came in a slot.
pub(crate) fn earliest_with(gap: u32, earliest: u32, count: u8, slot: u32) -> u32
    requires { slot + gap < 2 ^ 32 }
    ensures { result ≡ earliest_after gap earliest (replicate count slot) }
{
    if count == 0 { earliest } else { slot + gap }
}

/// The first fault that came too early, once so many came in a slot. Of two in one slot the second
/// does.
pub(crate) fn early_with(early: Option<u32>, earliest: u32, count: u8, slot: u32) -> Option<u32>
    ensures { (gap : ℕ) → 0 < gap → result ≡ option_or early (first_too_early gap earliest (replicate count slot)) }
{
    match early {
        Some(_) => early,
        None if count > 1 || (count == 1 && slot < earliest) => Some(slot),
        None => None,
    }
}
