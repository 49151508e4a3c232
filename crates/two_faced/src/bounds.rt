//! The bound on clocks with one two-faced sender, and the window that it asks for.
ghost use Rattle.std.specs.Prelude.{◌≡◌, ◌*◌, pos, ◌*ℤ◌, ◌-ℤ◌, length};
ghost use Rattle.ttp_world.specs.Medl.{IsWithin, IsValid};
ghost use Rattle.two_faced.specs.Faced.{bound, faced_window_broken};

use ttp_world::Medl;

/// How far apart the clocks of two nodes may come where a third is two-faced, in microticks:
/// 12 D n + 6 E + 2, where n is the number of slots, D the largest drift of a clock in one slot and E
/// the largest reading error. Takes no memory.
pub fn bound(list: &Medl) -> i64
    requires { IsValid list.now }
    ensures value { result ≡ bound list.now }
    ensures within { IsWithin 2 294002 result }
{
    drift_part(list) + (list.error * 6 + 2)
}

// What drifts make of it: 12 D n.
fn drift_part(list: &Medl) -> i64
    requires { IsValid list.now }
    ensures value { result ≡ list.now.drift *ℤ pos (12 * length list.now.slots) }
    ensures within { IsWithin 0 288000 result }
{
    list.drift * (12 * u16::from(list.nodes())) as i64
}

/// What the window leaves beside the bound, in microticks.
pub(crate) fn room(list: &Medl) -> i64
    requires { IsValid list.now }
    ensures { result ≡ list.now.window -ℤ bound list.now }
{
    list.window - bound(list)
}

/// Slot 0 where the window is narrower than a deviation between two such nodes needs.
pub(crate) fn faced_window_broken(list: &Medl) -> Option<u32>
    requires { IsValid list.now }
    ensures { result ≡ faced_window_broken list.now }
{
    if bound(list) + list.error <= list.window {
        None
    } else {
        Some(0)
    }
}
