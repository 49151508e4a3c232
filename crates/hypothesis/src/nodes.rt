//! Least slots.
ghost use Rattle.std.specs.Prelude.{◌≡◌, ◌≤◌, Some};
ghost use Rattle.ttp_world.specs.Hypothesis.{lesser};

/// The lesser of a slot and one that may be there.
pub fn lesser(slot: u32, other: Option<u32>) -> u32
    ensures value { Some result ≡ lesser slot other }
    ensures bound { result ≤ slot }
{
    match other {
        Some(other) if other < slot => other,
        _ => slot,
    }
}
