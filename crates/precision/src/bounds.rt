//! The bounds that a list's drift and reading error put on clocks and deviations.
ghost use Rattle.std.specs.Prelude.{◌≡◌, ◌*◌, ◌*ℤ◌, ◌≤ℤ◌, pos, length};
ghost use Rattle.ttp_world.specs.Hypothesis.{drift_share, needed};
ghost use Rattle.ttp_world.specs.Medl.{IsWithin, IsValid};
ghost use Rattle.ttp_world.specs.Returning.{needed_back};
ghost use Rattle.precision.specs.Spread.{spread, spread_rejoining, needed_rejoining};
ghost use Rattle.precision.specs.Together.{HoldsClocksWithin, HoldsDeviationsWithin};
ghost use Rattle.precision.specs.Company.{HoldsCompanyClocksWithin, HoldsSettledClocksWithin};
ghost use Rattle.precision.specs.Company.{HoldsCompanyDeviationsWithin, HoldsSettledDeviationsWithin};

use ttp_world::Medl;

/// How far apart two clocks can be at the beginning of a slot, in microticks: 4 D n + 2 E + 1, where n
/// is the number of slots, D the largest drift of a clock in one slot and E the largest reading error.
///
/// It holds for any two nodes of a group that runs together. The average leaves their clocks no more
/// than 2 D n + 2 E + 1 apart, and until the end of the next round these drift by no more than 2 D n.
/// And it holds for any two nodes of a company to which none came in the last two rounds (`settled`).
pub fn spread(list: &Medl) -> i64
    requires { IsValid list.now }
    ensures value { result ≡ spread list.now }
    ensures clocks { HoldsClocksWithin list.now result }
    ensures settled { HoldsSettledClocksWithin list.now result }
{
    drift_share(list) + (list.error * 2 + 1)
}

/// How far from 0 a deviation can lie that one node measures of a frame of another, in microticks:
/// 4 D n + 3 E + 1, the spread and one reading error more.
///
/// It holds for any two nodes of a group that runs together, so a window that is as wide rejects no
/// frame of one of them for its time. And it holds for a company to which none came in the last two
/// rounds (`settled`).
pub fn needed(list: &Medl) -> i64
    requires { IsValid list.now }
    ensures value { result ≡ needed list.now }
    ensures deviations { HoldsDeviationsWithin list.now result }
    ensures settled { HoldsSettledDeviationsWithin list.now result }
{
    spread(list) + list.error
}

/// How far apart two clocks of a company can be at the beginning of a slot, in microticks:
/// 6 D n + 4 E + 1.
///
/// A company runs together while nodes leave it and others come to it, two rounds apart, each on a
/// frame of one of its nodes. At the end of the round in which they came they may have noted too few
/// frames for an average, so that their clocks stay as they are while those of the others are
/// corrected. In the round after that clocks are this far apart, and at its end each has its average.
pub fn spread_rejoining(list: &Medl) -> i64
    requires { IsValid list.now }
    ensures value { result ≡ spread_rejoining list.now }
    ensures clocks { HoldsCompanyClocksWithin list.now result }
{
    rejoining_share(list) + (list.error * 4 + 1)
}

/// How far from 0 a deviation can lie that one node of a company measures of a frame of another, in
/// microticks: 6 D n + 5 E + 1. The window that is asked where nodes may return is wider (`window`).
pub fn needed_rejoining(list: &Medl) -> i64
    requires { IsValid list.now }
    ensures value { result ≡ needed_rejoining list.now }
    ensures deviations { HoldsCompanyDeviationsWithin list.now result }
    ensures window { result ≤ℤ needed_back list.now }
{
    spread_rejoining(list) + list.error
}

// What drifts make of the bounds for nodes that run together: 4 D n.
fn drift_share(list: &Medl) -> i64
    requires { IsValid list.now }
    ensures value { result ≡ drift_share list.now }
    ensures within { IsWithin 0 96000 result }
{
    list.drift * (4 * list.nodes()) as i64
}

// What they make of those for a company: 6 D n.
fn rejoining_share(list: &Medl) -> i64
    requires { IsValid list.now }
    ensures value { result ≡ list.now.drift *ℤ pos (6 * length list.now.slots) }
    ensures within { IsWithin 0 144000 result }
{
    list.drift * (6 * list.nodes()) as i64
}
