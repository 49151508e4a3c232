//! The law of two averages.
//!
//! The function does nothing, and its contract is the law. For proofs to cite, `proofs/Pull.antt` has it
//! under the function's name, for lists of four.
ghost use Rattle.std.specs.Prelude.{◌<◌, pos, ◌≤ℤ◌, All, IsTrue};
ghost use Rattle.ttp_world.specs.Hypothesis.{is_within_bound};
ghost use Rattle.node_parts.specs.Pull.{without, are_near, are_within, twice_off, pulled};
ghost use Rattle.node_parts.specs.Notes.{IsDeviation};

/// Two nodes that note three of four frames alike pull their clocks together, whatever each of them
/// notes of the fourth.
///
/// `a` and `b` are what they noted, in microticks, and `odd` is the place of the fourth frame. In the
/// other three places the notes differ by `shift`, within plus or minus `near`, and those of `a` differ by
/// at most `wide` from one another. Then twice the distance of the difference of their averages from
/// `shift` is at most `wide + 2 * near + 2`. No smaller number would do.
///
/// All numbers are within plus or minus 2^60, and `near` and `wide` are not negative.
pub fn pull(a: [i64; 4], b: [i64; 4], odd: u8, shift: i64, near: i64, wide: i64)
    requires first { All IsDeviation a }
    requires second { All IsDeviation b }
    requires place { odd < 4 }
    requires shift { IsDeviation shift }
    requires near { (pos 0 ≤ℤ near) × IsDeviation near }
    requires wide { (pos 0 ≤ℤ wide) × IsDeviation wide }
    requires alike { IsTrue (are_near shift near (without odd a) (without odd b)) }
    requires narrow { IsTrue (are_within wide (without odd a)) }
    ensures { IsTrue (is_within_bound (pulled near wide) (twice_off a b shift)) }
{}
