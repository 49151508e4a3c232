//! The average of four values.
ghost use Rattle.std.specs.Prelude.{◌≡◌, [], ◌∷◌};
ghost use Rattle.ttp_world.specs.Clock.{middle_half};
ghost use Rattle.node_parts.specs.Notes.{IsDeviation};

/// Half the sum of the middle two of four values, rounded towards zero.
pub(crate) fn middle_half(a: i64, b: i64, c: i64, d: i64) -> i64
    requires a { IsDeviation a }
    requires b { IsDeviation b }
    requires c { IsDeviation c }
    requires d { IsDeviation d }
    ensures value { result ≡ middle_half (a ∷ b ∷ c ∷ d ∷ []) }
    ensures within { IsDeviation result }
{
    // Of two pairs the greater of the two smaller values and the smaller of the two greater ones are
    // the middle two.
    let low = a.min(b).max(c.min(d));
    let high = a.max(b).min(c.max(d));
    (low + high) / 2
}
