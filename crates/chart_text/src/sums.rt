//! The slots and the counts of all pieces, by one walk over them.
#![tactic(auto)]

ghost use Rattle.std.specs.Prelude.{◌≡◌, ℕ, ◌+◌, ◌^◌, ◌<◌, ◌||◌, true, length, map};
ghost use Rattle.whole_campaign.specs.Readable.{counts_together, counts_sum, counts_fit};
ghost use Rattle.chart_text.specs.Columns.{is_tried};
ghost use Rattle.chart_text.specs.Steps.{has_mark};

use crate::marks::mark_piece;
use campaign::Counts;
use whole_campaign::{Pieces, no_runs};

/// The sums of the counts of pieces: of the faults that the test covers, and of the others.
#[derive(Clone, Copy)]
pub(crate) struct CountsByTest {
    pub(crate) kept: Counts,
    pub(crate) broken: Counts,
}

// Adds up two counts, number by number.
fn added(sum: Counts, more: Counts) -> Counts
    requires { counts_fit (counts_together sum more) ≡ true }
    ensures { result ≡ counts_together sum more }
{
    Counts {
        runs: sum.runs + more.runs,
        same: sum.same + more.same,
        hurt: sum.hurt + more.hurt,
        split: sum.split + more.split,
        torn: sum.torn + more.torn,
        dead: sum.dead + more.dead,
    }
}

/// The sums of the counts of all pieces, whose slots are marked on the way.
pub(crate) fn sums_of(pieces: Pieces<'_>, marks: &mut [bool]) -> CountsByTest
    requires kept { counts_fit (counts_sum (map (λ piece. piece.kept) pieces)) ≡ true }
    requires broken { counts_fit (counts_sum (map (λ piece. piece.broken) pieces)) ≡ true }
    ensures marks { (t : ℕ) → t < length marks.old
        → has_mark marks.new t ≡ (has_mark marks.old t || is_tried pieces.entry t) }
    ensures kept { result.kept ≡ counts_sum (map (λ piece. piece.kept) pieces.entry) }
    ensures broken { result.broken ≡ counts_sum (map (λ piece. piece.broken) pieces.entry) }
{
    let mut left = pieces;
    let mut sums = CountsByTest {
        kept: no_runs(),
        broken: no_runs(),
    };
    while let Some(piece) = left.next_piece() {
        mark_piece(marks, &piece);
        sums = CountsByTest {
            kept: added(sums.kept, piece.kept),
            broken: added(sums.broken, piece.broken),
        };
    }
    sums
}
