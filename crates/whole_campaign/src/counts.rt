//! The counts of a piece.
ghost use Rattle.std.specs.Prelude.{◌≡◌, ◌+◌, ◌<◌, ◌≤◌, ◌^◌, length};
ghost use Rattle.std.specs.Str.{bytes_eq};
ghost use Rattle.campaign.specs.Lines.{counts_line};
ghost use Rattle.whole_campaign.specs.Due.{no_runs, as_count, with_run, with_fault_counted};
ghost use Rattle.whole_campaign.specs.Steps.{CanCount};

use crate::shown::{FaultShown, Piece};
use campaign::Counts;
use line_form::put_number;
use ttp_base::Line;

/// The counts of no runs.
pub fn no_runs() -> Counts
    ensures { result ≡ no_runs }
{
    Counts {
        runs: 0,
        same: 0,
        hurt: 0,
        split: 0,
        torn: 0,
        dead: 0,
    }
}

// One run more.
fn with_run(fault: &FaultShown, counts: &Counts) -> Counts
    requires { CanCount 1 counts.now }
    ensures { result ≡ with_run fault.now counts.now }
{
    Counts {
        runs: counts.runs + 1,
        same: counts.same + u64::from(fault.same),
        hurt: counts.hurt + u64::from(0 < fault.hurt),
        split: counts.split + u64::from(fault.split),
        torn: counts.torn + u64::from(2 <= fault.memberships),
        dead: counts.dead + u64::from(!fault.company),
    }
}

/// A piece with one fault more.
pub(crate) fn with_fault_counted(fault: &FaultShown, piece: &Piece) -> Piece
    requires kept { CanCount 1 piece.now.kept }
    requires broken { CanCount 1 piece.now.broken }
    ensures { result ≡ with_fault_counted fault.now piece.now }
{
    if fault.yes {
        Piece {
            first: piece.first,
            last: piece.last,
            kept: with_run(fault, &piece.kept),
            broken: piece.broken,
        }
    } else {
        Piece {
            first: piece.first,
            last: piece.last,
            kept: piece.kept,
            broken: with_run(fault, &piece.broken),
        }
    }
}

/// Whether a line is that of these counts, under a name of at most seven bytes.
#[tactic(auto, using(std::proofs::Common::append_assoc), unfolding(line_form::specs::Forms::worded))]
pub(crate) fn is_counts_line(name: &str, counts: &Counts, line: &[u8]) -> bool
    requires { length name.now ≤ 7 }
    ensures { result ≡ bytes_eq line.now (counts_line name.now counts.now) }
{
    let mut due = Line::new();
    put_number(&mut due, name, counts.runs);
    put_number(&mut due, " same ", counts.same);
    put_number(&mut due, " hurt ", counts.hurt);
    put_number(&mut due, " split ", counts.split);
    put_number(&mut due, " torn ", counts.torn);
    put_number(&mut due, " dead ", counts.dead);
    due.put_text("\n");
    line == due.bytes()
}
