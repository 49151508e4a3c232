//! The last lines of a trace: the answer of the test of the single-fault hypothesis, and the one on armed nodes.
ghost use Rattle.std.specs.Prelude.{◌≡◌, ◌≤◌, length};
ghost use Rattle.ttp_world.specs.Trace.{keep_line, back_line};

use line_form::put_number;
use ttp_base::Line;
use ttp_world::{Back, Keep};

/// The line of the hypothesis test. Takes no memory.
#[tactic(auto, using(ttp_base::proofs::Room::room), unfolding(line_form::specs::Forms::worded))]
pub fn keep_line(keep: &Keep) -> Line
    ensures text { result ≡ keep_line keep.now }
    ensures short { length result ≤ 60 }
{
    let mut line = Line::new();
    match keep {
        Keep::Yes { start } => put_number(&mut line, "keeps yes start ", u64::from(*start)),
        Keep::No { rule, slot } => {
            put_number(&mut line, "keeps no H", u64::from(*rule));
            put_number(&mut line, " ", u64::from(*slot));
        }
    }
    line.put_text("\n");
    line
}

/// The line that says whether each armed node is guaranteed its place again. Takes no memory.
#[tactic(auto, using(ttp_base::proofs::Room::room), unfolding(line_form::specs::Forms::worded))]
pub fn back_line(back: &Back) -> Line
    ensures text { result ≡ back_line back.now }
    ensures short { length result ≤ 60 }
{
    let mut line = Line::new();
    match back {
        Back::Yes { start } => put_number(&mut line, "returns yes start ", u64::from(*start)),
        Back::No { rule, slot } => {
            put_number(&mut line, "returns no Q", u64::from(*rule));
            put_number(&mut line, " ", u64::from(*slot));
        }
    }
    line.put_text("\n");
    line
}
