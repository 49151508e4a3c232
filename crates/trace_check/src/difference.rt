//! The line on a text that is no trace.
ghost use Rattle.std.specs.Prelude.{◌≡◌};
ghost use Rattle.trace_check.specs.Difference.{differs_line};

use ttp_base::Line;

/// The line on a text whose first wrong line has this number.
#[tactic(auto, using(ttp_base::proofs::Room::room))]
pub fn differs_line(number: u32) -> Line
    ensures { result ≡ differs_line number }
{
    let mut line = Line::new();
    line.put_text("differs at line ");
    line.put_number(u64::from(number));
    line.put_text("\n");
    line
}
