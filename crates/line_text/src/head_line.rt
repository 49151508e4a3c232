//! The first line of a trace.
ghost use Rattle.std.specs.Prelude.{◌≡◌};
ghost use Rattle.ttp_world.specs.Medl.{IsValid};
ghost use Rattle.ttp_world.specs.Trace.{trace_head};

use line_form::{put_hexed, put_number};
use ttp_base::Line;
use ttp_world::{Medl, Script};

/// The first line of a trace.
#[tactic(auto, unfolding(line_form::specs::Forms::worded))]
pub(crate) fn head_line(list: &Medl, script: &Script) -> Line
    requires { IsValid list.now }
    ensures { result ≡ trace_head list.now script.now }
{
    let mut line = Line::new();
    put_number(&mut line, "ttpbench trace ", u64::from(list.version));
    put_number(&mut line, " nodes ", u64::from(list.nodes()));
    put_number(&mut line, " rounds ", u64::from(list.rounds));
    put_number(&mut line, " slots ", u64::from(script.slots));
    put_hexed(&mut line, " schedule ", u64::from(list.schedule), 6);
    line.put_text("\n");
    line
}
