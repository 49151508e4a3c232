//! The last lines of a trace, those of the tests of its script, looked for in a text.
ghost use Rattle.std.specs.Prelude.{IfOk, IfErr};
ghost use Rattle.ttp_world.specs.Medl.{IsValid};
ghost use Rattle.ttp_world.specs.Script.{IsValidScript};
ghost use Rattle.ttp_world.specs.Trace.{test_lines};
ghost use Rattle.trace_check.specs.Following.{BeginsWith, Departs};

use crate::text::{Wrong, expect};
use hypothesis::{has_arm, keeps, returns};
use line_text::{behind_back, behind_keep};
use ttp_world::{Medl, Script};

/// What is left of a text behind the line of the hypothesis test, and that on armed nodes where there is one;
/// or from the first of them on that the text doesn't have.
pub(crate) fn follow_tests<'a>(
    list: &Medl,
    script: &Script,
    text: &'a [u8],
) -> Result<&'a [u8], Wrong<'a>>
    requires list { IsValid list.now }
    requires script { IsValidScript list.now script.now }
    ensures ok { IfOk result (λ rest. BeginsWith text.now (test_lines list.now script.now) rest.now) }
    ensures wrong { IfErr result (λ wrong. Departs text.now (test_lines list.now script.now) wrong.text.now) }
{
    let rest = expect(behind_keep(&keeps(list, script), text), text)?;
    if !has_arm(script) {
        return Ok(rest);
    }
    expect(behind_back(&returns(list, script), rest), rest)
}
