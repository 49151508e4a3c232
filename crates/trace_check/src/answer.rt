//! The answer.
ghost use Rattle.std.specs.Prelude.{◌≡◌, ◌↔◌, ℕ, [], true, IfOk};
ghost use Rattle.ttp_world.specs.Medl.{IsValid};
ghost use Rattle.ttp_world.specs.Script.{IsValidScript};
ghost use Rattle.trace_check.specs.Answer.{is_trace, IsFirstWrong};
ghost use Rattle.trace_check.specs.Following.{FollowerStandsFor};

use crate::follow::Follower;
use crate::text::line_behind;
use std::alloc::Global;
use ttp_base::Memory;
use ttp_world::{Medl, Script};

/// What a text is to a list and a script.
#[derive(Clone, Copy, PartialEq, Eq)]
pub enum Outcome {
    /// It is the trace of a run.
    Same,
    /// It is the trace of no run. The line, counted from 1, is the first that no run has that has the
    /// lines before it.
    Differs { line: u32 },
}

// What a text is, by a run that has not begun.
fn outcome_by(follower: &mut Follower, list: &Medl, script: &Script, text: &[u8]) -> Outcome
    requires list { IsValid list.now }
    requires script { IsValidScript list.now script.now }
    requires stands { FollowerStandsFor follower.old list.now script.now [] }
    ensures same { (result ≡ Outcome.Same) ↔ (is_trace list.now script.now text.now ≡ true) }
    ensures differs { (line : ℕ) → (result ≡ Outcome.Differs line) ↔ IsFirstWrong list.now script.now text.now line }
{
    let left = match follower.follow(list, script, text) {
        Ok([]) => return Outcome::Same,
        Ok(rest) => rest,
        Err(wrong) => wrong.text,
    };
    Outcome::Differs {
        line: line_behind(&text[..text.len() - left.len()]),
    }
}

/// Whether a text is the trace of a run of a list and a script, whichever legal message numbers the run
/// has; otherwise the first line that no legal numbers give after the lines before it.
///
/// Lines end at line feeds. A line that the text lacks is wrong, with the number that it would have, and
/// so is one behind a whole trace. A rest of the text without a line feed is a wrong line.
///
/// # Errors
///
/// `Memory` where memory was refused. All of it is taken before the text is read.
pub fn verify(alloc: Global, list: &Medl, script: &Script, text: &[u8]) -> Result<Outcome, Memory>
    requires list { IsValid list.now }
    requires script { IsValidScript list.now script.now }
    ensures same { IfOk result (λ outcome. (outcome ≡ Outcome.Same) ↔ (is_trace list.now script.now text.now ≡ true)) }
    ensures differs { (line : ℕ) → IfOk result (λ outcome.
        (outcome ≡ Outcome.Differs line) ↔ IsFirstWrong list.now script.now text.now line) }
{
    let mut follower = Follower::new(alloc, list)?;
    Ok(outcome_by(&mut follower, list, script, text))
}
