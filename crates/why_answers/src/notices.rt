//! The lines that say why there is nothing to tell.
ghost use Rattle.std.specs.Prelude.{◌≡◌, ◌≤◌, ◌++◌, IfOk, OnOk};
ghost use Rattle.ttp_world.specs.Medl.{IsValid};
ghost use Rattle.why_answers.specs.Answer.{no_node_line, line_with_number, no_slot_line, stays_line};

use std::alloc::Global;
use ttp_base::{GrowingText, Memory};
use ttp_world::{Medl, Script};

// A text with a number within.
fn line_with_number(
    alloc: Global,
    front: &str,
    number: u32,
    behind: &str,
) -> Result<GrowingText, Memory>
    ensures { IfOk result (λ line. line ≡ line_with_number front.now number behind.now) }
{
    let mut line = GrowingText::new(alloc);
    line.put(front)?;
    line.put_number(u64::from(number))?;
    line.put(behind)?;
    Ok(line)
}

/// The line on a node that the list has not.
pub(crate) fn no_node_line(alloc: Global, list: &Medl) -> Result<GrowingText, Memory>
    requires { IsValid list.now }
    ensures { IfOk result (λ line. line ≡ no_node_line list.now) }
{
    line_with_number(
        alloc,
        "list: nodes 0 to ",
        u32::from(list.nodes() - 1),
        "\n",
    )
}

/// The line on a slot that the run has not.
pub(crate) fn no_slot_line(alloc: Global, script: &Script) -> Result<GrowingText, Memory>
    requires { 1 ≤ script.now.slots }
    ensures { IfOk result (λ line. line ≡ no_slot_line script.now) }
{
    line_with_number(alloc, "script: slots 0 to ", script.slots - 1, "\n")
}

/// The line on a node that never leaves.
pub(crate) fn stays_line(alloc: Global, node: u8) -> Result<GrowingText, Memory>
    ensures { IfOk result (λ line. line ≡ stays_line node) }
{
    line_with_number(alloc, "node ", u32::from(node), " does not leave\n")
}
