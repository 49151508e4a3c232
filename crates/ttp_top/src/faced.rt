//! The command `precision MEDL SCRIPT NODE`, once the list and the script are there.
#![tactic(auto, unfolding(line_form::specs::Forms::worded))]

ghost use Rattle.std.specs.Prelude.{◌≡◌};
ghost use Rattle.ttp_world.specs.Medl.{IsValid};
ghost use Rattle.ttp_world.specs.Script.{IsValidScript};
ghost use Rattle.commands.specs.Outcome.{ShowsEnding};
ghost use Rattle.commands.specs.Texts.{alone};
ghost use Rattle.ttp_top.specs.Calls.Answer.{ttpbench};
ghost use Rattle.ttp_top.specs.Calls.Forms.{precision_ending};
ghost use Rattle.ttp_top.specs.Calls.Precision.{faced_line, broken_line};

use commands::say;
use line_form::{put_number, put_signed};
use std::alloc::Global;
use ttp_base::{Line, Sink};
use ttp_world::{Medl, Script};
use two_faced::{Faced, Seen, bound, find_faced, find_seen};

// The line on a node that may be two-faced.
fn faced_line(list: &Medl, node: u8, start: u32, seen: Seen) -> Line
    requires { IsValid list.now }
    ensures { result ≡ faced_line list.now node start seen }
{
    let mut line = Line::new();
    put_number(&mut line, "precision node ", u64::from(node));
    put_number(&mut line, " start ", u64::from(start));
    put_signed(&mut line, " bound ", bound(list));
    put_signed(&mut line, " seen ", seen.value);
    put_number(&mut line, " slot ", u64::from(seen.slot));
    line.put_text("\n");
    line
}

// The line on the first rule that is broken.
fn broken_line(rule: u8, slot: u32) -> Line
    ensures { result ≡ broken_line rule slot }
{
    let mut line = Line::new();
    put_number(&mut line, "precision no F", u64::from(rule));
    put_number(&mut line, " ", u64::from(slot));
    line.put_text("\n");
    line
}

/// Whether this node may be two-faced in the script, and how far apart the other clocks came then. Memory is taken
/// before the line is written.
pub(crate) fn show_precision<K: Sink>(
    alloc: Global,
    list: &Medl,
    script: &Script,
    node: u8,
    out: &mut K,
) -> u8
    requires valid { IsValid list.now }
    requires script { IsValidScript list.now script.now }
    ensures { ShowsEnding ttpbench (precision_ending node list.now script.now) (K.output out.old) (K.output out.new)
        (alone result) }
{
    match find_faced(list, script, node) {
        Faced::Yes { start } => match find_seen(alloc, list, script, node) {
            Ok(seen) => say(out, faced_line(list, node, start, seen).bytes(), 0),
            Err(_) => 7,
        },
        Faced::No { rule, slot } => say(out, broken_line(rule, slot).bytes(), 0),
    }
}
