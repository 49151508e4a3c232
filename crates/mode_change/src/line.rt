//! The lines of the text of modes.
ghost use Rattle.std.specs.Prelude.{◌≡◌, ◌≤◌, length};
ghost use Rattle.ttp_world.specs.Medl.{IsValid};
ghost use Rattle.mode_change.specs.ModeText.{mode_head, mode_line, live_word};

use crate::node::Modes;
use line_form::{put_number, put_word};
use line_text::put_number_or_dash;
use ttp_base::Line;
use ttp_world::{Medl, Script};

/// The first line.
#[tactic(auto, unfolding(line_form::specs::Forms::worded))]
pub(crate) fn head_line(list: &Medl, script: &Script) -> Line
    requires { IsValid list.now }
    ensures { result ≡ mode_head list.now script.now }
{
    let mut line = Line::new();
    put_number(
        &mut line,
        "ttpbench modes 1 nodes ",
        u64::from(list.nodes()),
    );
    put_number(&mut line, " slots ", u64::from(script.slots));
    line.put_text("\n");
    line
}

fn live_word(live: Option<bool>) -> &'static str
    ensures text { result.now ≡ live_word live }
    ensures short { length result.now ≤ 3 }
{
    match live {
        Some(true) => "yes",
        Some(false) => "no",
        None => "-",
    }
}

/// Forms the line of a node after a slot.
#[tactic(auto, using(ttp_base::proofs::Room::room), unfolding(line_form::specs::Forms::worded))]
pub(crate) fn make_line(slot: u32, node: u8, modes: &Modes, live: Option<bool>, line: &mut Line)
    ensures { line.new ≡ mode_line slot node modes.now live }
{
    line.clear();
    put_number(line, "slot ", u64::from(slot));
    put_number(line, " node ", u64::from(node));
    line.put_text(" mode ");
    put_number_or_dash(line, modes.mode.map(u64::from));
    line.put_text(" next ");
    put_number_or_dash(line, modes.next.map(u64::from));
    put_word(line, " live ", live_word(live));
    line.put_text("\n");
}
