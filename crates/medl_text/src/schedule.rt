//! The slot table of one cluster cycle.
ghost use Rattle.std.specs.Prelude.{◌≡◌, ◌<◌, ◌≤◌, length, OnOk, OnErr};
ghost use Rattle.ttp_base.specs.Outside.{WroteLines, CutShort};
ghost use Rattle.ttp_world.specs.Medl.{IsValid, payload_length};
ghost use Rattle.medl_text.specs.Schedule.{letter_of, yes_or_no, table_head, slot_line, round_lines, slot_table};

use line_form::{put_hexed, put_number, put_word};
use ttp_base::{Failed, Line, Sink};
use ttp_world::{Kind, Medl};

fn letter_of(kind: Kind) -> &'static str
    ensures text { result.now ≡ letter_of kind }
    ensures short { length result.now ≤ 1 }
{
    match kind {
        Kind::I => "I",
        Kind::N => "N",
        Kind::X => "X",
    }
}

fn yes_or_no(answer: bool) -> &'static str
    ensures text { result.now ≡ yes_or_no answer }
    ensures short { length result.now ≤ 3 }
{
    if answer { "yes" } else { "no" }
}

#[tactic(auto, unfolding(crate::specs::Schedule::table_head, line_form::specs::Forms::worded))]
fn head_line(list: &Medl) -> Line
    requires { IsValid list.now }
    ensures { result ≡ table_head list.now }
{
    let mut line = Line::new();
    put_number(&mut line, "ttpbench schedule ", u64::from(list.version));
    put_number(&mut line, " nodes ", u64::from(list.nodes()));
    put_number(&mut line, " rounds ", u64::from(list.rounds));
    put_hexed(&mut line, " schedule ", u64::from(list.schedule), 6);
    line.put_text("\n");
    line
}

// The bytes of payload that a frame carries.
fn payload_length(list: &Medl, round: u8, slot: u8) -> u8
    requires valid { IsValid list.now }
    requires round { round < list.now.rounds }
    requires slot { slot < length list.now.slots }
    ensures { result ≡ payload_length list.now round slot }
{
    match list.kind_at(round, slot) {
        Kind::I => 0,
        Kind::N | Kind::X => list.slots.get(slot as usize).payload,
    }
}

#[tactic(auto, unfolding(crate::specs::Schedule::slot_line, line_form::specs::Forms::worded))]
fn slot_line(list: &Medl, round: u8, slot: u8) -> Line
    requires valid { IsValid list.now }
    requires round { round < list.now.rounds }
    requires slot { slot < length list.now.slots }
    ensures { result ≡ slot_line list.now round slot }
{
    let plan = list.slots.get(slot as usize);
    let mut line = Line::new();
    let size = payload_length(list, round, slot);
    put_number(&mut line, "round ", u64::from(round));
    put_number(&mut line, " slot ", u64::from(slot));
    put_word(&mut line, " kind ", letter_of(list.kind_at(round, slot)));
    put_number(&mut line, " data ", u64::from(size));
    put_word(&mut line, " sync ", yes_or_no(plan.sync));
    put_word(&mut line, " start ", yes_or_no(plan.start));
    line.put_text("\n");
    line
}

// The lines of a round.
fn put_round<K: Sink>(list: &Medl, round: u8, out: &mut K) -> Result<(), Failed>
    requires valid { IsValid list.now }
    requires round { round < list.now.rounds }
    ensures ok { OnOk result (WroteLines (K.output out.old) (K.output out.new) (round_lines list.now round)) }
    ensures failed { OnErr result (CutShort (K.output out.old) (K.output out.new) (round_lines list.now round)) }
{
    for slot in 0..list.nodes() {
        out.write(slot_line(list, round, slot).bytes())?;
    }
    Ok(())
}

/// Writes the slot table of one cluster cycle: a line for the list, and one for each slot of each
/// round. Each line is one piece. After `Failed`, some whole lines of the table were written, and some
/// first bytes of the next, or none.
///
/// It takes no memory. The cost is one write for each line.
#[tactic(auto, unfolding(crate::specs::Schedule::slot_table))]
pub fn put_schedule<K: Sink>(list: &Medl, out: &mut K) -> Result<(), Failed>
    requires { IsValid list.now }
    ensures ok { OnOk result (WroteLines (K.output out.old) (K.output out.new) (slot_table list.now)) }
    ensures failed { OnErr result (CutShort (K.output out.old) (K.output out.new) (slot_table list.now)) }
{
    out.write(head_line(list).bytes())?;
    for round in 0..list.rounds {
        put_round(list, round, out)?;
    }
    Ok(())
}
