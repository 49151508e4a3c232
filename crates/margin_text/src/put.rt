//! The words that lines of margins have.
ghost use Rattle.std.specs.Prelude.{◌≡◌, ◌+◌, ◌*◌, ◌^◌, ◌<◌, ◌≤◌, [], ◌∷◌, ◌++◌, length, map};
ghost use Rattle.ttp_base.specs.Text.{hex};
ghost use Rattle.line_form.specs.Forms.{worded};
ghost use Rattle.line_form.specs.Kinds.{number, hexed, or_dash, commas, comma_before, joined_by, spell};
ghost use Rattle.ttp_base.specs.NodeSet.{set_bits};
ghost use Rattle.ttp_world.specs.Medl.{IsValid};
ghost use Rattle.ttp_world.specs.Trace.{member_digits};
ghost use Rattle.clock_margins.specs.Forms.{jump_slot_kind, value_kind, first_asked, last_asked, least_in, greatest_in};
ghost use Rattle.margin_text.specs.Taken.{IsInOrder};

use campaign::Span;
use clock_margins::Between;
use line_form::{Text, put_number, put_numbers, put_signed, put_word};
use ttp_base::NodeSet;
use ttp_world::Medl;

/// A line of margins has fewer bytes.
pub const ROOM: usize = 2048;

/// The slot of a jump, or a dash.
pub(crate) fn put_slot(line: &mut Text<ROOM>, label: &str, slot: Option<u32>)
    requires { length line.old + length label.now + 20 ≤ 2048 }
    ensures text { line.new ≡ worded line.old label.now (spell jump_slot_kind slot) }
    ensures short { length line.new ≤ length line.old + length label.now + 20 }
{
    match slot {
        Some(slot) => put_number(line, label, u64::from(slot)),
        None => put_word(line, label, "-"),
    }
}

/// The first slot that was asked for, or a dash.
pub(crate) fn put_first(line: &mut Text<ROOM>, label: &str, asked: Option<Span>)
    requires { length line.old + length label.now + 20 ≤ 2048 }
    ensures text { line.new ≡ worded line.old label.now (spell (or_dash (number (10 ^ 10))) (first_asked asked)) }
    ensures short { length line.new ≤ length line.old + length label.now + 20 }
{
    match asked {
        Some(asked) => put_number(line, label, u64::from(asked.first)),
        None => put_word(line, label, "-"),
    }
}

/// The last one.
pub(crate) fn put_last(line: &mut Text<ROOM>, label: &str, asked: Option<Span>)
    requires { length line.old + length label.now + 20 ≤ 2048 }
    ensures text { line.new ≡ worded line.old label.now (spell (or_dash (number (10 ^ 10))) (last_asked asked)) }
    ensures short { length line.new ≤ length line.old + length label.now + 20 }
{
    match asked {
        Some(asked) => put_number(line, label, u64::from(asked.last)),
        None => put_word(line, label, "-"),
    }
}

/// The least of some values, or a dash.
pub(crate) fn put_least(line: &mut Text<ROOM>, label: &str, values: Option<Between>)
    requires { length line.old + length label.now + 20 ≤ 2048 }
    ensures text { line.new ≡ worded line.old label.now (spell (or_dash value_kind) (least_in values)) }
    ensures short { length line.new ≤ length line.old + length label.now + 20 }
{
    match values {
        Some(values) => put_signed(line, label, values.least),
        None => put_word(line, label, "-"),
    }
}

/// The greatest.
pub(crate) fn put_greatest(line: &mut Text<ROOM>, label: &str, values: Option<Between>)
    requires { length line.old + length label.now + 20 ≤ 2048 }
    ensures text { line.new ≡ worded line.old label.now (spell (or_dash value_kind) (greatest_in values)) }
    ensures short { length line.new ≤ length line.old + length label.now + 20 }
{
    match values {
        Some(values) => put_signed(line, label, values.greatest),
        None => put_word(line, label, "-"),
    }
}

/// How far the nearest value is, or a dash.
pub(crate) fn put_nearest(line: &mut Text<ROOM>, label: &str, least: Option<u64>)
    requires { length line.old + length label.now + 20 ≤ 2048 }
    ensures text { line.new ≡ worded line.old label.now (spell (or_dash (number 10000000)) least) }
    ensures short { length line.new ≤ length line.old + length label.now + 20 }
{
    match least {
        Some(least) => put_number(line, label, least),
        None => put_word(line, label, "-"),
    }
}

// Adds a node.
fn add_node(all: &mut Text<24>, node: u8)
    requires { length all.old < 24 }
    ensures { all.new ≡ all.old ++ node ∷ [] }
{
    all.put_bytes(&[node]);
}

// The nodes of a set, in ascending order.
fn listed(nodes: NodeSet) -> Text<24>
    ensures { IsInOrder nodes → result ≡ nodes }
{
    let mut all = Text::new();
    for node in 0..24u8 {
        if nodes.has(node) {
            add_node(&mut all, node);
        }
    }
    all
}

/// The nodes of a set with commas between them, or a dash.
pub(crate) fn put_nodes(line: &mut Text<ROOM>, label: &str, nodes: NodeSet)
    requires room { length line.old + length label.now + 97 ≤ 2048 }
    requires order { IsInOrder nodes }
    ensures text { line.new ≡ worded line.old label.now (spell (commas 0 (number 0)) nodes) }
    ensures short { length line.new ≤ length line.old + length label.now + 97 }
{
    let listed = listed(nodes);
    put_numbers(line, label, listed.bytes());
}

// The four lowest hexadecimal digits of a number.
fn put_four(line: &mut Text<ROOM>, bits: u32)
    requires room { length line.old + 6 ≤ 2048 }
    ensures text { line.new ≡ line.old ++ hex 4 bits }
    ensures short { length line.new ≤ length line.old + 6 }
{
    line.put_hex(u64::from(bits % 65_536), 4);
}

// The six lowest ones.
fn put_six(line: &mut Text<ROOM>, bits: u32)
    requires room { length line.old + 6 ≤ 2048 }
    ensures text { line.new ≡ line.old ++ hex 6 bits }
    ensures short { length line.new ≤ length line.old + 6 }
{
    line.put_hex(u64::from(bits % 16_777_216), 6);
}

// The digits of a membership.
fn put_members(line: &mut Text<ROOM>, list: &Medl, members: NodeSet)
    requires valid { IsValid list.now }
    requires room { length line.old + 6 ≤ 2048 }
    ensures text { line.new ≡ line.old ++ spell (hexed (member_digits list.now)) (set_bits members) }
    ensures short { length line.new ≤ length line.old + 6 }
{
    if list.is_wide() {
        put_six(line, members.bits());
    } else {
        put_four(line, members.bits());
    }
}

// A comma, unless the word of this place is the first.
#[tactic(auto, using(ttp_base::proofs::Room::room))]
fn put_comma(line: &mut Text<ROOM>, place: usize)
    requires { length line.old + 1 ≤ 2048 }
    ensures text { line.new ≡ line.old ++ comma_before place }
    ensures short { length line.new ≤ length line.old + 1 }
{
    if place != 0 {
        line.put_text(",");
    }
}

// Memberships with commas between them.
fn put_joined(line: &mut Text<ROOM>, list: &Medl, sets: &[NodeSet])
    requires valid { IsValid list.now }
    requires room { length line.old + 7 * length sets.now ≤ 2048 }
    ensures text { line.new
        ≡ line.old ++ joined_by 44 (map (spell (hexed (member_digits list.now))) (map set_bits sets.now)) }
    ensures short { length line.new ≤ length line.old + 7 * length sets.now }
{
    for place in 0..sets.len() {
        put_comma(line, place);
        put_members(line, list, sets[place]);
    }
}

/// Memberships with commas between them, or a dash where there are none.
#[tactic(auto, using(ttp_base::proofs::Room::room, line_form::proofs::Lists::lists), unfolding(line_form::specs::Forms::worded))]
pub(crate) fn put_sets(line: &mut Text<ROOM>, label: &str, list: &Medl, sets: &[NodeSet])
    requires valid { IsValid list.now }
    requires room { length line.old + length label.now + 1 + 7 * length sets.now ≤ 2048 }
    ensures text { line.new
        ≡ worded line.old label.now (spell (commas 0 (hexed (member_digits list.now))) (map set_bits sets.now)) }
    ensures short { length line.new ≤ length line.old + length label.now + 1 + 7 * length sets.now }
{
    line.put_text(label);
    if sets.is_empty() {
        line.put_text("-");
    } else {
        put_joined(line, list, sets);
    }
}
