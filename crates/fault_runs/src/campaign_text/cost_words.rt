//! The words of a cost.
ghost use Rattle.std.specs.Prelude.{◌≡◌, ◌++◌, map, OnOk};
ghost use Rattle.std.specs.Fmt.{decimal};
ghost use Rattle.ttp_world.specs.Medl.{IsValid};
ghost use Rattle.ttp_world.specs.Trace.{reason_word};
ghost use Rattle.campaign.specs.CostText.{listed, leave_word, span_words, members_word, cost_words};
ghost use Rattle.fault_runs.specs.Listing.{comma_before, dash_for, in_order};

use campaign::{Cost, Leave, Span};
use ttp_base::{GrowingText, Memory, NodeSet};
use ttp_world::{Medl, Reason};

// Adds a comma, unless the word of this place is the first.
fn put_comma(text: &mut GrowingText, place: usize) -> Result<(), Memory>
    ensures { OnOk result (text.new ≡ text.old ++ comma_before place) }
{
    if place == 0 { Ok(()) } else { text.put(",") }
}

// Adds a dash where there are no words.
fn put_dash(text: &mut GrowingText, count: usize) -> Result<(), Memory>
    ensures { OnOk result (text.new ≡ text.old ++ dash_for count) }
{
    if count == 0 { text.put("-") } else { Ok(()) }
}

fn put_reason(text: &mut GrowingText, reason: Reason) -> Result<(), Memory>
    ensures { OnOk result (text.new ≡ text.old ++ reason_word reason) }
{
    match reason {
        Reason::Denied => text.put("denied"),
        Reason::Unacknowledged => text.put("unacknowledged"),
        Reason::Clique => text.put("clique"),
    }
}

fn put_leave(text: &mut GrowingText, leave: Leave) -> Result<(), Memory>
    ensures { OnOk result (text.new ≡ text.old ++ leave_word leave) }
{
    text.put_number(u64::from(leave.node))?;
    text.put_labelled(":", u64::from(leave.slot))?;
    text.put(":")?;
    put_reason(text, leave.reason)
}

fn put_leaves(text: &mut GrowingText, leaves: &[Leave]) -> Result<(), Memory>
    ensures { OnOk result (text.new ≡ text.old ++ listed (map leave_word leaves.now)) }
{
    for (place, leave) in leaves.iter().enumerate() {
        put_comma(text, place)?;
        put_leave(text, *leave)?;
    }
    put_dash(text, leaves.len())
}

/// Adds the nodes of a set in ascending order with commas between them, or a dash.
///
/// # Errors
///
/// Where memory was refused; some of it may have been added.
pub fn put_nodes(text: &mut GrowingText, nodes: NodeSet) -> Result<(), Memory>
    ensures { OnOk result (text.new ≡ text.old ++ listed (map decimal (in_order nodes))) }
{
    let mut place: usize = 0;
    for node in 0..24u8 {
        if nodes.has(node) {
            put_comma(text, place)?;
            text.put_number(u64::from(node))?;
            place += 1;
        }
    }
    put_dash(text, place)
}

fn put_span(text: &mut GrowingText, span: Option<Span>) -> Result<(), Memory>
    ensures { OnOk result (text.new ≡ text.old ++ span_words span) }
{
    match span {
        Some(span) => {
            text.put_number(u64::from(span.first))?;
            text.put_labelled(" ", u64::from(span.last))
        }
        None => text.put("- -"),
    }
}

fn put_members(text: &mut GrowingText, list: &Medl, members: NodeSet) -> Result<(), Memory>
    requires { IsValid list.now }
    ensures { OnOk result (text.new ≡ text.old ++ members_word list.now members) }
{
    if list.is_wide() {
        text.put_six_digits(members.bits())
    } else {
        text.put_four_digits(members.bits())
    }
}

fn put_memberships(text: &mut GrowingText, list: &Medl, sets: &[NodeSet]) -> Result<(), Memory>
    requires { IsValid list.now }
    ensures { OnOk result (text.new ≡ text.old ++ listed (map (members_word list.now) sets.now)) }
{
    for (place, members) in sets.iter().enumerate() {
        put_comma(text, place)?;
        put_members(text, list, *members)?;
    }
    put_dash(text, sets.len())
}

/// Adds the words of a cost, from `left` to the memberships that are left.
///
/// # Errors
///
/// Where memory was refused; some of it may have been added.
pub fn put_cost(text: &mut GrowingText, list: &Medl, cost: &Cost) -> Result<(), Memory>
    requires valid { IsValid list.now }
    requires hurt { in_order cost.now.hurt ≡ cost.now.hurt }
    ensures { OnOk result (text.new ≡ text.old ++ cost_words list.now cost.now) }
{
    text.put("left ")?;
    put_leaves(text, cost.left.as_slice())?;
    text.put(" hurt ")?;
    put_nodes(text, cost.hurt)?;
    text.put(" split ")?;
    put_span(text, cost.split)?;
    text.put(" end ")?;
    put_memberships(text, list, cost.end.as_slice())
}
