//! What a line says of a rule that is not kept.
ghost use Rattle.std.specs.Prelude.{◌≡◌, ◌++◌, true, false, OnOk};
ghost use Rattle.std.specs.Fmt.{signed_decimal};
ghost use Rattle.ttp_world.specs.Medl.{IsValid};
ghost use Rattle.ttp_world.specs.Script.{drift_of};
ghost use Rattle.ttp_world.specs.Hypothesis.{four_windows};
ghost use Rattle.broken_faults.specs.declared.early.Since.TheVariants as since;
ghost use Rattle.broken_arms.specs.declared.reasons.NotOwed.TheVariants as not_owed;
ghost use Rattle.broken_rules.specs.declared.jumps.Disturbance.TheVariants as disturbance;
ghost use Rattle.broken_rules.specs.declared.start.NoStart.TheVariants as why;
ghost use Rattle.check_words.specs.Pieces.{piece_text};
ghost use Rattle.warning_words.specs.Texts.{drift_text, errors_text, window_said, disturbance_text, slot_on};
ghost use Rattle.warning_words.specs.Texts.{no_start_text, lost_text, since_text, early_text, few_text, not_owed_text};
ghost use Rattle.warning_words.specs.Texts.{early_front, arm_front, arm_text};

use broken_arms::{BrokenArm, NotOwed};
use broken_faults::{EarlyFault, LostFrame, Since, TooFew};
use broken_rules::{Disturbance, NoStart};
use check_words::{Piece, Text, put_pieces};
use ttp_base::{Memory, NodeSet};
use ttp_world::{Medl, Script};

// A node's drift, in microticks a slot.
fn drift_of(script: &Script, node: u32) -> i64
    ensures { result ≡ drift_of script.now node }
{
    if (node as usize) < script.drift.len() {
        *script.drift.get(node as usize)
    } else {
        0
    }
}

// The slot in which a node is switched on.
fn slot_on(script: &Script, node: u32) -> u32
    ensures { result ≡ slot_on script.now node }
{
    if (node as usize) < script.on.len() {
        script.on.get(node as usize).unwrap_or(0)
    } else {
        0
    }
}

// Four windows, in microticks.
fn four_windows(list: &Medl) -> i64
    requires { IsValid list.now }
    ensures { result ≡ four_windows list.now }
{
    list.window * 4
}

/// Adds what is said of a drift past the list's bound.
pub(crate) fn put_drift(
    text: &mut Text,
    list: &Medl,
    script: &Script,
    node: u32,
) -> Result<(), Memory>
    ensures { OnOk result (text.new ≡ text.old ++ drift_text list.now script.now node) }
{
    let pieces = [
        Piece::Words("drift of node "),
        Piece::Number(node as u64),
        Piece::Words(" is "),
        Piece::Signed(drift_of(script, node)),
        Piece::Words(", past drift = "),
        Piece::Signed(list.drift),
        Piece::Words(" of the list"),
    ];
    put_pieces(text, &pieces)
}

// A number as a piece.
fn signed_piece(number: &i64) -> Piece<'static>
    ensures { piece_text result ≡ signed_decimal number.now }
{
    Piece::Signed(*number)
}

// Numbers of a list as pieces.
fn window_piece(list: &Medl) -> Piece<'static>
    ensures { piece_text result ≡ signed_decimal list.now.window }
{
    signed_piece(&list.window)
}

fn drift_piece(list: &Medl) -> Piece<'static>
    ensures { piece_text result ≡ signed_decimal list.now.drift }
{
    signed_piece(&list.drift)
}

fn error_piece(list: &Medl) -> Piece<'static>
    ensures { piece_text result ≡ signed_decimal list.now.error }
{
    signed_piece(&list.error)
}

fn four_windows_piece(list: &Medl) -> Piece<'static>
    requires { IsValid list.now }
    ensures { piece_text result ≡ signed_decimal (four_windows list.now) }
{
    signed_piece(&four_windows(list))
}

/// Adds what is said of reading errors past the list's bound.
pub(crate) fn put_errors(text: &mut Text, list: &Medl, node: u8, sum: &i64) -> Result<(), Memory>
    ensures { OnOk result (text.new ≡ text.old ++ errors_text list.now node sum.now) }
{
    let pieces = [
        Piece::Words("error lines of node "),
        Piece::Number(node as u64),
        Piece::Words(" add up to "),
        signed_piece(sum),
        Piece::Words(", past error = "),
        error_piece(list),
        Piece::Words(" of the list"),
    ];
    put_pieces(text, &pieces)
}

// Adds what is said of a window that is to be so wide, where no node is armed.
fn put_window_kept(text: &mut Text, list: &Medl, due: &i64) -> Result<(), Memory>
    requires { IsValid list.now }
    ensures { OnOk result (text.new ≡ text.old ++ window_said list.now false due.now) }
{
    let pieces = [
        Piece::Words("window is "),
        window_piece(list),
        Piece::Words(", wanted "),
        signed_piece(due),
        Piece::Words(" or more: 4 * drift "),
        drift_piece(list),
        Piece::Words(" * nodes "),
        Piece::Number(list.nodes() as u64),
        Piece::Words(" + 3 * error "),
        error_piece(list),
        Piece::Words(" + 1"),
    ];
    put_pieces(text, &pieces)
}

// The same where one is.
fn put_window_back(text: &mut Text, list: &Medl, due: &i64) -> Result<(), Memory>
    requires { IsValid list.now }
    ensures { OnOk result (text.new ≡ text.old ++ window_said list.now true due.now) }
{
    let pieces = [
        Piece::Words("window is "),
        window_piece(list),
        Piece::Words(", wanted "),
        signed_piece(due),
        Piece::Words(" or more: 8 * drift "),
        drift_piece(list),
        Piece::Words(" * nodes "),
        Piece::Number(list.nodes() as u64),
        Piece::Words(" + 6 * error "),
        error_piece(list),
        Piece::Words(" + 2"),
    ];
    put_pieces(text, &pieces)
}

/// Adds what is said of a window that is to be so wide.
pub(crate) fn put_window(text: &mut Text, list: &Medl, armed: bool, due: &i64) -> Result<(), Memory>
    requires { IsValid list.now }
    ensures { OnOk result (text.new ≡ text.old ++ window_said list.now armed due.now) }
{
    if armed {
        put_window_back(text, list, due)
    } else {
        put_window_kept(text, list, due)
    }
}

fn put_flip(text: &mut Text, list: &Medl, node: u8) -> Result<(), Memory>
    ensures { OnOk result (text.new ≡ text.old ++ disturbance_text list.now (disturbance.FlippedBit node)) }
{
    let pieces = [
        Piece::Words("a bit of the frame of node "),
        Piece::Number(node as u64),
        Piece::Words(" is flipped"),
    ];
    put_pieces(text, &pieces)
}

fn put_jumps_again(text: &mut Text, list: &Medl, node: u8, first: u32) -> Result<(), Memory>
    ensures { OnOk result (text.new ≡ text.old ++ disturbance_text list.now (disturbance.JumpsAgain node first)) }
{
    let pieces = [
        Piece::Words("node "),
        Piece::Number(node as u64),
        Piece::Words(" jumps again, after slot "),
        Piece::Number(first as u64),
    ];
    put_pieces(text, &pieces)
}

fn put_short_jump(text: &mut Text, list: &Medl, node: u8, sum: &i64) -> Result<(), Memory>
    requires { IsValid list.now }
    ensures { OnOk result (text.new ≡ text.old ++ disturbance_text list.now (disturbance.ShortJump node sum.now)) }
{
    let pieces = [
        Piece::Words("jumps of node "),
        Piece::Number(node as u64),
        Piece::Words(" add up to "),
        signed_piece(sum),
        Piece::Words(", wanted "),
        four_windows_piece(list),
        Piece::Words(" or more, ahead or back"),
    ];
    put_pieces(text, &pieces)
}

/// Adds what is said of a flipped bit, or of a jump that is not allowed.
pub(crate) fn put_disturbance(text: &mut Text, list: &Medl, by: &Disturbance) -> Result<(), Memory>
    requires { IsValid list.now }
    ensures { OnOk result (text.new ≡ text.old ++ disturbance_text list.now by.now) }
{
    match by {
        Disturbance::FlippedBit { node } => put_flip(text, list, *node),
        Disturbance::JumpsAgain { node, first } => put_jumps_again(text, list, *node, *first),
        Disturbance::ShortJump { node, sum } => put_short_jump(text, list, *node, sum),
    }
}

fn put_no_starter_on(
    text: &mut Text,
    script: &Script,
    node: u32,
    starters: NodeSet,
) -> Result<(), Memory>
    ensures { OnOk result (text.new ≡ text.old ++ no_start_text script.now node (why.NoStarterOn starters)) }
{
    let pieces = [
        Piece::Words("no node that may start is on, wanted one of: "),
        Piece::Nodes(starters),
    ];
    put_pieces(text, &pieces)
}

fn put_rivals(
    text: &mut Text,
    script: &Script,
    node: u32,
    slot: u32,
    first: u8,
    second: u8,
) -> Result<(), Memory>
    ensures { OnOk result (text.new ≡ text.old ++ no_start_text script.now node (why.Rivals slot first second)) }
{
    let pieces = [
        Piece::Words("nodes "),
        Piece::Number(first as u64),
        Piece::Words(" and "),
        Piece::Number(second as u64),
        Piece::Words(" would both start in slot "),
        Piece::Number(slot as u64),
        Piece::Words(", wanted one alone"),
    ];
    put_pieces(text, &pieces)
}

fn put_late(
    text: &mut Text,
    script: &Script,
    node: u32,
    slot: u32,
    nodes: NodeSet,
) -> Result<(), Memory>
    ensures { OnOk result (text.new ≡ text.old ++ no_start_text script.now node (why.Late slot nodes)) }
{
    let pieces = [
        Piece::Words("node "),
        Piece::Number(node as u64),
        Piece::Words(" is on from slot "),
        Piece::Number(slot_on(script, node) as u64),
        Piece::Words(", wanted slot "),
        Piece::Number(slot as u64),
        Piece::Words(" or earlier, the slot of the start"),
    ];
    put_pieces(text, &pieces)
}

/// Adds why there is no start, where this node is one that comes on later.
pub(crate) fn put_no_start(
    text: &mut Text,
    script: &Script,
    node: u32,
    why: NoStart,
) -> Result<(), Memory>
    ensures { OnOk result (text.new ≡ text.old ++ no_start_text script.now node why) }
{
    match why {
        NoStart::NoStarter => text.put("no slot has start = true, wanted one or more"),
        NoStart::NobodyOn => text.put("no node is on, wanted a line on NODE SLOT for each"),
        NoStart::NoStarterOn { starters } => put_no_starter_on(text, script, node, starters),
        NoStart::Rivals {
            slot,
            first,
            second,
        } => put_rivals(text, script, node, slot, first, second),
        NoStart::Late { slot, nodes } => put_late(text, script, node, slot, nodes),
    }
}

/// Adds what is said of a frame that some lost and others did not.
pub(crate) fn put_lost(text: &mut Text, lost: LostFrame) -> Result<(), Memory>
    ensures { OnOk result (text.new ≡ text.old ++ lost_text lost) }
{
    let pieces = [
        Piece::Words("the frame of node "),
        Piece::Number(lost.sender as u64),
        Piece::Words(" is lost to nodes "),
        Piece::Nodes(lost.lost),
        Piece::Words(", but not to "),
        Piece::Nodes(lost.heard),
        Piece::Words(": wanted lost to one node or to all"),
    ];
    put_pieces(text, &pieces)
}

fn put_since_start(text: &mut Text, slot: u32) -> Result<(), Memory>
    ensures { OnOk result (text.new ≡ text.old ++ since_text (since.Start slot)) }
{
    let pieces = [
        Piece::Words("the start in slot "),
        Piece::Number(slot as u64),
    ];
    put_pieces(text, &pieces)
}

fn put_since_fault(text: &mut Text, slot: u32, node: u8) -> Result<(), Memory>
    ensures { OnOk result (text.new ≡ text.old ++ since_text (since.Fault slot node)) }
{
    let pieces = [
        Piece::Words("node "),
        Piece::Number(node as u64),
        Piece::Words(" did in slot "),
        Piece::Number(slot as u64),
    ];
    put_pieces(text, &pieces)
}

// Adds what a fault is to lie two rounds behind.
fn put_since(text: &mut Text, since: Since) -> Result<(), Memory>
    ensures { OnOk result (text.new ≡ text.old ++ since_text since) }
{
    match since {
        Since::Start { slot } => put_since_start(text, slot),
        Since::Fault { slot, node } => put_since_fault(text, slot, node),
    }
}

// Adds what stands before that.
fn put_early_front(text: &mut Text, fault: EarlyFault) -> Result<(), Memory>
    ensures { OnOk result (text.new ≡ text.old ++ early_front fault) }
{
    let pieces = [
        Piece::Words("node "),
        Piece::Number(fault.node as u64),
        Piece::Words(" becomes faulty, wanted slot "),
        Piece::Number(fault.earliest as u64),
        Piece::Words(" or later, two rounds after "),
    ];
    put_pieces(text, &pieces)
}

/// Adds what is said of a fault that comes too early.
pub(crate) fn put_early(text: &mut Text, fault: EarlyFault) -> Result<(), Memory>
    ensures { OnOk result (text.new ≡ text.old ++ early_text fault) }
{
    put_early_front(text, fault)?;
    put_since(text, fault.since)
}

/// Adds which nodes to measure are left.
pub(crate) fn put_few(text: &mut Text, few: TooFew) -> Result<(), Memory>
    ensures { OnOk result (text.new ≡ text.old ++ few_text few) }
{
    let pieces = [
        Piece::Words("wanted four or more correct nodes with sync = true, left: "),
        Piece::Nodes(few.left),
    ];
    put_pieces(text, &pieces)
}

fn put_too_soon(text: &mut Text, slot: u32, since: u32, due: u32) -> Result<(), Memory>
    ensures { OnOk result (text.new ≡ text.old ++ not_owed_text slot (not_owed.TooSoon since due)) }
{
    let pieces = [
        Piece::Words("it is faulty since slot "),
        Piece::Number(since as u64),
        Piece::Words(", wanted an arm line in slot "),
        Piece::Number(due as u64),
        Piece::Words(" or later"),
    ];
    put_pieces(text, &pieces)
}

fn put_joins(
    text: &mut Text,
    slot: u32,
    node: u8,
    joined: u32,
    from: u32,
    to: u32,
) -> Result<(), Memory>
    ensures { OnOk result (text.new ≡ text.old ++ not_owed_text slot (not_owed.Joins node joined from to)) }
{
    let pieces = [
        Piece::Words("node "),
        Piece::Number(node as u64),
        Piece::Words(" becomes faulty in slot "),
        Piece::Number(joined as u64),
        Piece::Words(", wanted none from slot "),
        Piece::Number(from as u64),
        Piece::Words(" to "),
        Piece::Number(to as u64),
    ];
    put_pieces(text, &pieces)
}

fn put_other_arm(text: &mut Text, slot: u32, to: u32) -> Result<(), Memory>
    ensures { OnOk result (text.new ≡ text.old ++ not_owed_text slot (not_owed.OtherArm to)) }
{
    let pieces = [
        Piece::Words("another arm line, wanted none from slot "),
        Piece::Number(slot as u64),
        Piece::Words(" to "),
        Piece::Number(to as u64),
    ];
    put_pieces(text, &pieces)
}

fn put_own_line(text: &mut Text, slot: u32, at: u32, to: u32) -> Result<(), Memory>
    ensures { OnOk result (text.new ≡ text.old ++ not_owed_text slot (not_owed.OwnLine at to)) }
{
    let pieces = [
        Piece::Words("it has a send, receive or jump line in slot "),
        Piece::Number(at as u64),
        Piece::Words(", wanted none to slot "),
        Piece::Number(to as u64),
    ];
    put_pieces(text, &pieces)
}

fn put_unheard(text: &mut Text, slot: u32, node: u8, at: u32) -> Result<(), Memory>
    ensures { OnOk result (text.new ≡ text.old ++ not_owed_text slot (not_owed.Unheard node at)) }
{
    let pieces = [
        Piece::Words("node "),
        Piece::Number(node as u64),
        Piece::Words(" does not hear its slot "),
        Piece::Number(at as u64),
    ];
    put_pieces(text, &pieces)
}

fn put_no_place(text: &mut Text, slot: u32, to: u32) -> Result<(), Memory>
    ensures { OnOk result (text.new ≡ text.old ++ not_owed_text slot (not_owed.NoPlace to)) }
{
    let pieces = [
        Piece::Words("no frame of kind I or X in slots "),
        Piece::Number(slot as u64),
        Piece::Words(" to "),
        Piece::Number(to as u64),
    ];
    put_pieces(text, &pieces)
}

// Adds why an arm line in a slot does not give its node its place.
fn put_not_owed(text: &mut Text, slot: u32, why: NotOwed) -> Result<(), Memory>
    ensures { OnOk result (text.new ≡ text.old ++ not_owed_text slot why) }
{
    match why {
        NotOwed::NotFaulty => text.put("it is not faulty before"),
        NotOwed::TooSoon { since, due } => put_too_soon(text, slot, since, due),
        NotOwed::Joins {
            node,
            slot: joined,
            from,
            to,
        } => put_joins(text, slot, node, joined, from, to),
        NotOwed::OtherArm { to } => put_other_arm(text, slot, to),
        NotOwed::OwnLine { slot: at, to } => put_own_line(text, slot, at, to),
        NotOwed::Unheard { node, slot: at } => put_unheard(text, slot, node, at),
        NotOwed::NoPlace { to } => put_no_place(text, slot, to),
    }
}

// Adds what stands before that.
fn put_arm_front(text: &mut Text, arm: BrokenArm) -> Result<(), Memory>
    ensures { OnOk result (text.new ≡ text.old ++ arm_front arm) }
{
    let pieces = [
        Piece::Words("node "),
        Piece::Number(arm.node as u64),
        Piece::Words(" is not owed its place: "),
    ];
    put_pieces(text, &pieces)
}

/// Adds what is said of an arm line that does not give its node its place.
pub(crate) fn put_arm(text: &mut Text, arm: BrokenArm) -> Result<(), Memory>
    ensures { OnOk result (text.new ≡ text.old ++ arm_text arm) }
{
    put_arm_front(text, arm)?;
    put_not_owed(text, arm.slot, arm.why)
}
