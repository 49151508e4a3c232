//! The changes of the variables of a cluster and of its nodes, written.
ghost use Rattle.std.specs.Prelude.{◌≡◌, ◌<◌, ◌≤◌, ℕ, [], ◌∷◌, length, Some, IsTrue};
ghost use Rattle.ttp_base.specs.Sheet.{Puts};
ghost use Rattle.wave_text.specs.declared.variable.NodeVariable.TheVariants as of_node;
ghost use Rattle.wave_text.specs.Moment.{DiffersInCounts, unless_first};
ghost use Rattle.wave_text.specs.Values.{cluster_value, node_value};
ghost use Rattle.wave_text.specs.Variables.{cluster_letter, node_letter, node_code};
ghost use Rattle.wave_text.specs.Wave.{change_line, change_lines, changes_by, cluster_changes, node_changes};

use crate::draft::Draft;
use crate::page::Page;
use crate::value::{put_cluster_value, put_node_value};
use crate::variable::{CLUSTER_VARIABLES, ClusterVariable, NODE_VARIABLES, NodeVariable};
use shown_slot::{active_bits, is_active_word, left_bits};
use ttp_base::Sink;
use whole_trace::NodeShown;

// Makes the line of a change of its value.
fn make_change(value: &mut Draft, code: &[u8])
    requires value { length value.old ≤ 2000 }
    requires code { length code.now ≤ 8 }
    ensures { value.new ≡ change_line value.old code.now }
{
    if value.len() > 1 {
        value.put_text(" ");
    }
    value.put_bytes(code);
    value.put_text("\n");
}

/// Writes the change to the value now, unless there was a slot before and its value is the same.
pub(crate) fn put_change<K: Sink>(is_first: bool, code: &[u8], page: &mut Page, out: &mut K)
    requires value { length page.old.now ≤ 2000 }
    requires code { length code.now ≤ 8 }
    ensures { Puts page.old.sheet.failed (K.output out.old) page.new.sheet.failed (K.output out.new)
        (change_lines code.now (unless_first is_first page.old.before) page.old.now) }
{
    if !is_first && page.before.bytes() == page.now.bytes() {
        return;
    }
    make_change(&mut page.now, code);
    page.write(out);
}

// In the order of `ClusterVariable`.
const CLUSTER_LETTERS: [&str; 5] = ["a", "b", "c", "d", "e"];

/// The letter of a variable of the cluster, which is its code.
pub(crate) fn cluster_letter(variable: ClusterVariable) -> &'static str
    ensures text { result.now ≡ cluster_letter variable }
    ensures short { length result.now ≡ 1 }
{
    CLUSTER_LETTERS[variable as usize]
}

// Whether a variable of the cluster has the same value for sure, since what it is read from is the same. Only of sets of
// nodes this is asked, whose texts are long.
fn is_kept_by_all(variable: ClusterVariable, before: &[NodeShown], now: &[NodeShown]) -> bool
    requires now { length now.now ≤ 24 }
    requires before { length before.now ≤ 24 }
    ensures { IsTrue result
        → (width : ℕ) → cluster_value width variable before.now ≡ cluster_value width variable now.now }
{
    match variable {
        ClusterVariable::Active => active_bits(before) == active_bits(now),
        ClusterVariable::Leaving => left_bits(before) == left_bits(now),
        _ => false,
    }
}

// Writes the change of a variable of the cluster.
fn put_cluster_change<K: Sink>(
    width: u8,
    variable: ClusterVariable,
    is_first: bool,
    before: &[NodeShown],
    now: &[NodeShown],
    page: &mut Page,
    out: &mut K,
)
    requires width { width ≤ 24 }
    requires now { length now.now ≤ 24 }
    requires before { length before.now ≤ 24 }
    ensures { Puts page.old.sheet.failed (K.output out.old) page.new.sheet.failed (K.output out.new)
        (changes_by (cluster_value width variable) (cluster_letter variable) (unless_first is_first before.now) now.now) }
{
    if !is_first && is_kept_by_all(variable, before, now) {
        return;
    }
    page.before.clear();
    page.now.clear();
    put_cluster_value(&mut page.before, width, variable, before);
    put_cluster_value(&mut page.now, width, variable, now);
    put_change(is_first, cluster_letter(variable).as_bytes(), page, out);
}

/// Writes the changes of the cluster's variables since the slot before, or all in the first one.
pub(crate) fn put_cluster_changes<K: Sink>(
    width: u8,
    is_first: bool,
    before: &[NodeShown],
    now: &[NodeShown],
    page: &mut Page,
    out: &mut K,
)
    requires width { width ≤ 24 }
    requires now { length now.now ≤ 24 }
    requires before { length before.now ≤ 24 }
    ensures { Puts page.old.sheet.failed (K.output out.old) page.new.sheet.failed (K.output out.new)
        (cluster_changes width (unless_first is_first before.now) now.now) }
{
    for variable in &CLUSTER_VARIABLES {
        put_cluster_change(width, *variable, is_first, before, now, page, out);
    }
}

// In the order of `NodeVariable`.
const NODE_LETTERS: [u8; 10] = [b'a', b'b', b'c', b'd', b'e', b'f', b'g', b'h', b'i', b'j'];

/// The letter with which the code of a variable of a node begins.
pub(crate) fn node_letter(variable: NodeVariable) -> u8
    ensures { result ∷ [] ≡ node_letter variable }
{
    NODE_LETTERS[variable as usize]
}

/// The code of a variable of a node.
pub(crate) fn node_code(variable: NodeVariable, node: u8) -> [u8; 2]
    requires { node < 24 }
    ensures { result ≡ node_code variable node }
{
    [node_letter(variable), b'A' + node]
}

// Whether a variable of a node whose word is the same has the same value for sure.
fn is_kept_by_word(variable: NodeVariable, before: &NodeShown, now: &NodeShown) -> bool
    requires { before.now.word ≡ now.now.word }
    ensures { IsTrue result → (width : ℕ) → node_value width variable before.now ≡ node_value width variable now.now }
{
    match variable {
        NodeVariable::Sends | NodeVariable::Phase | NodeVariable::Word => true,
        NodeVariable::Peer => before.peer == now.peer,
        NodeVariable::Message => before.message == now.message,
        NodeVariable::Members => before.members.bits() == now.members.bits(),
        NodeVariable::Accepted => before.accepted == now.accepted,
        NodeVariable::Rejected => before.rejected == now.rejected,
        NodeVariable::Ack => before.ack == now.ack,
        NodeVariable::Clock => before.offset == now.offset,
    }
}

// Whether two lines show the same members for sure: both nodes are active and hold the same, or do so by the same word.
#[tactic(auto, using(crate::proofs::Held::held_by_active))]
fn show_same_members(before: &NodeShown, now: &NodeShown) -> bool
    ensures { IsTrue result
        → (width : ℕ) → node_value width of_node.Members before.now ≡ node_value width of_node.Members now.now }
{
    before.members.bits() == now.members.bits()
        && (before.word == now.word || (is_active_word(before.word) && is_active_word(now.word)))
}

// Whether a variable of a node has the same value for sure, since what it is read from is the same.
fn is_kept(variable: NodeVariable, before: &NodeShown, now: &NodeShown) -> bool
    ensures { IsTrue result → (width : ℕ) → node_value width variable before.now ≡ node_value width variable now.now }
{
    match variable {
        NodeVariable::Members => show_same_members(before, now),
        variable => before.word == now.word && is_kept_by_word(variable, before, now),
    }
}

// Writes the change of a variable of a node.
fn put_node_change<K: Sink>(
    width: u8,
    variable: NodeVariable,
    node: u8,
    is_first: bool,
    before: &NodeShown,
    now: &NodeShown,
    page: &mut Page,
    out: &mut K,
)
    requires width { width ≤ 24 }
    requires node { node < 24 }
    ensures { Puts page.old.sheet.failed (K.output out.old) page.new.sheet.failed (K.output out.new)
        (changes_by (node_value width variable) (node_code variable node) (unless_first is_first before.now) now.now) }
{
    if !is_first && is_kept(variable, before, now) {
        return;
    }
    page.before.clear();
    page.now.clear();
    put_node_value(&mut page.before, width, variable, before);
    put_node_value(&mut page.now, width, variable, now);
    put_change(is_first, &node_code(variable, node), page, out);
}

// Whether lines show the same of a node but for its peer and the frames that it accepted.
fn differ_in_counts(before: &NodeShown, now: &NodeShown) -> bool
    ensures { IsTrue result → DiffersInCounts before.now now.now }
{
    before.word == now.word
        && before.message == now.message
        && before.members.bits() == now.members.bits()
        && before.rejected == now.rejected
        && before.ack == now.ack
        && before.offset == now.offset
}

// Writes the changes of a node's variables where no others can have changed.
fn put_counts<K: Sink>(
    width: u8,
    node: u8,
    before: &NodeShown,
    now: &NodeShown,
    page: &mut Page,
    out: &mut K,
)
    requires width { width ≤ 24 }
    requires node { node < 24 }
    requires counts { DiffersInCounts before.now now.now }
    ensures { Puts page.old.sheet.failed (K.output out.old) page.new.sheet.failed (K.output out.new)
        (node_changes width node (Some before.now) now.now) }
{
    let peer = NodeVariable::Peer;
    put_node_change(width, peer, node, false, before, now, page, out);
    let accepted = NodeVariable::Accepted;
    put_node_change(width, accepted, node, false, before, now, page, out);
}

// Writes the changes of a node's variables, one after another.
fn put_each_change<K: Sink>(
    width: u8,
    node: u8,
    is_first: bool,
    before: &NodeShown,
    now: &NodeShown,
    page: &mut Page,
    out: &mut K,
)
    requires width { width ≤ 24 }
    requires node { node < 24 }
    ensures { Puts page.old.sheet.failed (K.output out.old) page.new.sheet.failed (K.output out.new)
        (node_changes width node (unless_first is_first before.now) now.now) }
{
    for variable in &NODE_VARIABLES {
        put_node_change(width, *variable, node, is_first, before, now, page, out);
    }
}

/// Writes the changes of a node's variables since the slot before, or all in the first one.
pub(crate) fn put_node_changes<K: Sink>(
    width: u8,
    node: u8,
    is_first: bool,
    before: &NodeShown,
    now: &NodeShown,
    page: &mut Page,
    out: &mut K,
)
    requires width { width ≤ 24 }
    requires node { node < 24 }
    ensures { Puts page.old.sheet.failed (K.output out.old) page.new.sheet.failed (K.output out.new)
        (node_changes width node (unless_first is_first before.now) now.now) }
{
    if !is_first && differ_in_counts(before, now) {
        put_counts(width, node, before, now, page, out);
    } else {
        put_each_change(width, node, is_first, before, now, page, out);
    }
}
