//! The values of variables.
ghost use Rattle.std.specs.Prelude.{◌≡◌, ◌+◌, ◌≤◌, [], ◌++◌, length, codes};
ghost use Rattle.shown_slot.specs.Nodes.{agreement, sender_among, clock_range};
ghost use Rattle.ttp_base.specs.NodeSet.{set_bits};
ghost use Rattle.wave_text.specs.Values.{bit_text, number_or_nothing, agreement_text, sender_text, spread_text};
ghost use Rattle.wave_text.specs.Values.{cluster_value, node_value, phase_text, unless_off, held_text};
ghost use Rattle.wave_text.specs.Values.{number_text, wires_text, node_ack_text, clock_text, bytes_text, port_value};

use crate::draft::{Draft, put_binary, put_number, put_wires};
use crate::variable::{ClusterVariable, NodeVariable, PortVariable};
use line_reader::Word;
use line_text::put_ack_word;
use shown_slot::{
    Message, Sender, active_bits, agreement, clock_range, is_active_word, left_bits, sender_among,
    sends, word_text,
};
use ttp_world::{Ack, Payload};
use whole_trace::NodeShown;

fn bit_text(bit: bool) -> &'static str
    ensures text { result.now ≡ bit_text bit }
    ensures short { length result.now ≡ 1 }
{
    if bit { "1" } else { "0" }
}

fn put_number_or_nothing(line: &mut Draft, number: Option<u64>)
    requires { length line.old + 65 ≤ 2048 }
    ensures text { line.new ≡ line.old ++ number_or_nothing number }
    ensures short { length line.new ≤ length line.old + 65 }
{
    match number {
        Some(number) => put_number(line, number),
        None => line.put_text("bz"),
    }
}

// Whether all holders hold the same members.
fn put_agreement(line: &mut Draft, nodes: &[NodeShown])
    requires { length line.old + 65 ≤ 2048 }
    ensures text { line.new ≡ line.old ++ agreement_text (agreement nodes.now) }
    ensures short { length line.new ≤ length line.old + 65 }
{
    match agreement(nodes) {
        None => line.put_text("z"),
        Some(same) => line.put_text(bit_text(same)),
    }
}

// Who sent.
fn put_sender(line: &mut Draft, nodes: &[NodeShown])
    requires room { length line.old + 65 ≤ 2048 }
    requires nodes { length nodes.now ≤ 24 }
    ensures text { line.new ≡ line.old ++ sender_text (sender_among 0 nodes.now) }
    ensures short { length line.new ≤ length line.old + 65 }
{
    match sender_among(0, nodes) {
        Sender::Nobody => line.put_text("bz"),
        Sender::Node(node) => put_number(line, u64::from(node)),
        Sender::Several => line.put_text("bx"),
    }
}

// How far clocks are apart.
fn put_spread(line: &mut Draft, nodes: &[NodeShown])
    requires { length line.old + 65 ≤ 2048 }
    ensures text { line.new ≡ line.old ++ spread_text (clock_range nodes.now) }
    ensures short { length line.new ≤ length line.old + 65 }
{
    match clock_range(nodes) {
        None => line.put_text("bz"),
        Some(range) => put_number(line, range.spread()),
    }
}

/// Adds the value of a variable of the cluster.
pub(crate) fn put_cluster_value(
    line: &mut Draft,
    width: u8,
    variable: ClusterVariable,
    nodes: &[NodeShown],
)
    requires room { length line.old + 65 ≤ 2048 }
    requires nodes { length nodes.now ≤ 24 }
    requires width { width ≤ 24 }
    ensures text { line.new ≡ line.old ++ cluster_value width variable nodes.now }
    ensures short { length line.new ≤ length line.old + 65 }
{
    match variable {
        ClusterVariable::Agree => put_agreement(line, nodes),
        ClusterVariable::Sender => put_sender(line, nodes),
        ClusterVariable::Active => put_wires(line, width, active_bits(nodes)),
        ClusterVariable::Leaving => put_wires(line, width, left_bits(nodes)),
        ClusterVariable::Spread => put_spread(line, nodes),
    }
}

// In the order of `Word`.
const PHASES: [&str; 15] = [
    "off",
    "listening",
    "listening",
    "left",
    "active",
    "active",
    "active",
    "active",
    "active",
    "active",
    "active",
    "active",
    "left",
    "left",
    "left",
];

fn phase_text(word: Word) -> &'static str
    ensures text { result.now ≡ phase_text word }
    ensures short { length result.now ≤ 9 }
{
    PHASES[word as usize]
}

// A value that a node has unless it is off.
fn put_unless_off(line: &mut Draft, word: Word, number: Option<u64>)
    requires { length line.old + 65 ≤ 2048 }
    ensures text { line.new ≡ line.old ++ unless_off word (number_or_nothing number) }
    ensures short { length line.new ≤ length line.old + 65 }
{
    match word {
        Word::Off => line.put_text("bx"),
        _ => put_number_or_nothing(line, number),
    }
}

// A number that an active node holds.
fn put_held_number(line: &mut Draft, word: Word, number: u8)
    requires { length line.old + 65 ≤ 2048 }
    ensures text { line.new ≡ line.old ++ held_text word (number_text number) }
    ensures short { length line.new ≤ length line.old + 65 }
{
    let held = if is_active_word(word) {
        Some(u64::from(number))
    } else {
        None
    };
    put_unless_off(line, word, held);
}

// The members that an active node holds.
fn put_held_members(line: &mut Draft, width: u8, node: &NodeShown)
    requires room { length line.old + 65 ≤ 2048 }
    requires width { width ≤ 24 }
    ensures text { line.new ≡ line.old ++ held_text node.now.word (wires_text width (set_bits node.now.members)) }
    ensures short { length line.new ≤ length line.old + 65 }
{
    match node.word {
        Word::Off => line.put_text("bx"),
        word => {
            if is_active_word(word) {
                put_wires(line, width, node.members.bits());
            } else {
                line.put_text("bz");
            }
        }
    }
}

// What a node knows of its own newest frame.
#[tactic(auto, using(ttp_base::proofs::Room::room))]
fn put_ack(line: &mut Draft, ack: Ack)
    requires { length line.old + 65 ≤ 2048 }
    ensures text { line.new ≡ line.old ++ node_ack_text ack }
    ensures short { length line.new ≤ length line.old + 65 }
{
    line.put_text("s");
    put_ack_word(line, ack);
}

#[tactic(auto, using(ttp_base::proofs::Room::room))]
fn put_clock(line: &mut Draft, offset: i64)
    requires { length line.old + 65 ≤ 2048 }
    ensures text { line.new ≡ line.old ++ clock_text offset }
    ensures short { length line.new ≤ length line.old + 65 }
{
    line.put_text("r");
    line.put_signed(offset);
}

// A text, as the value of a variable.
fn put_words(line: &mut Draft, text: &str)
    requires room { length line.old + 65 ≤ 2048 }
    requires short { length text.now ≤ 14 }
    ensures text { line.new ≡ line.old ++ (codes "s" ++ text.now) }
    ensures short { length line.new ≤ length line.old + 65 }
{
    line.put_text("s");
    line.put_text(text);
}

/// Adds the value of a variable of a node.
pub(crate) fn put_node_value(line: &mut Draft, width: u8, variable: NodeVariable, node: &NodeShown)
    requires room { length line.old + 65 ≤ 2048 }
    requires width { width ≤ 24 }
    ensures text { line.new ≡ line.old ++ node_value width variable node.now }
    ensures short { length line.new ≤ length line.old + 65 }
{
    match variable {
        NodeVariable::Sends => line.put_text(bit_text(sends(node.word))),
        NodeVariable::Phase => put_words(line, phase_text(node.word)),
        NodeVariable::Word => put_words(line, word_text(node.word)),
        NodeVariable::Peer => put_unless_off(line, node.word, node.peer.map(u64::from)),
        NodeVariable::Message => put_unless_off(line, node.word, node.message),
        NodeVariable::Members => put_held_members(line, width, node),
        NodeVariable::Accepted => put_held_number(line, node.word, node.accepted),
        NodeVariable::Rejected => put_held_number(line, node.word, node.rejected),
        NodeVariable::Ack => put_ack(line, node.ack),
        NodeVariable::Clock => put_clock(line, node.offset),
    }
}

// The bytes of a message.
fn put_bytes(line: &mut Draft, payload: &Payload)
    requires { line.old ≡ [] }
    ensures text { line.new ≡ bytes_text payload.now }
    ensures short { length line.new ≤ 1921 }
{
    line.put_text("b");
    for byte in payload.bytes() {
        put_binary(line, 8, u32::from(*byte));
    }
}

/// Adds the value of a variable of a host to the empty text.
pub(crate) fn put_port_value(line: &mut Draft, variable: PortVariable, message: &Option<Message>)
    requires { line.old ≡ [] }
    ensures text { line.new ≡ port_value variable message.now }
    ensures short { length line.new ≤ 1921 }
{
    match message {
        None => line.put_text("bz"),
        Some(message) => match variable {
            PortVariable::Number => put_number(line, message.number),
            PortVariable::Data => put_bytes(line, &message.payload),
        },
    }
}
