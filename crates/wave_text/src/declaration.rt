//! The line that declares a variable.
ghost use Rattle.std.specs.Prelude.{◌≡◌, ◌<◌, ◌≤◌, ◌+◌, ◌++◌, length};
ghost use Rattle.wave_text.specs.Variables.{cluster_name, cluster_type, node_name, node_type, port_name, port_type};
ghost use Rattle.wave_text.specs.Variables.{cluster_range, node_range, port_range, range_text, wire, HasLetters};
ghost use Rattle.wave_text.specs.Variables.{cluster_declaration, node_declaration, port_declaration};

use crate::change::{cluster_letter, node_code};
use crate::draft::Draft;
use crate::port::port_code;
use crate::variable::{ClusterVariable, NodeVariable, PortVariable};
use line_text::put_source;
use shown_slot::{Port, What};

#[tactic(auto, using(ttp_base::proofs::Room::room))]
fn put_wire(line: &mut Draft, size: u32)
    requires { length line.old ≤ 1900 }
    ensures text { line.new ≡ line.old ++ wire size }
    ensures short { length line.new ≤ length line.old + 25 }
{
    line.put_text("wire ");
    line.put_number(u64::from(size));
}

#[tactic(auto, using(ttp_base::proofs::Room::room))]
fn put_range(line: &mut Draft, size: u32)
    requires { length line.old ≤ 1900 }
    ensures text { line.new ≡ line.old ++ range_text size }
    ensures short { length line.new ≤ length line.old + 26 }
{
    line.put_text(" [");
    line.put_number(u64::from(size.saturating_sub(1)));
    line.put_text(":0]");
}

// In the order of `ClusterVariable`.
const CLUSTER_NAMES: [&str; 5] = ["agree", "sender", "active", "leaving", "spread"];

fn cluster_name(variable: ClusterVariable) -> &'static str
    ensures text { result.now ≡ cluster_name variable }
    ensures short { length result.now ≤ 7 }
{
    CLUSTER_NAMES[variable as usize]
}

// In the order of `NodeVariable`.
const NODE_NAMES: [&str; 10] = [
    "sends", "phase", "word", "peer", "msg", "mem", "acc", "rej", "ack", "clock",
];

fn node_name(variable: NodeVariable) -> &'static str
    ensures text { result.now ≡ node_name variable }
    ensures short { length result.now ≤ 5 }
{
    NODE_NAMES[variable as usize]
}

fn put_cluster_type(line: &mut Draft, width: u8, variable: ClusterVariable)
    requires { length line.old ≤ 1900 }
    ensures text { line.new ≡ line.old ++ cluster_type width variable }
    ensures short { length line.new ≤ length line.old + 25 }
{
    match variable {
        ClusterVariable::Agree => put_wire(line, 1),
        ClusterVariable::Sender => line.put_text("integer 32"),
        ClusterVariable::Active | ClusterVariable::Leaving => put_wire(line, u32::from(width)),
        ClusterVariable::Spread => line.put_text("integer 64"),
    }
}

fn put_cluster_range(line: &mut Draft, width: u8, variable: ClusterVariable)
    requires { length line.old ≤ 1900 }
    ensures text { line.new ≡ line.old ++ cluster_range width variable }
    ensures short { length line.new ≤ length line.old + 26 }
{
    match variable {
        ClusterVariable::Active | ClusterVariable::Leaving => put_range(line, u32::from(width)),
        ClusterVariable::Agree | ClusterVariable::Sender | ClusterVariable::Spread => {}
    }
}

fn put_node_type(line: &mut Draft, width: u8, variable: NodeVariable)
    requires { length line.old ≤ 1900 }
    ensures text { line.new ≡ line.old ++ node_type width variable }
    ensures short { length line.new ≤ length line.old + 25 }
{
    match variable {
        NodeVariable::Sends => put_wire(line, 1),
        NodeVariable::Members => put_wire(line, u32::from(width)),
        NodeVariable::Phase | NodeVariable::Word | NodeVariable::Ack => line.put_text("string 1"),
        NodeVariable::Clock => line.put_text("real 64"),
        NodeVariable::Peer
        | NodeVariable::Message
        | NodeVariable::Accepted
        | NodeVariable::Rejected => line.put_text("integer 32"),
    }
}

fn put_node_range(line: &mut Draft, width: u8, variable: NodeVariable)
    requires { length line.old ≤ 1900 }
    ensures text { line.new ≡ line.old ++ node_range width variable }
    ensures short { length line.new ≤ length line.old + 26 }
{
    if let NodeVariable::Members = variable {
        put_range(line, u32::from(width));
    }
}

/// Makes the declaration of a variable of the cluster.
pub(crate) fn make_cluster_declaration(line: &mut Draft, width: u8, variable: ClusterVariable)
    ensures { line.new ≡ cluster_declaration width variable }
{
    line.clear();
    line.put_text("$var ");
    put_cluster_type(line, width, variable);
    line.put_text(" ");
    line.put_text(cluster_letter(variable));
    line.put_text(" ");
    line.put_text(cluster_name(variable));
    put_cluster_range(line, width, variable);
    line.put_text(" $end\n");
}

/// Makes the declaration of a variable of a node.
pub(crate) fn make_node_declaration(line: &mut Draft, width: u8, node: u8, variable: NodeVariable)
    requires { node < 24 }
    ensures { line.new ≡ node_declaration width node variable }
{
    line.clear();
    line.put_text("$var ");
    put_node_type(line, width, variable);
    line.put_text(" ");
    line.put_bytes(&node_code(variable, node));
    line.put_text(" ");
    line.put_text(node_name(variable));
    put_node_range(line, width, variable);
    line.put_text(" $end\n");
}

fn put_port_name(line: &mut Draft, what: What, variable: PortVariable)
    requires { length line.old ≤ 1900 }
    ensures text { line.new ≡ line.old ++ port_name what variable }
    ensures short { length line.new ≤ length line.old + 25 }
{
    match what {
        What::Write => line.put_text("write"),
        What::Read(source) => {
            match variable {
                PortVariable::Number => line.put_text("read_"),
                PortVariable::Data => line.put_text("data_"),
            }
            put_source(line, source);
        }
    }
}

fn put_port_type(line: &mut Draft, port: &Port, variable: PortVariable)
    requires { length line.old ≤ 1900 }
    ensures text { line.new ≡ line.old ++ port_type port.now variable }
    ensures short { length line.new ≤ length line.old + 25 }
{
    match variable {
        PortVariable::Number => line.put_text("integer 32"),
        PortVariable::Data => put_wire(line, 8 * u32::from(port.size)),
    }
}

fn put_port_range(line: &mut Draft, port: &Port, variable: PortVariable)
    requires { length line.old ≤ 1900 }
    ensures text { line.new ≡ line.old ++ port_range port.now variable }
    ensures short { length line.new ≤ length line.old + 26 }
{
    match variable {
        PortVariable::Number => {}
        PortVariable::Data => put_range(line, 8 * u32::from(port.size)),
    }
}

/// Makes the declaration of a variable of a host.
pub(crate) fn make_port_declaration(line: &mut Draft, port: &Port, variable: PortVariable)
    requires { HasLetters port.now }
    ensures { line.new ≡ port_declaration port.now variable }
{
    line.clear();
    line.put_text("$var ");
    put_port_type(line, port, variable);
    line.put_text(" ");
    line.put_bytes(port_code(port, variable).bytes());
    line.put_text(" ");
    put_port_name(line, port.what, variable);
    put_port_range(line, port, variable);
    line.put_text(" $end\n");
}
