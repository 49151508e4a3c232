//! The declarations, written.
#![tactic(auto, using(ttp_base::proofs::Puts::puts))]

ghost use Rattle.std.specs.Prelude.{◌≡◌, ◌<◌, ◌≤◌, [], ◌∷◌, ◌++◌, ◌==◌, codes, decimal};
ghost use Rattle.std.specs.Prelude.{if◌then◌else◌, All, flat_map, map};
ghost use Rattle.std.specs.List.{list_any};
ghost use Rattle.ttp_base.specs.Text.{lines_below};
ghost use Rattle.ttp_base.specs.Sheet.{Puts};
ghost use Rattle.wave_text.specs.Variables.{cluster_variables, node_variables, HasLetters};
ghost use Rattle.wave_text.specs.Variables.{cluster_declaration, node_declaration, port_declaration, port_declarations};
ghost use Rattle.wave_text.specs.Variables.{scope_line, host_scope, node_scope, declarations, ports_at};

use crate::declaration::{make_cluster_declaration, make_node_declaration, make_port_declaration};
use crate::draft::Draft;
use crate::page::Page;
use crate::variable::{CLUSTER_VARIABLES, NODE_VARIABLES, PortVariable};
use shown_slot::{Port, What};
use ttp_base::Sink;

// Writes the declarations of the cluster's variables.
fn put_cluster_declarations<K: Sink>(width: u8, page: &mut Page, out: &mut K)
    ensures { Puts page.old.sheet.failed (K.output out.old) page.new.sheet.failed (K.output out.new)
        (map (cluster_declaration width) cluster_variables) }
{
    for variable in &CLUSTER_VARIABLES {
        make_cluster_declaration(&mut page.now, width, *variable);
        page.write(out);
    }
}

// Writes the declarations of a node's variables.
fn put_node_declarations<K: Sink>(width: u8, node: u8, page: &mut Page, out: &mut K)
    requires { node < 24 }
    ensures { Puts page.old.sheet.failed (K.output out.old) page.new.sheet.failed (K.output out.new)
        (map (node_declaration width node) node_variables) }
{
    for variable in &NODE_VARIABLES {
        make_node_declaration(&mut page.now, width, node, *variable);
        page.write(out);
    }
}

// Writes the declaration of a variable of a host.
fn put_port_declaration<K: Sink>(port: &Port, variable: PortVariable, page: &mut Page, out: &mut K)
    requires { HasLetters port.now }
    ensures { Puts page.old.sheet.failed (K.output out.old) page.new.sheet.failed (K.output out.new)
        (port_declaration port.now variable ∷ []) }
{
    make_port_declaration(&mut page.now, port, variable);
    page.write(out);
}

// Writes the declarations of a port's variables, if it is of this host.
fn put_port_declarations<K: Sink>(port: &Port, host: u8, page: &mut Page, out: &mut K)
    requires { HasLetters port.now }
    ensures { Puts page.old.sheet.failed (K.output out.old) page.new.sheet.failed (K.output out.new)
        (if port.now.host == host then port_declarations port.now else []) }
{
    if port.host != host {
        return;
    }
    put_port_declaration(port, PortVariable::Number, page, out);
    if let What::Read(_) = port.what {
        put_port_declaration(port, PortVariable::Data, page, out);
    }
}

// Writes the declarations of the ports of a host.
fn put_host_declarations<K: Sink>(ports: &[Port], host: u8, page: &mut Page, out: &mut K)
    requires { All HasLetters ports.now }
    ensures { Puts page.old.sheet.failed (K.output out.old) page.new.sheet.failed (K.output out.new)
        (flat_map port_declarations (ports_at ports.now host)) }
{
    for port in ports {
        put_port_declarations(port, host, page, out);
    }
}

// Whether a host has ports.
fn has_ports(ports: &[Port], host: u8) -> bool
    ensures { result ≡ list_any (λ port. port.host == host) ports.now }
{
    ports.iter().any(|port| port.host == host)
}

// Writes the scope of a host, if it has ports.
fn put_host_scope<K: Sink>(ports: &[Port], host: u8, page: &mut Page, out: &mut K)
    requires { All HasLetters ports.now }
    ensures { Puts page.old.sheet.failed (K.output out.old) page.new.sheet.failed (K.output out.new)
        (host_scope (ports_at ports.now host)) }
{
    if has_ports(ports, host) {
        page.sheet.put(b"$scope module host $end\n", out);
        put_host_declarations(ports, host, page, out);
        page.sheet.put(b"$upscope $end\n", out);
    }
}

// Makes the line that begins the scope of a node.
#[tactic(auto, using(ttp_base::proofs::Room::room))]
fn make_scope_line(line: &mut Draft, node: u8)
    ensures { line.new ≡ scope_line (codes "node" ++ decimal node) }
{
    line.clear();
    line.put_text("$scope module node");
    line.put_number(u64::from(node));
    line.put_text(" $end\n");
}

// Writes the scope of a node, with that of its host.
fn put_node_scope<K: Sink>(width: u8, ports: &[Port], node: u8, page: &mut Page, out: &mut K)
    requires node { node < 24 }
    requires ports { All HasLetters ports.now }
    ensures { Puts page.old.sheet.failed (K.output out.old) page.new.sheet.failed (K.output out.new)
        (node_scope width ports.now node) }
{
    make_scope_line(&mut page.now, node);
    page.write(out);
    put_node_declarations(width, node, page, out);
    put_host_scope(ports, node, page, out);
    page.sheet.put(b"$upscope $end\n", out);
}

// Writes the scopes of the nodes.
fn put_node_scopes<K: Sink>(width: u8, nodes: u8, ports: &[Port], page: &mut Page, out: &mut K)
    requires nodes { nodes ≤ 24 }
    requires ports { All HasLetters ports.now }
    ensures { Puts page.old.sheet.failed (K.output out.old) page.new.sheet.failed (K.output out.new)
        (lines_below (node_scope width ports.now) nodes) }
{
    for node in 0..nodes {
        put_node_scope(width, ports, node, page, out);
    }
}

/// Writes the declarations of a cluster of so many nodes, whose sets of nodes are wires of so many bits.
pub(crate) fn put_declarations<K: Sink>(
    width: u8,
    nodes: u8,
    ports: &[Port],
    page: &mut Page,
    out: &mut K,
)
    requires nodes { nodes ≤ 24 }
    requires ports { All HasLetters ports.now }
    ensures { Puts page.old.sheet.failed (K.output out.old) page.new.sheet.failed (K.output out.new)
        (declarations width nodes ports.now) }
{
    page.sheet.put(b"$scope module cluster $end\n", out);
    put_cluster_declarations(width, page, out);
    put_node_scopes(width, nodes, ports, page, out);
    page.sheet.put(b"$upscope $end\n", out);
}
