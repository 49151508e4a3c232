//! What hosts do anywhere in a trace.
ghost use Rattle.std.specs.Prelude.{◌≡◌, ◌<◌, ◌≤◌, ℕ, [], ◌∷◌, ◌++◌, length, map, get_or, replicate};
ghost use Rattle.std.specs.Prelude.{List as Items, Some, None, All, IfOk, OnOk};
ghost use Rattle.std.specs.List.{flat_map};
ghost use Rattle.ttp_base.specs.NodeSet.{below};
ghost use Rattle.ttp_world.specs.declared.script.Source.TheVariants as source;
ghost use Rattle.whole_trace.specs.declared.shown.HostLine.{HostLine as Shown};
ghost use Rattle.shown_slot.specs.declared.host.What.{What as Does};
ghost use Rattle.shown_slot.specs.declared.host.What.TheVariants as what;
ghost use Rattle.shown_slot.specs.Ports.{all_whats, larger, port_if};
ghost use Rattle.shown_slot.specs.Trace.{trace_ports};
ghost use Rattle.wave_text.specs.Places.{HasMost, HasPlace, message_said, ports_in, size_at};
ghost use Rattle.wave_text.specs.Variables.{HasLetters};
ghost use Rattle.wave_text.specs.declared.place.TheConstants.{PLACES};

use crate::place::{PLACES, placed, table_place};
use shown_slot::{Port, What};
use std::alloc::Global;
use ttp_base::{List, Memory};
use ttp_world::Source;
use whole_trace::{HostLine, Hosts, Whole};

// How many bytes of its message a line says.
fn size_in(line: &HostLine) -> u8
    ensures { result ≡ length (message_said line.now).payload }
{
    match line {
        HostLine::Write { .. } => 0,
        HostLine::Read { payload, .. } => payload.bytes().len() as u8,
    }
}

// The larger one of a size in a table and another.
fn larger(sizes: &[Option<u8>], at: usize, size: u8) -> u8
    requires { at < length sizes.now }
    ensures { Some result ≡ larger (get_or sizes.now at None) (Some size) }
{
    match sizes[at] {
        None => size,
        Some(most) => most.max(size),
    }
}

// Takes a line into a table of sizes.
fn note_size(sizes: &mut [Option<u8>], line: &HostLine)
    requires { length sizes.old ≡ PLACES }
    ensures { (k : ℕ) (does : Does) (lines : Items Shown) → HasPlace k does → HasMost sizes.old lines k does
        → HasMost sizes.new (lines ++ line.now ∷ []) k does }
{
    if let Some((host, what)) = placed(line) {
        let at = table_place(host, what);
        sizes[at] = Some(larger(sizes, at, size_in(line)));
    }
}

// Takes the lines of a slot's hosts into a table of sizes.
fn note_sizes(sizes: &mut [Option<u8>], lines: Hosts)
    requires { length sizes.old ≡ PLACES }
    ensures { (k : ℕ) (does : Does) (before : Items Shown) → HasPlace k does → HasMost sizes.old before k does
        → HasMost sizes.new (before ++ lines.entry) k does }
{
    let mut left = lines;
    while let Some(line) = left.next_line() {
        note_size(sizes, &line);
    }
}

// A table with nothing in it.
fn no_sizes() -> [Option<u8>; PLACES]
    ensures { result ≡ replicate PLACES None }
{
    [None; PLACES]
}

// The most bytes of all that hosts do in a trace.
fn sizes_in(trace: &Whole) -> [Option<u8>; PLACES]
    ensures { (k : ℕ) (does : Does) → HasPlace k does
        → HasMost result (flat_map (λ slot. slot.hosts) trace.now.slots) k does }
{
    let mut sizes = no_sizes();
    let mut slots = trace.slots();
    while let Some(lines) = slots.next_hosts() {
        note_sizes(&mut sizes, lines);
    }
    sizes
}

// Adds what a host does, if the table of sizes has it.
fn add_port(
    ports: &mut List<Port>,
    sizes: &[Option<u8>],
    host: u8,
    what: What,
) -> Result<(), Memory>
    requires size { length sizes.now ≡ PLACES }
    requires place { HasPlace host what }
    ensures { OnOk result (ports.new ≡ ports.old ++ port_if host what (size_at sizes.now host what)) }
{
    match sizes[table_place(host, what)] {
        None => Ok(()),
        Some(size) => ports.push(Port { host, what, size }),
    }
}

// Adds what a host reads of so many nodes.
fn add_nodes_read(
    ports: &mut List<Port>,
    sizes: &[Option<u8>],
    host: u8,
    nodes: u8,
) -> Result<(), Memory>
    requires size { length sizes.now ≡ PLACES }
    requires host { host < 24 }
    requires nodes { nodes ≤ 24 }
    ensures { OnOk result (ports.new ≡ ports.old
        ++ ports_in sizes.now (map (λ p. what.Read (source.Node p)) (below nodes)) host) }
{
    for node in 0..nodes {
        add_port(ports, sizes, host, What::Read(Source::Node(node)))?;
    }
    Ok(())
}

// Adds what a host does in a cluster of so many nodes.
fn add_host(ports: &mut List<Port>, sizes: &[Option<u8>], host: u8, nodes: u8) -> Result<(), Memory>
    requires size { length sizes.now ≡ PLACES }
    requires host { host < 24 }
    requires nodes { nodes ≤ 24 }
    ensures { OnOk result (ports.new ≡ ports.old ++ ports_in sizes.now (all_whats nodes) host) }
{
    add_port(ports, sizes, host, What::Write)?;
    add_port(ports, sizes, host, What::Read(Source::Status))?;
    add_nodes_read(ports, sizes, host, nodes)
}

// What hosts of so many nodes do, by a table of sizes.
fn ports_with(alloc: Global, sizes: &[Option<u8>], nodes: u8) -> Result<List<Port>, Memory>
    requires size { length sizes.now ≡ PLACES }
    requires nodes { nodes ≤ 24 }
    ensures { IfOk result (λ ports. ports ≡ flat_map (ports_in sizes.now (all_whats nodes)) (below nodes)) }
{
    let mut ports = List::new(alloc);
    for host in 0..nodes {
        add_host(&mut ports, sizes, host, nodes)?;
    }
    Ok(ports)
}

/// What hosts do anywhere in a trace, each with the most bytes, the lowest host first.
pub(crate) fn find_ports(alloc: Global, trace: &Whole) -> Result<List<Port>, Memory>
    ensures value { IfOk result (λ ports. ports ≡ trace_ports trace.now) }
    ensures letters { IfOk result (λ ports. All HasLetters ports) }
{
    let sizes = sizes_in(trace);
    let head = trace.head();
    let ports = ports_with(alloc, &sizes, head.nodes)?;
    Ok(ports)
}
