//! A slot of a waveform, written.
#![tactic(auto, using(ttp_base::proofs::Puts::puts))]

ghost use Rattle.std.specs.Prelude.{◌≡◌, ◌<◌, ◌≤◌, [], ◌==◌, if◌then◌else◌, All, option_map, flat_map};
ghost use Rattle.ttp_base.specs.Text.{lines_below};
ghost use Rattle.ttp_base.specs.Sheet.{Puts};
ghost use Rattle.shown_slot.specs.Trace.{node_at};
ghost use Rattle.wave_text.specs.Moment.{ShowsMessages, ShowsNewest, unless_first};
ghost use Rattle.wave_text.specs.Variables.{HasLetters, ports_at};
ghost use Rattle.wave_text.specs.Wave.{port_message, port_changes};
ghost use Rattle.wave_text.specs.Wave.{scope_changes, slot_changes};

use crate::change::{put_cluster_changes, put_node_changes};
use crate::page::Page;
use crate::place::table_place;
use crate::port::put_port_changes;
use shown_slot::{Message, Port, node_at};
use ttp_base::Sink;
use whole_trace::SlotShown;

/// A slot, and the newest message of each port in it.
#[derive(Drop)]
pub(crate) struct Moment<'a> {
    pub(crate) slot: SlotShown<'a>,
    pub(crate) messages: Vec<Option<Message>>,
}

// The newest message of a port in a slot.
fn message_at<'m>(moment: &'m Moment, port: &Port) -> &'m Option<Message>
    requires port { HasLetters port.now }
    requires moment { ShowsNewest moment.now port.now }
    ensures { result.now ≡ port_message port.now moment.now.slot }
{
    &moment.messages[table_place(port.host, port.what)]
}

// Writes the changes of a port, if it is of this host.
fn put_changes_at<K: Sink>(
    port: &Port,
    host: u8,
    is_first: bool,
    before: &Moment,
    now: &Moment,
    page: &mut Page,
    out: &mut K,
)
    requires port { HasLetters port.now }
    requires before { ShowsNewest before.now port.now }
    requires now { ShowsNewest now.now port.now }
    ensures { Puts page.old.sheet.failed (K.output out.old) page.new.sheet.failed (K.output out.new)
        (if port.now.host == host
        then port_changes port.now (option_map (port_message port.now) (unless_first is_first before.now.slot))
        (port_message port.now now.now.slot) else []) }
{
    if port.host == host {
        let earlier = message_at(before, port);
        put_port_changes(port, is_first, earlier, message_at(now, port), page, out);
    }
}

// Writes the changes of a host's variables.
fn put_host_changes<K: Sink>(
    ports: &[Port],
    host: u8,
    is_first: bool,
    before: &Moment,
    now: &Moment,
    page: &mut Page,
    out: &mut K,
)
    requires ports { All HasLetters ports.now }
    requires before { ShowsMessages ports.now before.now }
    requires now { ShowsMessages ports.now now.now }
    ensures { Puts page.old.sheet.failed (K.output out.old) page.new.sheet.failed (K.output out.new)
        (flat_map (λ port. port_changes port (option_map (port_message port) (unless_first is_first before.now.slot))
        (port_message port now.now.slot)) (ports_at ports.now host)) }
{
    for port in ports {
        put_changes_at(port, host, is_first, before, now, page, out);
    }
}

// Writes the changes of a node's variables and of its host's.
fn put_scope_changes<K: Sink>(
    width: u8,
    ports: &[Port],
    node: u8,
    is_first: bool,
    before: &Moment,
    now: &Moment,
    page: &mut Page,
    out: &mut K,
)
    requires width { width ≤ 24 }
    requires node { node < 24 }
    requires ports { All HasLetters ports.now }
    requires before { ShowsMessages ports.now before.now }
    requires now { ShowsMessages ports.now now.now }
    ensures { Puts page.old.sheet.failed (K.output out.old) page.new.sheet.failed (K.output out.new)
        (scope_changes width ports.now (unless_first is_first before.now.slot) now.now.slot node) }
{
    let earlier = node_at(&before.slot, node);
    let shown = node_at(&now.slot, node);
    put_node_changes(width, node, is_first, &earlier, &shown, page, out);
    put_host_changes(ports, node, is_first, before, now, page, out);
}

// Writes the changes of the nodes' variables and of their hosts'.
fn put_scopes<K: Sink>(
    width: u8,
    nodes: u8,
    ports: &[Port],
    is_first: bool,
    before: &Moment,
    now: &Moment,
    page: &mut Page,
    out: &mut K,
)
    requires width { width ≤ 24 }
    requires nodes { nodes ≤ 24 }
    requires ports { All HasLetters ports.now }
    requires before { ShowsMessages ports.now before.now }
    requires now { ShowsMessages ports.now now.now }
    ensures { Puts page.old.sheet.failed (K.output out.old) page.new.sheet.failed (K.output out.new)
        (lines_below (scope_changes width ports.now (unless_first is_first before.now.slot) now.now.slot) nodes) }
{
    for node in 0..nodes {
        put_scope_changes(width, ports, node, is_first, before, now, page, out);
    }
}

/// Writes the changes of a slot since the one before, or all of them in the first one.
pub(crate) fn put_slot_changes<'t, K: Sink>(
    width: u8,
    nodes: u8,
    ports: &[Port],
    is_first: bool,
    before: &Moment<'t>,
    now: &Moment<'t>,
    page: &mut Page,
    out: &mut K,
)
    requires width { width ≤ 24 }
    requires nodes { nodes ≤ 24 }
    requires ports { All HasLetters ports.now }
    requires before { ShowsMessages ports.now before.now }
    requires now { ShowsMessages ports.now now.now }
    ensures { Puts page.old.sheet.failed (K.output out.old) page.new.sheet.failed (K.output out.new)
        (slot_changes width nodes ports.now (unless_first is_first before.now.slot) now.now.slot) }
{
    put_cluster_changes(
        width,
        is_first,
        before.slot.nodes(),
        now.slot.nodes(),
        page,
        out,
    );
    put_scopes(width, nodes, ports, is_first, before, now, page, out);
}
