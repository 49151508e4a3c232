//! The lines of a slot, from a report made by hand.
ghost use Rattle.std.specs.Prelude.{◌≡◌, ◌+◌, ◌≤◌, length, All, OnOk, IfOk, []};
ghost use Rattle.line_text.specs.LineParts.{HasDigits};

use super::scripts::{FOUR_NODES, list_of};
use host_port::{NodeLine, SlotReport, WriteLine};
use line_text::NodeLines;
use std::alloc::Global;
use trace_text::put_slot;
use ttp_base::{List, Memory, MemorySink, NodeSet};
use ttp_world::{Ack, Entry, Medl, NodeState, Phase, Verdict};

// Adds the line of a node that is active, if its members can be written in four digits.
fn add_node(
    list: &Medl,
    entry: Entry,
    message: Option<u64>,
    members: NodeSet,
    nodes: &mut List<NodeLine>,
) -> Result<(), Memory>
    requires narrow { list.now.version ≡ 1 }
    requires digits { All (λ line. HasDigits list.now line.state) nodes.old }
    ensures digits { OnOk result (All (λ line. HasDigits list.now line.state) nodes.new) }
    ensures one { OnOk result (length nodes.new ≤ length nodes.old + 1) }
{
    if members.bits() < 65_536 {
        let state = NodeState {
            phase: Phase::Active,
            entry,
            members,
            accepted: 3,
            rejected: 0,
            ack: Ack::Closed,
            offset: 0,
        };
        nodes.push(NodeLine { state, message })?;
    }
    Ok(())
}

// A node that judged node 2's slot so.
fn judged(verdict: Verdict) -> Entry {
    Entry::Judged {
        sender: 2,
        verdict,
        deviation: 0,
    }
}

// The nodes of a slot in which node 2 sends its host's fourth message.
fn nodes_of(alloc: Global, list: &Medl) -> Result<List<NodeLine>, Memory>
    requires { list.now.version ≡ 1 }
    ensures most { IfOk result (λ nodes. length nodes ≤ 3) }
    ensures digits { IfOk result (All (λ line. HasDigits list.now line.state)) }
{
    let all = NodeSet::empty().with(0).with(1).with(2);
    let few = all.without(2);
    let sent = Entry::Sent { message: Some(4) };
    let mut nodes = List::new(alloc);
    add_node(list, judged(Verdict::Correct), Some(7), all, &mut nodes)?;
    add_node(list, judged(Verdict::Null), None, few, &mut nodes)?;
    add_node(list, sent, Some(4), all, &mut nodes)?;
    Ok(nodes)
}

// What hosts write in it.
fn writes_of(alloc: Global) -> Result<List<WriteLine>, Memory> {
    let mut writes = List::new(alloc);
    for (host, number) in [(2, 5), (1, 9), (2, 6)] {
        writes.push(WriteLine { host, number })?;
    }
    Ok(writes)
}

fn report(alloc: Global, list: &Medl) -> Result<SlotReport, Memory>
    requires { list.now.version ≡ 1 }
    ensures nodes { IfOk result (λ report. length report.nodes ≤ 3) }
    ensures digits { IfOk result (λ report. All (λ line. HasDigits list.now line.state) report.nodes) }
    ensures reads { IfOk result (λ report. report.reads ≡ []) }
{
    Ok(SlotReport {
        slot: 11,
        nodes: nodes_of(alloc, list)?,
        writes: writes_of(alloc)?,
        reads: List::new(alloc),
    })
}

// What a host reads is compared where the real program runs.
const LINES: &str = "slot 11 node 0 correct peer 2 msg 7 mem 0007 acc 3 rej 0 ack none clock 0\n\
    slot 11 node 1 null peer 2 msg - mem 0003 acc 3 rej 0 ack none clock 0\n\
    slot 11 node 2 send peer 2 msg 4 mem 0007 acc 3 rej 0 ack none clock 0\n\
    slot 11 host 2 write 5\n\
    slot 11 host 1 write 9\n\
    slot 11 host 2 write 6\n";

// Whether a sink with so much room takes all lines, or where it is full some first ones, and none after them.
fn are_lines(alloc: Global, list: &Medl, report: &SlotReport, room: usize) -> bool
    requires version { list.now.version ≡ 1 }
    requires nodes { length report.now.nodes ≤ 3 }
    requires digits { All (λ line. HasDigits list.now line.state) report.now.nodes }
    requires reads { report.now.reads ≡ [] }
{
    let Ok(mut out) = MemorySink::new(alloc, room, List::new(alloc)) else {
        return false;
    };
    let is_whole = put_slot(list, report, &mut NodeLines::new(), &mut out).is_ok();
    is_whole == (room >= LINES.len()) && are_first_lines(out.bytes(), is_whole)
}

fn are_first_lines(written: &[u8], is_whole: bool) -> bool {
    if is_whole {
        written == LINES.as_bytes()
    } else {
        let whole_lines = written.is_empty() || written.ends_with(b"\n".as_slice());
        whole_lines && LINES.as_bytes().starts_with(written)
    }
}

// Whether the report of a slot for this list has its lines in a sink that is full at any place, or has room for all.
fn is_written(alloc: Global, list: &Medl) -> bool
    requires { list.now.version ≡ 1 }
{
    let Ok(report) = report(alloc, list) else {
        return false;
    };
    for room in 0..LINES.len() + 2 {
        if !are_lines(alloc, list, &report, room) {
            return false;
        }
    }
    true
}

fn is_report_written(alloc: Global) -> bool {
    match list_of(alloc, FOUR_NODES) {
        Some(list) => list.version == 1 && is_written(alloc, &list),
        None => false,
    }
}

#[test]
fn lines_of_a_report(rt: HostRuntime) {
    assert!(rt; is_report_written(rt.alloc()));
}
