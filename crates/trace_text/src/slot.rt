//! The lines of a slot, from its report.
ghost use Rattle.std.specs.Prelude.{◌≡◌, ◌≤◌, [], ◌∷◌, length, map, All, OnOk, OnErr};
ghost use Rattle.ttp_base.specs.Outside.{WroteLines, CutShort};
ghost use Rattle.ttp_world.specs.Medl.{node_limit};
ghost use Rattle.line_text.specs.LineParts.{HasDigits};
ghost use Rattle.trace_text.specs.ReportText.{node_texts, write_text, source_payload_size, read_text, host_lines};
ghost use Rattle.trace_text.specs.ReportText.{report_lines, IsListed, HasMessage};

use host_port::{NodeLine, ReadLine, SlotReport, WriteLine};
use line_text::{NodeLines, RingMessage, put_node_line, put_read_line, put_write_line};
use ttp_base::{Failed, Line, Sink};
use ttp_world::{Medl, Source};

// Writes the lines of the nodes, the first one of node 0.
fn put_nodes<K: Sink>(
    list: &Medl,
    slot: u32,
    nodes: &[NodeLine],
    lines: &mut NodeLines,
    out: &mut K,
) -> Result<(), Failed>
    requires few { length nodes.now ≤ node_limit list.now }
    requires digits { All (λ line. HasDigits list.now line.state) nodes.now }
    ensures ok { OnOk result (WroteLines (K.output out.old) (K.output out.new)
        (node_texts list.now slot 0 nodes.now)) }
    ensures failed { OnErr result (CutShort (K.output out.old) (K.output out.new)
        (node_texts list.now slot 0 nodes.now)) }
{
    lines.begin(slot);
    for node in 0..nodes.len() {
        let line = &nodes[node];
        put_node_line(list, node as u8, &line.state, line.message, lines, out)?;
    }
    Ok(())
}

// Writes the lines of what hosts wrote.
fn put_writes<K: Sink>(
    slot: u32,
    writes: &[WriteLine],
    line: &mut Line,
    out: &mut K,
) -> Result<(), Failed>
    ensures ok { OnOk result (WroteLines (K.output out.old) (K.output out.new)
        (map (write_text slot) writes.now)) }
    ensures failed { OnErr result (CutShort (K.output out.old) (K.output out.new)
        (map (write_text slot) writes.now)) }
{
    for write in writes {
        put_write_line(slot, write.host, write.number, line, out)?;
    }
    Ok(())
}

// How many bytes a payload of a source has.
fn source_payload_size(list: &Medl, source: Source) -> u8
    requires { IsListed list.now source }
    ensures { result ≡ source_payload_size list.now source }
{
    match source {
        Source::Status => 0,
        Source::Node(node) => list.slots.get(usize::from(node)).payload,
    }
}

// Writes the line of what a host read.
fn put_read<K: Sink>(
    list: &Medl,
    slot: u32,
    read: &ReadLine,
    line: &mut Line,
    out: &mut K,
) -> Result<(), Failed>
    requires { HasMessage list.now read.now }
    ensures ok { OnOk result (WroteLines (K.output out.old) (K.output out.new)
        (read_text list.now slot read.now ∷ [])) }
    ensures failed { OnErr result (CutShort (K.output out.old) (K.output out.new)
        (read_text list.now slot read.now ∷ [])) }
{
    let message = RingMessage {
        source: read.source,
        number: read.pair.number(),
        words: read.pair.words(),
        size: source_payload_size(list, read.source),
    };
    put_read_line(slot, read.host, &message, line, out)
}

// Writes the lines of what hosts read.
fn put_reads<K: Sink>(
    list: &Medl,
    slot: u32,
    reads: &[ReadLine],
    line: &mut Line,
    out: &mut K,
) -> Result<(), Failed>
    requires { All (HasMessage list.now) reads.now }
    ensures ok { OnOk result (WroteLines (K.output out.old) (K.output out.new)
        (map (read_text list.now slot) reads.now)) }
    ensures failed { OnErr result (CutShort (K.output out.old) (K.output out.new)
        (map (read_text list.now slot) reads.now)) }
{
    for read in reads {
        put_read(list, slot, read, line, out)?;
    }
    Ok(())
}

// Writes the lines of what hosts wrote, and then of what they read.
fn put_hosts<K: Sink>(list: &Medl, report: &SlotReport, out: &mut K) -> Result<(), Failed>
    requires { All (HasMessage list.now) report.now.reads }
    ensures ok { OnOk result (WroteLines (K.output out.old) (K.output out.new) (host_lines list.now report.now)) }
    ensures failed { OnErr result (CutShort (K.output out.old) (K.output out.new)
        (host_lines list.now report.now)) }
{
    let mut line = Line::new();
    put_writes(report.slot, report.writes.as_slice(), &mut line, out)?;
    put_reads(list, report.slot, report.reads.as_slice(), &mut line, out)
}

/// Writes the lines of a slot, from its report: those of the nodes, and then those of what hosts wrote
/// and of what they read, in the order of the report. Each line is one piece.
///
/// A message that was read has the four words of a status, or as many as the payload has that the list
/// gives its sender. The lines of nodes are formed in `lines`: a caller makes one for all slots of a run,
/// and the slot is begun in it here. `Failed` is the sink's: some first lines were written, or none, and
/// perhaps some first bytes of the next. Takes no memory.
pub fn put_slot<K: Sink>(
    list: &Medl,
    report: &SlotReport,
    lines: &mut NodeLines,
    out: &mut K,
) -> Result<(), Failed>
    requires nodes { length report.now.nodes ≤ node_limit list.now }
    requires digits { All (λ line. HasDigits list.now line.state) report.now.nodes }
    requires reads { All (HasMessage list.now) report.now.reads }
    ensures ok { OnOk result (WroteLines (K.output out.old) (K.output out.new)
        (report_lines list.now report.now)) }
    ensures failed { OnErr result (CutShort (K.output out.old) (K.output out.new)
        (report_lines list.now report.now)) }
{
    put_nodes(list, report.slot, report.nodes.as_slice(), lines, out)?;
    // In most slots of most runs no host does anything.
    if report.writes.len() == 0 && report.reads.len() == 0 {
        return Ok(());
    }
    put_hosts(list, report, out)
}
