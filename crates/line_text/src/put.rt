//! The lines, written.
ghost use Rattle.std.specs.Prelude.{◌≡◌, [], ◌∷◌, OnOk, OnErr};
ghost use Rattle.ttp_base.specs.Outside.{WroteLines, CutShort};
ghost use Rattle.ttp_world.specs.Medl.{IsValid};
ghost use Rattle.ttp_world.specs.Trace.{trace_head, keep_line, back_line};
ghost use Rattle.line_text.specs.HostLines.{message_in, HasWords, written_line, message_line};
ghost use Rattle.line_text.specs.LineParts.{HasDigits, listed_line};

use crate::answer_lines::{back_line, keep_line};
use crate::head_line::head_line;
use crate::host_line::{RingMessage, make_read_line, make_write_line};
use crate::node_line::NodeLines;
use ttp_base::{Failed, Line, Sink};
use ttp_world::{Back, Keep, Medl, NodeState, Script};

/// Writes the first line of a trace, as one piece. `Failed` is the sink's: some first bytes of the
/// line were written, or none. Takes no memory.
pub fn put_header<K: Sink>(list: &Medl, script: &Script, out: &mut K) -> Result<(), Failed>
    requires { IsValid list.now }
    ensures ok { OnOk result (WroteLines (K.output out.old) (K.output out.new)
        (trace_head list.now script.now ∷ [])) }
    ensures failed { OnErr result (CutShort (K.output out.old) (K.output out.new)
        (trace_head list.now script.now ∷ [])) }
{
    out.write(head_line(list, script).bytes())
}

/// Writes the line of a node after a slot, that of `lines`, as one piece. The message is the one that
/// the node's frame carried, or the number of the one that the node delivered in its ring.
///
/// The line is formed in `lines`: a caller makes one for all lines of a run, and begins each slot in
/// it. `Failed` is the sink's: some first bytes of the line were written, or none. Takes no memory.
pub fn put_node_line<K: Sink>(
    list: &Medl,
    node: u8,
    state: &NodeState,
    message: Option<u64>,
    lines: &mut NodeLines,
    out: &mut K,
) -> Result<(), Failed>
    requires { HasDigits list.now state.now }
    ensures slot { lines.new ≡ lines.old }
    ensures ok { OnOk result (WroteLines (K.output out.old) (K.output out.new)
        (listed_line list.now lines.old node state.now message ∷ [])) }
    ensures failed { OnErr result (CutShort (K.output out.old) (K.output out.new)
        (listed_line list.now lines.old node state.now message ∷ [])) }
{
    lines.put(list, node, state, message, out)
}

/// Writes the line of a message that a host wrote in a slot, as one piece. The number is the message's
/// in the ring of what the host sends.
///
/// The line is formed in `line`, which is emptied first. `Failed` is the sink's: some first bytes of the
/// line were written, or none. Takes no memory.
pub fn put_write_line<K: Sink>(
    slot: u32,
    host: u8,
    number: u64,
    line: &mut Line,
    out: &mut K,
) -> Result<(), Failed>
    ensures ok { OnOk result (WroteLines (K.output out.old) (K.output out.new)
        (written_line slot host number ∷ [])) }
    ensures failed { OnErr result (CutShort (K.output out.old) (K.output out.new)
        (written_line slot host number ∷ [])) }
{
    make_write_line(slot, host, number, line);
    out.write(line.bytes())
}

/// Writes the line of a message that a host read in a slot, as one piece.
///
/// The message has the four words of a status, or as many as a payload of its size has, which is at
/// most 240 bytes. The line is formed in `line`, which is emptied first. `Failed` is the sink's: some
/// first bytes of the line were written, or none. Takes no memory.
pub fn put_read_line<K: Sink>(
    slot: u32,
    host: u8,
    message: &RingMessage,
    line: &mut Line,
    out: &mut K,
) -> Result<(), Failed>
    requires { HasWords message.now.source message.now.size message.now.words.now }
    ensures ok { OnOk result (WroteLines (K.output out.old) (K.output out.new)
        (message_line slot host message.now.source message.now.number
        (message_in message.now.source message.now.size message.now.words.now) ∷ [])) }
    ensures failed { OnErr result (CutShort (K.output out.old) (K.output out.new)
        (message_line slot host message.now.source message.now.number
        (message_in message.now.source message.now.size message.now.words.now) ∷ [])) }
{
    make_read_line(slot, host, message, line);
    out.write(line.bytes())
}

/// Writes the line of the hypothesis test, `keeps yes start S` or `keeps no HR T`, as one piece.
/// `Failed` is the sink's: some first bytes of the line were written, or none. Takes no memory.
pub fn put_keep<K: Sink>(keep: &Keep, out: &mut K) -> Result<(), Failed>
    ensures ok { OnOk result (WroteLines (K.output out.old) (K.output out.new) (keep_line keep.now ∷ [])) }
    ensures failed { OnErr result (CutShort (K.output out.old) (K.output out.new) (keep_line keep.now ∷ [])) }
{
    out.write(keep_line(keep).bytes())
}

/// Writes the line on armed nodes, `returns yes start S` or `returns no QR T`, as one piece. `Failed`
/// is the sink's: some first bytes of the line were written, or none. Takes no memory.
pub fn put_back<K: Sink>(back: &Back, out: &mut K) -> Result<(), Failed>
    ensures ok { OnOk result (WroteLines (K.output out.old) (K.output out.new) (back_line back.now ∷ [])) }
    ensures failed { OnErr result (CutShort (K.output out.old) (K.output out.new) (back_line back.now ∷ [])) }
{
    out.write(back_line(back).bytes())
}
