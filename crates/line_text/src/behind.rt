//! The lines, looked for at the front of a text: what follows them there.
ghost use Rattle.std.specs.Prelude.{◌≡◌, ◌≤◌, length, option_map};
ghost use Rattle.ttp_world.specs.declared.script.Source.TheVariants as source;
ghost use Rattle.ttp_world.specs.Medl.{IsValid};
ghost use Rattle.ttp_world.specs.Trace.{trace_head, keep_line, back_line};
ghost use Rattle.line_text.specs.HostLines.{written_line, message_line};
ghost use Rattle.line_text.specs.LineParts.{HasDigits, listed_line};
ghost use Rattle.line_text.specs.Labels.{after_label};

use crate::answer_lines::{back_line, keep_line};
use crate::head_line::head_line;
use crate::host_line::{RingMessage, make_payload_line, make_read_line, make_write_line};
use crate::labels::after_label;
use crate::node_line::NodeLines;
use ttp_base::Line;
use ttp_world::{Back, Keep, Medl, NodeState, Script, Source, StatusWords};

/// What of a text follows the first line of a trace, if the text begins with it. Takes no memory.
pub fn behind_header<'a>(list: &Medl, script: &Script, text: &'a [u8]) -> Option<&'a [u8]>
    requires { IsValid list.now }
    ensures { option_map (λ p. p.now) result ≡ after_label (trace_head list.now script.now) text.now }
{
    after_label(head_line(list, script).bytes(), text)
}

/// What of a text follows the line of a node after a slot, that of `lines`, if the text begins with it.
/// The message is the one that the node's frame carried, or the number of the one that the node
/// delivered in its ring.
///
/// The line is formed in `lines`: a caller makes one for all lines of a run, and begins each slot in
/// it. Takes no memory.
pub fn behind_node_line<'a>(
    list: &Medl,
    node: u8,
    state: &NodeState,
    message: Option<u64>,
    lines: &mut NodeLines,
    text: &'a [u8],
) -> Option<&'a [u8]>
    requires { HasDigits list.now state.now }
    ensures slot { lines.new ≡ lines.old }
    ensures rest { option_map (λ p. p.now) result
        ≡ after_label (listed_line list.now lines.old node state.now message) text.now }
{
    lines.behind(list, node, state, message, text)
}

/// What of a text follows the line of a message that a host wrote in a slot, if the text begins with it.
/// The line is formed in `line`, which is emptied first. Takes no memory.
pub fn behind_write_line<'a>(
    slot: u32,
    host: u8,
    number: u64,
    line: &mut Line,
    text: &'a [u8],
) -> Option<&'a [u8]>
    ensures { option_map (λ p. p.now) result ≡ after_label (written_line slot host number) text.now }
{
    make_write_line(slot, host, number, line);
    after_label(line.bytes(), text)
}

/// What of a text follows the line of a status message that a host read in a slot, if the text begins with
/// it. The line is formed in `line`, which is emptied first. Takes no memory.
pub fn behind_status_line<'a>(
    slot: u32,
    host: u8,
    number: u64,
    status: &StatusWords,
    line: &mut Line,
    text: &'a [u8],
) -> Option<&'a [u8]>
    ensures { option_map (λ p. p.now) result
        ≡ after_label (message_line slot host source.Status number status.now.words) text.now }
{
    let message = RingMessage {
        source: Source::Status,
        number,
        words: &status.words,
        size: 0,
    };
    make_read_line(slot, host, &message, line);
    after_label(line.bytes(), text)
}

/// What of a text follows the line of a node's message that a host read in a slot, if the text begins with
/// it: `from` is the node that sent it. The line is formed in `line`, which is emptied first. Takes no
/// memory.
pub fn behind_payload_line<'a>(
    slot: u32,
    host: u8,
    from: u8,
    number: u64,
    payload: &[u8],
    line: &mut Line,
    text: &'a [u8],
) -> Option<&'a [u8]>
    requires { length payload.now ≤ 240 }
    ensures { option_map (λ p. p.now) result
        ≡ after_label (message_line slot host (source.Node from) number payload.now) text.now }
{
    make_payload_line(slot, host, from, number, payload, line);
    after_label(line.bytes(), text)
}

/// What of a text follows the line of the hypothesis test, if the text begins with it. Takes no memory.
pub fn behind_keep<'a>(keep: &Keep, text: &'a [u8]) -> Option<&'a [u8]>
    ensures { option_map (λ p. p.now) result ≡ after_label (keep_line keep.now) text.now }
{
    after_label(keep_line(keep).bytes(), text)
}

/// What of a text follows the line on armed nodes, if the text begins with it. Takes no memory.
pub fn behind_back<'a>(back: &Back, text: &'a [u8]) -> Option<&'a [u8]>
    ensures { option_map (λ p. p.now) result ≡ after_label (back_line back.now) text.now }
{
    after_label(back_line(back).bytes(), text)
}
