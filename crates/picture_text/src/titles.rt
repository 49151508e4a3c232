//! The lines of a trace, formed as titles.
#![tactic(auto, using(ttp_base::proofs::Room::room, ttp_base::proofs::Room::decimal_of_slot))]

ghost use Rattle.std.specs.Prelude.{◌≡◌, ◌+◌, ◌≤◌, ◌++◌, length};
ghost use Rattle.shown_slot.specs.Trace.{node_text, host_text};

use crate::element::put_field;
use line_text::{put_host, put_source};
use ttp_base::Line;
use whole_trace::{Head, HostLine, NodeShown, put_behind, put_head, put_told};

/// Adds the line of a node.
pub(crate) fn put_node_text(line: &mut Line, head: &Head, slot: u32, number: u8, node: &NodeShown)
    requires { length line.old ≤ 400 }
    ensures text { line.new ≡ line.old ++ node_text head.now slot number node.now }
    ensures short { length line.new ≤ length line.old + 240 }
{
    let wide = head.version == 2;
    put_head(line, slot);
    line.put_number(u64::from(number));
    put_told(line, node.word, node.peer, node.message, wide, node.members);
    line.put_number(u64::from(node.accepted));
    put_behind(line, node.rejected, node.ack);
    line.put_signed(node.offset);
}

/// Adds the line of a host.
pub(crate) fn put_host_text(line: &mut Line, slot: u32, host_line: &HostLine)
    requires { length line.old ≤ 86 }
    ensures text { line.new ≡ line.old ++ host_text slot host_line.now }
    ensures short { length line.new ≤ 624 }
{
    match host_line {
        HostLine::Write { host, number } => {
            put_host(line, slot, *host);
            put_field(line, " write ", *number);
        }
        HostLine::Read {
            host,
            source,
            number,
            payload,
        } => {
            put_host(line, slot, *host);
            line.put_text(" read ");
            put_source(line, *source);
            put_field(line, " ", *number);
            line.put_text(" ");
            line.put_hex_bytes(payload.bytes());
        }
    }
}
