//! The line of a node, formed piece by piece.
#![tactic(auto, using(ttp_base::proofs::Room::room))]

ghost use Rattle.std.specs.Prelude.{◌≡◌, ◌+◌, ◌*◌, ◌≤◌, ◌++◌, length, codes, decimal};
ghost use Rattle.ttp_base.specs.NodeSet.{set_bits};
ghost use Rattle.ttp_base.specs.Text.{hex, gather};
ghost use Rattle.ttp_world.specs.Medl.{member_bytes};
ghost use Rattle.ttp_world.specs.Trace.{number_or_dash, ack_word, told_pieces, ack_pieces};
ghost use Rattle.line_reader.specs.TraceLines.{word_text};

use crate::word::word_text;
use line_reader::Word;
use line_text::{PEER, put_ack_word, put_number_or_dash};
use ttp_base::{Line, NodeSet};
use ttp_world::Ack;

/// Adds what the lines of a slot begin with.
pub fn put_head(line: &mut Line, slot: u32)
    requires { length line.old ≤ 600 }
    ensures text { line.new ≡ line.old ++ codes "slot " ++ decimal slot ++ codes " node " }
    ensures short { length line.new ≤ length line.old + 31 }
{
    line.put_text("slot ");
    line.put_number(u64::from(slot));
    line.put_text(" node ");
}

/// Adds members in six digits or in four, which show no more of them.
#[tactic(auto, using(ttp_base::proofs::Room::room, ttp_base::proofs::Hex::six_digits, ttp_base::proofs::Hex::four_digits))]
pub fn put_members(line: &mut Line, wide: bool, members: u32)
    requires { length line.old ≤ 620 }
    ensures text { line.new ≡ line.old ++ hex (2 * member_bytes wide) members }
    ensures short { length line.new ≤ length line.old + 6 }
{
    if wide {
        line.put_hex(u64::from(members % 16_777_216), 6);
    } else {
        line.put_hex(u64::from(members % 65_536), 4);
    }
}

/// Adds what stands between a node's number and the frames that it accepted.
pub fn put_told(
    line: &mut Line,
    word: Word,
    peer: Option<u8>,
    message: Option<u64>,
    wide: bool,
    members: NodeSet,
)
    requires { length line.old ≤ 558 }
    ensures text { line.new ≡ gather line.old (told_pieces (word_text word) (number_or_dash peer) (number_or_dash message)
        (hex (2 * member_bytes wide) (set_bits members))) }
    ensures short { length line.new ≤ length line.old + 82 }
{
    line.put_text(" ");
    line.put_text(word_text(word));
    line.put_text(PEER);
    put_number_or_dash(line, peer.map(u64::from));
    line.put_text(" msg ");
    put_number_or_dash(line, message);
    line.put_text(" mem ");
    put_members(line, wide, members.bits());
    line.put_text(" acc ");
}

/// Adds what stands between the frames that a node accepted and its clock.
pub fn put_behind(line: &mut Line, rejected: u8, ack: Ack)
    requires { length line.old ≤ 573 }
    ensures text { line.new ≡ gather line.old (ack_pieces (decimal rejected) (ack_word ack)) }
    ensures short { length line.new ≤ length line.old + 67 }
{
    line.put_text(" rej ");
    line.put_number(u64::from(rejected));
    line.put_text(" ack ");
    put_ack_word(line, ack);
    line.put_text(" clock ");
}
