//! The lines of a trace, formed and looked for: its first line, the line of a node after a slot, the lines
//! of what a host wrote and read in it, and at its end the line of the hypothesis test and the one on armed
//! nodes. Beside them the words and digits that lines are made of.
//!
//! What a line says is `trace_head`, `node_line`, `keep_line` and `back_line` of `ttp_world`, and
//! `written_line` and `message_line` of this crate, which are those of the definition of a trace; which
//! state and which message a line shows, and which answer the last lines do, is the caller's. A message that
//! a host read comes as its ring keeps it, in words ([`RingMessage`]).
//!
//! Each line is formed in a buffer of fixed size and written as one piece, so no call takes memory. The
//! lines of nodes and hosts, which are many, are formed in a buffer of the caller's, one for all of them.
//! [`NodeLines`] keeps what all lines of a slot begin with, and what the newest line shows of a node that
//! judged the slot, with the values that this text tells; they are compared before it is taken again.
//! `put_nodes` of trace_text writes the nodes' lines of a slot so:
//!
//! ```text
//! lines.begin(slot);
//! for node in 0..nodes.len() {
//!     let line = &nodes[node];
//!     put_node_line(list, node as u8, &line.state, line.message, lines, out)?;
//! }
//! ```
//!
//! [`behind_node_line`] and its like look for a line at the front of a text instead, and say what follows it
//! there. [`after_label`] does so for any bytes, [`cut_line`] cuts a text behind its first line, and
//! [`numeral_in`] reads a number. [`keep_line`] and [`back_line`] give the lines of the tests as values.
//!
//! Threads share nothing here. The crate knows no report and no ring, so that who forms lines without them
//! waits for ttp_world alone; it runs nothing, knows no history, and reads no line as a value.
#![tactic(auto)]

mod answer_lines;
mod behind;
mod cut;
mod head_line;
mod host_line;
mod labels;
pub mod laws;
mod node_line;
mod numerals;
mod put;
mod shared;
mod words;

pub use answer_lines::{back_line, keep_line};
pub use behind::{
    behind_back, behind_header, behind_keep, behind_node_line, behind_payload_line,
    behind_status_line, behind_write_line,
};
pub use cut::cut_line;
pub use host_line::RingMessage;
pub use labels::after_label;
pub use line_form::numeral_in;
pub use node_line::NodeLines;
pub use numerals::message_in;
pub use put::{put_back, put_header, put_keep, put_node_line, put_read_line, put_write_line};
pub use shared::{put_ack_word, put_host, put_number_or_dash, put_source};
pub use words::PEER;
