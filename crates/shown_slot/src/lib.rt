//! What a trace shows of a slot, as views of a trace speak of it.
//!
//! `specs/Nodes.antt` has what is said of nodes: which are active and which left, whether those whose members count agree, who
//! sent, whether the frame was refused, how far clocks are apart, and which is far from most. `specs/Ports.antt` has what hosts
//! did: the newest message of each in a slot, and the most bytes of such a message in a whole trace. Each function of the crate
//! is one of these words, and a contract sees its answer as that word of a slot of whole_trace. `put_slot` of wave_text asks
//! [`active_bits`] and [`left_bits`] of each slot, and the cells of picture_text ask [`is_leaving_word`].
//!
//! A word costs at most its nodes and its hosts' lines. The crate reads no text and writes none, takes no memory, and shares
//! nothing between threads.
#![tactic(auto)]

mod host;
mod node;
mod text;

pub use host::{Message, Port, What, message_in_line};
pub use node::{
    ClockRange, Sender, active_bits, agreement, clock_range, is_active_word, is_holder,
    is_leaving_word, is_refused, left_bits, node_apart, node_at, sender_among, sends, starts_round,
};
pub use text::{back_text, header_text, keep_text};
pub use whole_trace::word_text;
