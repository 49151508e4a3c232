//! Lines of labelled words, over one description of each kind of line: their text, their reading, and the laws of both.
//!
//! A line is a `LineForm` of `specs/Forms.antt`: a list of fields `label ▸ kind`, where the `Kind` of a word
//! (`specs/Kinds.antt`) is a number below a limit, a signed number, hexadecimal digits, one of some texts, a payload in
//! hexadecimal digits, one of these or a dash, a list with commas, some texts or another word behind a prefix, two words
//! joined by a byte, or the rest of the line. Its values are pairs, `Values form`. `spelled_line form values` is its text with
//! the line feed, `spelled` the text without it, `line_values` what is read of bytes. All of them compute, and so does
//! `well`, which says that a description is sound. What holds of all sound descriptions say [`laws`].
//!
//! A line is written into a [`Text`], label by label, and read by a [`Reader`], label by label, so that code and
//! description have the same rows:
//!
//! ```text
//! ghost write_form = codes "slot " ▸ number 100000 ∷ codes " host " ▸ number 256 ∷ codes " write " ▸ number 1000000 ∷ [];
//!
//! put_number(line, "slot ", v.slot as u64);
//! put_number(line, " host ", v.host as u64);
//! put_number(line, " write ", v.number);
//! line.put_text("\n");
//!
//! let mut line = Reader::of(bytes);
//! let slot = line.number("slot ", 100_000) as u32;
//! let host = line.byte(" host ");
//! let number = line.number(" write ", 1_000_000);
//! line.close(HostWrite { slot, host, number })
//! ```
//!
//! The contract of such a writer is `line.new ≡ line.old ++ spelled_line write_form (write_values v.now)`. That of such a reader
//! says how its result comes from `line_values write_form bytes.now`. `proofs/Putting.antt` and `proofs/Closing.antt` have the
//! rules by which each is found, field by field.
//!
//! The crate knows no line of its own, and nothing of TTP/C. It takes no memory, and writes to no sink.
#![tactic(auto)]

pub mod laws;
mod named;
mod put;
mod reader;
mod words;

pub use named::Named;
pub use put::{
    put_byte_or_dash, put_hexed, put_named, put_number, put_number_or_dash, put_numbers,
    put_payload, put_rest, put_signed, put_word,
};
pub use reader::Reader;
pub use ttp_base::Text;
pub use words::{hex_or_in, numeral_in, signed_in};
