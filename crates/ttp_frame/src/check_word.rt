//! Check words: the 24 bits at the end of a frame by which a receiver knows that it heard what was
//! sent.
//!
//! A [`Check`] takes bytes in pieces of any size and shows the check word of all of them, from a start
//! below 2^24 that both sides know. It stands for the start and the bytes that it was fed, and
//! contracts see it as their word. From start 0xfe_dcba the nine digits `123456789` have the word
//! 0x79_79bd. `word_of` of ttp_frame makes the word of a frame so:
//!
//! ```text
//! let mut check = Check::new(start);
//! check.feed(unsent);
//! check.feed(body);
//! bytes_of_word(check.word())
//! ```
//!
//! The word is that of `ttp_world`'s definition, which goes bit by bit over a register of 24 bits; the
//! code goes byte by byte over a table of 256 words, and the check computes that each of them is the
//! definition's. Frames of TTP/C (SAE AS6003) end with a check of 24 bits; the generator here is
//! 0x5D6DCB, and the check is the one published as CRC-24/FLEXRAY.
//!
//! [`laws`] has what later proofs rest on: the words of combined lists, of a list followed by its own
//! word, and of lists that differ in a short run of bits. They are cited from `proofs/WordLaws.antt`;
//! `proofs/Bursts.antt` has what follows for lists that differ in one place.
//!
//! A byte costs one step over the table. A check is one word of 32 bits and may go anywhere. The module
//! knows nothing of frames. It takes no memory, and no call can fail.

mod check;
pub mod laws;
mod table;

pub use check::Check;
