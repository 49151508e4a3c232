//! The fault-tolerant average of four deviations (SAE AS6003), by which an active node corrects its
//! clock.
//!
//! [`Measures`] takes the deviations that a node notes in a round, and shows the correction at its end. A
//! node of controller notes in `note`, and asks in `has_averaged` and `correction`:
//!
//! ```text
//! measures.clear();
//! measures.note(deviation);
//! self.is_corrected(list) && self.measures.ready()
//! self.measures.correction()
//! ```
//!
//! It stands for all that was noted since the last `clear`, and its correction is `fta` of `ttp_world` of
//! these: of the last four the smallest and the largest are dropped, and the middle two are halved
//! towards zero, so that one wrong value of the four can't take the correction out of the range of the
//! others. Of -3, 4, 1 and 20 it is 2. With fewer than four notes it is 0. All values are in microticks.
//!
//! [`laws::pull`] says what that does for a cluster: where two nodes note three of four frames alike,
//! their averages bring their clocks together, whatever each of them notes of the fourth.
//! `proofs/Sorted.antt` shows that sorting two lists whose items are near keeps them near, and that the
//! odd note may be put in last; `proofs/Pull.antt` bounds the middle two by the three others, and
//! `worked_pull` is a case that reaches the bound. precision rests on the lemmas on sorting, and
//! two_faced on `proofs/Pull.antt`.
//!
//! The module measures nothing and corrects no clock: which slots are noted, and when a round ends, is for
//! the layer above to say. It keeps four values and a count, which may go to another thread, takes no
//! memory, and a call costs a few steps.

pub mod laws;
mod measures;
mod middle;

pub use measures::Measures;

mod worked_pull;
