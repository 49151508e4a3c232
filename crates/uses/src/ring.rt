//! A caller of the ring: one thread writes measurements while another asks for the newest one.
//!
//! It shows what a caller of nbw_ring says in words of its own: what the reader got is a measurement that was
//! written, whole, or the call says that there was none. `docs/CALLERS.md` shows the code, and what it
//! needed of proof. It stands on public clauses alone, and nothing stands on it.

mod newest;

pub use newest::{Measurement, Seen, newest_beside};
