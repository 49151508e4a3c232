//! Descriptor lists as files, and the slot table.
//!
//! [`read_medl`] reads a list from the bytes of a TOML document. What a document means is the
//! definition `medl_of` of `specs/ListFile.antt`, over whole tables as the `toml` crate defines
//! them: the list, or the first of all things wrong with it in the order of the format.
//! [`put_schedule`] writes the slot table of one cluster cycle. `list_from` of commands reads the
//! bytes of a file so:
//!
//! ```text
//! match read_medl(alloc, bytes) {
//!     Ok(list) => Ok(list),
//!     Err(MedlError::Memory) => Err(Refusal::Memory),
//!     Err(fault) => Err(Refusal::Told(FileFault::List(fault))),
//! }
//! ```
//!
//! The layer above gets a list that is valid, or why there is none. The reader stops at the first
//! fault that it meets; each of its parts answers for one part of `medl_of`, by a contract that
//! says that the part has no fault, or what its first one is. The definition shares nothing with
//! the reader.
//!
//! Reading costs what the document does, and takes memory for its tables and for the list. Threads
//! share nothing here. The crate never reads a file and never keeps a refused list.
#![tactic(auto)]

mod error;
mod read;
mod schedule;
mod slot;
mod table;

pub use error::{Field, FieldName, MedlError};
pub use read::read_medl;
pub use schedule::put_schedule;
pub use slot::are_answers;
pub use table::{are_tables, at_slot, at_top, is_known_key, member};
