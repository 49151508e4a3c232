//! The picture of a trace: a cell for each node and slot, with the node's line as its title, as a text that
//! browsers show.
//!
//! [`put_picture`] writes the text, which is `picture_lines` of `specs/Picture.antt`, line by line.
//! `specs/Window.antt` says which slots are shown and where they stand, `specs/Cells.antt` what stands in a cell, and
//! `specs/Tables.antt` has the letters, colours and meanings.
//!
//! `show_picture` of lab_top calls it:
//!
//! ```text
//! match put_picture(&trace, asked, out) {
//!     Ok(()) => 0,
//!     Err(_) => 6,
//! }
//! ```
//!
//! The crate reads no text: the trace is a value of whole_trace, which is gone over a few times where no slots are asked for. A
//! slot that is shown costs its nodes and its hosts' lines, any other one its reading. It takes no memory, and shares nothing
//! between threads. The elements that lines of a picture are made of are there for other pictures too.
#![tactic(auto)]

mod band;
mod beside;
mod cells;
mod element;
mod flag;
mod grid;
mod head;
mod layout;
mod legend;
mod members;
mod members_cell;
mod picture;
mod tables;
mod titles;
mod walk;
mod window;

pub use band::make_node_row;
pub use element::{
    close_cell, close_mark, close_text, make_mark, make_number_of, make_text, make_text_of,
    open_cell, open_mark, open_text, open_text_of, open_title, put_field, put_place,
};
pub use grid::{beside as place_beside, columns};
pub use head::{back_meaning, put_keep_meaning};
pub use layout::Corner;
pub use picture::put_picture;
pub use window::Span;
