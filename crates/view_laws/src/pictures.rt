//! The lines of a trace are the titles of its picture.
//!
//! A browser shows the title of an element when the mouse is over it. [`laws::titles_of_pictures`] says which titles
//! a picture has, as they are read out of its text, [`laws::lines_of_texts`] that a text that is a trace has the
//! lines that its value gives, and [`laws::lines_are_titles`], of both, that of a slot that is shown the lines of
//! the text are titles. What a title is stands in `specs/Titles.antt` as a property of bytes, what lies between
//! `<title>` and `</title>`, apart from how a picture is put together.
//!
//! The laws are of every trace and every choice of slots, and ask for nothing else but that the text is read as that
//! trace (`whole_in` of whole_trace). The proofs go line by line: each is put together of tags and of texts without
//! `<`, and `Adds` of `proofs/TitlesIn.antt` says which titles a part adds. `views::titles` of lab_rows has the titles of
//! a picture worked out.
//!
//! The module has no code that does anything: its functions are laws.

pub mod laws;
