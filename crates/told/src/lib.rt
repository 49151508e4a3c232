//! What a program tells on standard error of a command that was not done, beside the bytes and the status that the command
//! promises.
//!
//! [`NotedFiles`] and [`NotedOutput`] stand between a command and the real outside. They hand on whatever is asked, and keep
//! how many files were asked for, why the last one was not loaded, the first bytes that were written, and why a write failed.
//! [`tell`] makes a line of it, by the status. `status_of` of ttpbench shows all three:
//!
//! ```text
//! let mut library = NotedFiles::new(rt, FileLibrary::new(rt));
//! let mut sink = StreamSink::new(BufWriter::with_capacity(rt.alloc(), BUFFER, NotedOutput::new(io::writer(rt)))?);
//! let status = bench(rt, rt.alloc(), words, &mut library, &mut sink, &gate, &mut kept);
//! ```
//!
//! What is told is one line: a control character in a name stands there as `\xHH`, as [`Shown`] promises. Nothing else is
//! promised of it, and nothing that a command writes or answers depends on it. The crate knows no command but by its status
//! and the word before the first `: ` of the line that refuses a file.
#![tactic(auto)]

mod ending;
mod files;
mod output;
mod shown;

pub use ending::{tell, tell_no_words};
pub use files::NotedFiles;
pub use output::NotedOutput;
pub use shown::Shown;
