//! Output that keeps why a write failed.
use std::io::{self, Write};

// How many of the first bytes are kept, which are those of the longest line.
const KEPT: usize = 640;

/// A writer that hands each write on to another. It keeps the first bytes that the other took, and why a write failed.
///
/// It stands behind the buffer of a program, so that it costs nothing for each line.
#[derive(Drop)]
pub struct NotedOutput<W> {
    writer: W,
    first: [u8; KEPT],
    count: usize,
    // Why a write failed, where the system told it.
    pub(crate) why: Option<io::Error>,
}

impl<W: Write> NotedOutput<W> {
    /// Over a writer, of which nothing is known so far.
    pub fn new(writer: W) -> NotedOutput<W> {
        NotedOutput {
            writer,
            first: [0; KEPT],
            count: 0,
            why: None,
        }
    }

    /// The first bytes that the other took, at most 640.
    pub(crate) fn first(&self) -> &[u8] {
        match self.first.get(..self.count) {
            Some(first) => first,
            None => &[],
        }
    }

    // Keeps a piece behind what is kept, as far as there is room.
    fn keep_first(&mut self, piece: &[u8]) {
        if let Some(room) = self.first.get_mut(self.count..) {
            for (kept, byte) in room.iter_mut().zip(piece) {
                *kept = *byte;
            }
        }
        self.count = KEPT.min(self.count.saturating_add(piece.len()));
    }
}

// The error, once more.
fn copy_of(error: &io::Error) -> io::Error {
    match error.raw_os_error() {
        Some(code) => io::Error::from_raw_os_error(code),
        None => io::Error::from(error.kind()),
    }
}

impl<W: Write> Write for NotedOutput<W> {
    fn write(&mut self, piece: &[u8]) -> io::Result<usize> {
        match self.writer.write(piece) {
            Ok(count) => {
                if self.count < KEPT {
                    self.keep_first(piece.get(..count).unwrap_or(piece));
                }
                Ok(count)
            }
            Err(error) => {
                self.why = Some(copy_of(&error));
                Err(error)
            }
        }
    }

    fn flush(&mut self) -> io::Result<()> {
        match self.writer.flush() {
            Ok(()) => Ok(()),
            Err(error) => {
                self.why = Some(copy_of(&error));
                Err(error)
            }
        }
    }
}
