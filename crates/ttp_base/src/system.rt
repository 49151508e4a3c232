//! The real outside: files, and a stream.
ghost use Rattle.std.specs.Prelude.{◌≡◌, [], vec_len, take, IfOk, IfErr, IfSome, IsErr, OnErr, ◌≤◌, ◌↔◌};
ghost use Rattle.std.specs.IoError.{error_kind};

use crate::asked::{Asked, Request};
use crate::fault::Failed;
use crate::library::{Library, LoadError};
use crate::pieces::{Piece, Pieces};
use crate::sink::Sink;
use crate::source::{Trouble, Untold};
use crate::streams::{read_front, write_whole};
use crate::target::Onto;
use std::alloc::Global;
use std::fs;
use std::io::{self, ErrorKind, Read, Write};
use std::rt::Files;

/// Files by their paths. No contract can say what a file holds, so it tells no bytes. One counter
/// stands for every name.
///
/// Each call reads at most `limit + 1` bytes of the file, and raises the count where it answers
/// [`LoadError::Failed`]: where the file can't be opened, or a read fails. A read that a signal
/// interrupts is tried again, at most 1,000,000 times.
#[derive(Drop)]
pub struct FileLibrary<'a, R> {
    rt: &'a R,
    faults: u64,
    asked: Asked,
}

impl<'a, R: Files> FileLibrary<'a, R> {
    ghost use Rattle.ttp_base.specs.System.{system_files};

    /// A library of all files, whose count of faults is 0.
    pub fn new(rt: &'a R) -> FileLibrary<'a, R>
        ensures count { (name : _) → (system_files result).faults name ≡ 0 }
        ensures asked { (system_files result).loads ≡ [] }
    {
        FileLibrary {
            rt,
            faults: 0,
            asked: Asked::nothing(),
        }
    }
}

impl<R: Files> Library for FileLibrary<'_, R> {
    ghost use Rattle.ttp_base.specs.System.{system_files};

    ghost files = { system_files };

    fn load(&mut self, alloc: Global, name: &str, limit: usize) -> Result<Vec<u8>, LoadError> {
        self.asked = Asked::and(&self.asked, &Request { name, limit });
        let loaded = load_front(self.rt, alloc, name, limit + 1);
        if let Err(LoadError::Failed) = loaded {
            self.faults = self.faults.saturating_add(1);
        }
        loaded
    }
}

// The first bytes of a file, at most so many.
fn load_front<R: Files>(
    rt: &R,
    alloc: Global,
    name: &str,
    count: usize,
) -> Result<Vec<u8>, LoadError>
    ensures { IfOk result (λ bytes. vec_len bytes ≤ count) }
{
    front_of(alloc, fs::open(rt, name), count)
}

/// The first bytes of what was opened, `count` of them or all where it gives fewer, or why it could not be
/// opened: [`LoadError::Memory`] where memory was refused, and else [`LoadError::Failed`].
///
/// An error in the middle is the answer. Tested and not proved: no byte past them is taken, at most 4,096 are
/// asked for at once, and a read that a signal interrupts is tried again, at most 1,000,000 times.
pub fn front_of<R: Read + Drop>(
    alloc: Global,
    opened: io::Result<R>,
    count: usize,
) -> Result<Vec<u8>, LoadError>
    ensures within { IfOk result (λ bytes. vec_len bytes ≤ count) }
    ensures front { IfOk opened (λ r. IfOk result (λ bytes. IfSome (R.remaining r)
        (λ all. bytes.items ≡ take count all))) }
    ensures failed { OnErr opened (IsErr result) }
    ensures cause { IfErr opened (λ e. IfErr result (λ cause. (cause ≡ LoadError.Memory)
        ↔ (error_kind e ≡ ErrorKind.OutOfMemory))) }
{
    match opened {
        Ok(reader) => read_front(alloc, &mut Untold { reader }, count),
        Err(error) => Err(Trouble::of(&error).answer()),
    }
}

/// A stream, as standard output. It tells what its writer tells of its bytes: a writer in memory tells
/// them, and standard output does not.
///
/// Each piece is given to the writer whole, and no piece is flushed: where the writer is std's
/// `BufWriter`, the one that [`StreamSink::into_writer`] gives back may still hold the last of them. A write
/// that takes nothing is a fault, and so is one that fails; each raises the count. A write that a signal
/// interrupts is tried again, at most 1,000,000 times.
#[derive(Drop)]
pub struct StreamSink<W> {
    onto: Onto<W>,
    pieces: Pieces,
    faults: u64,
}

impl<W: Write> StreamSink<W> {
    ghost use Rattle.ttp_base.specs.System.{stream_output};

    /// A sink over a writer, with what that has written and no faults.
    pub fn new(writer: W) -> StreamSink<W>
        ensures { stream_output W.contents result
            ≡ record { written = W.contents writer; pieces = []; faults = 0; takes = 0 } }
    {
        StreamSink {
            onto: Onto { writer },
            pieces: Pieces::nothing(),
            faults: 0,
        }
    }

    /// Gives the writer back, with what it still holds.
    pub fn into_writer(self) -> W
        ensures { W.contents result ≡ (stream_output W.contents self).written }
    {
        self.onto.writer
    }
}

impl<W: Write> Sink for StreamSink<W> {
    ghost use Rattle.ttp_base.specs.System.{stream_output};

    ghost output = { stream_output W.contents };

    fn write(&mut self, piece: &[u8]) -> Result<(), Failed> {
        match write_whole(&mut self.onto, piece) {
            Ok(()) => {
                self.pieces = Pieces::and(&self.pieces, &Piece { bytes: piece });
                Ok(())
            }
            Err(_) => {
                self.faults = self.faults.saturating_add(1);
                Err(Failed)
            }
        }
    }
}
