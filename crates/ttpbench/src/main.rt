//! `ttpbench`: runs one command over real files and standard output, and ends with its status.
//!
//! Standard output is buffered, and what the buffer holds in the end is handed on before the program
//! ends; where that fails, the status is 6. Where the system gives no words, it ends with status 8 and
//! writes nothing; where that is for want of memory, with status 7. Where the status is 2 to 8, a line on
//! standard error says why. The few lines here, the real files and streams behind them and what is told of
//! them are trusted; the rest is `bench`, which is proved.
#![tactic(auto)]

use bench_call::{bench, let_go};
use std::env::Env;
use std::io::{BufWriter, Eprint, Print, Write};
use std::process::ExitCode;
use std::rt::Files;
use std::sync::Wait;
use std::thread::Threads;
use std::{env, io};
use told::{NotedFiles, NotedOutput, tell, tell_no_words};
use ttp_base::{FileLibrary, OpenGate, StreamSink};

// How many bytes of output are handed to the system at once.
const BUFFER: usize = 65_536;

// Where the forms of words stand.
const FORMS: &str = "docs/FORMATS.md has the forms";

fn main(rt: HostRuntime) -> ExitCode {
    ExitCode::from(match env::args(&rt) {
        Ok(words) => match words.collect::<Vec<String>>(rt.alloc()) {
            Ok(words) => status_of(&rt, &words),
            Err(_) => tell_no_words(&rt, "ttpbench", io::ErrorKind::OutOfMemory),
        },
        Err(error) => tell_no_words(&rt, "ttpbench", error.kind()),
    })
}

// The status of the command that the words behind the first one spell, which is the program's name; the cluster
// that it keeps is let go.
fn status_of<R: Files + Print + Eprint + Threads + Wait + Sync + AllocGlobal>(
    rt: &R,
    words: &[String],
) -> u8 {
    // With no memory for a buffer, each line goes to the system by itself.
    let out = NotedOutput::new(io::writer(rt));
    let buffered = match BufWriter::with_capacity(rt.alloc(), BUFFER, out) {
        Ok(buffered) => Ok(buffered),
        Err(_) => BufWriter::with_capacity(rt.alloc(), 0, NotedOutput::new(io::writer(rt))),
    };
    let Ok(buffered) = buffered else {
        return tell_no_words(rt, "ttpbench", io::ErrorKind::OutOfMemory);
    };
    let asked = match words {
        [_, asked @ ..] => asked,
        [] => words,
    };
    let mut library = NotedFiles::new(rt, FileLibrary::new(rt));
    let mut sink = StreamSink::new(buffered);
    let gate = OpenGate::new();
    let mut kept = None;
    let status = bench(
        rt,
        rt.alloc(),
        asked,
        &mut library,
        &mut sink,
        &gate,
        &mut kept,
    );
    let_go(kept);
    let mut out = sink.into_writer();
    let status = if out.flush().is_ok() { status } else { 6 };
    tell(
        rt,
        "ttpbench",
        FORMS,
        words,
        status,
        &library,
        out.get_ref(),
    );
    status
}
