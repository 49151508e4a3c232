//! `ttplab`: runs one command over real files and standard output, and ends with its status.
//!
//! How far a campaign has come, or pairs, is told on standard error, and what was written of whole slots is handed on before.
//!
//! Standard output is buffered, and what the buffer holds in the end is handed on before the program
//! ends; where that fails, the status is 6. Where the system gives no words, it ends with status 8 and
//! writes nothing; where that is for want of memory, with status 7. Where the status is 2 to 8, a line on
//! standard error says why. The few lines here, the real files and streams behind them and what is told of
//! them are trusted; the rest is `lab`, which is proved.
#![tactic(auto)]

mod watched;

use crate::watched::WatchedOutput;
use lab_top::lab;
use std::env::Env;
use std::io::{BufWriter, Eprint, Print, Write};
use std::process::ExitCode;
use std::rt::Files;
use std::thread::Threads;
use std::time::Clock;
use std::{env, io};
use told::{NotedFiles, NotedOutput, tell, tell_no_words};
use ttp_base::{FileLibrary, StreamSink};

// How many bytes of output are handed to the system at once: more than the lines of a slot have, as a rule.
const BUFFER: usize = 65_536;

fn main(rt: HostRuntime) -> ExitCode {
    ExitCode::from(match env::args(&rt) {
        Ok(words) => match words.collect::<Vec<String>>(rt.alloc()) {
            Ok(words) => status_of(&rt, &words),
            Err(_) => tell_no_words(&rt, "ttplab", io::ErrorKind::OutOfMemory),
        },
        Err(error) => tell_no_words(&rt, "ttplab", error.kind()),
    })
}

// The status of the command that the words behind the first one spell, which is the program's name.
fn status_of<R: Files + Print + Eprint + Clock + Threads + Sync + AllocGlobal>(
    rt: &R,
    words: &[String],
) -> u8 {
    // With no memory for a buffer, each line goes to the system by itself.
    let out = NotedOutput::new(io::writer(rt));
    let buffered = match BufWriter::with_capacity(rt.alloc(), BUFFER, out) {
        Ok(buffered) => Ok(buffered),
        Err(_) => BufWriter::with_capacity(rt.alloc(), 0, NotedOutput::new(io::writer(rt))),
    };
    let Ok(buffered) = buffered else {
        return tell_no_words(rt, "ttplab", io::ErrorKind::OutOfMemory);
    };
    let asked = match words {
        [_, asked @ ..] => asked,
        [] => words,
    };
    let is_watched = match asked {
        [verb, ..] => verb.as_str() == "campaign" || verb.as_str() == "pairs",
        [] => false,
    };
    let mut library = NotedFiles::new(rt, FileLibrary::new(rt));
    let mut sink = StreamSink::new(WatchedOutput::new(rt, buffered, is_watched));
    let status = lab(rt, rt.alloc(), asked, &mut library, &mut sink);
    let mut out = sink.into_writer();
    let status = if out.flush().is_ok() { status } else { 6 };
    if status == 0 {
        out.tell_nothing_tried();
    }
    tell(
        rt,
        "ttplab",
        "ttplab --help",
        words,
        status,
        &library,
        out.out.get_ref(),
    );
    status
}
