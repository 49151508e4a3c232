//! The line on a command that was not done.
use crate::files::NotedFiles;
use crate::output::NotedOutput;
use crate::shown::Shown;
use std::io::{self, Eprint, ErrorKind, Write};

/// Says on standard error, in one line, why a command ended with status 2 to 7; with any other status it says nothing. The
/// words are those of the program, its name first; `forms` tells where the forms of words stand. What can't be told is left out.
/// Takes memory where the system gave a reason.
pub fn tell<R: Eprint + AllocGlobal, S, L, W: Write>(
    rt: &R,
    program: &str,
    forms: &str,
    words: &[String],
    status: u8,
    files: &NotedFiles<'_, S, L>,
    out: &NotedOutput<W>,
) {
    let name = name_in(words, files.loads);
    let _ = match status {
        2 => eprintln!(rt; "{program}: these words have no form ({forms})"),
        3 => tell_refusal(rt, program, name_in(words, 1), out.first()),
        4 => tell_refusal(rt, program, name, out.first()),
        5 => tell_why(rt, program, name, "cannot be read", &files.why),
        6 => tell_why(
            rt,
            program,
            "standard output",
            "cannot be written",
            &out.why,
        ),
        7 => eprintln!(rt; "{program}: memory was refused"),
        _ => Ok(()),
    };
}

/// Says on standard error why the system gave a program no words, and answers its status: 7 for want of memory, and else 8.
pub fn tell_no_words<R: Eprint>(rt: &R, program: &str, kind: ErrorKind) -> u8 {
    let (status, what) = match kind {
        ErrorKind::OutOfMemory => (7, "memory was refused"),
        ErrorKind::InvalidData => (8, "a word is no UTF-8"),
        _ => (8, "the system gives no words"),
    };
    let _ = eprintln!(rt; "{program}: {what}");
    status
}

// The name of the file that was asked for last: names stand behind the verb, in the order in which they are asked for.
fn name_in(words: &[String], loads: usize) -> &str {
    match words.get(loads.saturating_add(1)) {
        Some(name) => name.as_str(),
        None => "",
    }
}

// What is wrong with a file, by the line that was written of it: `KIND: WHAT`, or a line on an error, which begins with the
// file's name. Of a list and a script another command says more.
fn tell_refusal<R: Eprint>(rt: &R, program: &str, name: &str, text: &[u8]) -> io::Result<()> {
    let text = front_of(text);
    let shown = Shown(name);
    if let Some(behind) = text.strip_prefix(name) {
        let line = first_line(behind);
        if line.contains(": error: ") {
            return eprintln!(rt; "{program}: {shown}{line}");
        }
    }
    let line = first_line(text);
    match line.split_once(": ") {
        Some((kind, what))
            if what.starts_with("nodes ")
                || what.starts_with("slots ")
                || what.starts_with("no slot ") => {
            eprintln!(rt; "{program}: {shown}: the {kind} has {what}")
        }
        Some((kind, what)) if kind == "list" || kind == "script" => {
            eprintln!(rt;
                "{program}: {shown}: the {kind} is refused: {what} (ttplab check says where)"
            )
        }
        Some((kind, what)) => eprintln!(rt; "{program}: {shown}: the {kind} is refused: {what}"),
        None => eprintln!(rt; "{program}: {shown}: {line}"),
    }
}

// As much of some bytes as is a text: a name may be cut within a character.
fn front_of(bytes: &[u8]) -> &str {
    match str::from_utf8(bytes) {
        Ok(text) => text,
        Err(error) => match bytes.get(..error.valid_up_to()) {
            Some(front) => str::from_utf8(front).unwrap_or(""),
            None => "",
        },
    }
}

// The first line of a text, without its line feed.
fn first_line(text: &str) -> &str {
    match text.split_once('\n') {
        Some((line, _)) => line,
        None => text,
    }
}

// What the system says of an error, without its number.
fn without_number(text: &str) -> &str {
    match text.split_once(" (os error ") {
        Some((reason, _)) => reason,
        None => text,
    }
}

// Why something failed, where the system told it.
fn tell_why<R: Eprint + AllocGlobal>(
    rt: &R,
    program: &str,
    name: &str,
    otherwise: &str,
    why: &Option<io::Error>,
) -> io::Result<()> {
    let name = Shown(name);
    let Some(error) = why else {
        return eprintln!(rt; "{program}: {name}: {otherwise}");
    };
    match format!(in rt.alloc(); "{error}") {
        Ok(text) => eprintln!(rt; "{program}: {name}: {}", without_number(text.as_str())),
        Err(_) => eprintln!(rt; "{program}: {name}: {otherwise}"),
    }
}
