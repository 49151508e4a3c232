//! A call of `lab` over a library and a sink in memory.
use lab_top::lab;
use std::alloc::Global;
use std::thread::Threads;
use ttp_base::{List, Memory, MemoryLibrary, MemorySink};

/// A call of `lab`: its words, the files that the library holds, each with its text, and which call of the sink
/// fails; 0 is none.
#[derive(Clone, Copy)]
pub(crate) struct Call<'a> {
    pub(crate) words: &'a [&'a str],
    pub(crate) files: &'a [(&'a str, &'a str)],
    pub(crate) bad_write: u32,
}

/// The sink of a call.
pub(crate) fn sink_of(alloc: Global, call: &Call<'_>) -> Result<MemorySink, Memory> {
    let mut fails = List::new(alloc);
    fails.push(call.bad_write)?;
    MemorySink::new(alloc, 65_536, fails)
}

fn library_of(alloc: Global, call: &Call<'_>) -> Result<MemoryLibrary, Memory> {
    let mut library = MemoryLibrary::new(alloc, List::new(alloc));
    for (name, text) in call.files {
        library.add(name, text.as_bytes())?;
    }
    Ok(library)
}

fn words_of(alloc: Global, call: &Call<'_>) -> Result<Vec<String>, Memory> {
    let mut words = Vec::new(alloc);
    for word in call.words {
        words.push(String::from_str(alloc, word)?)?;
    }
    Ok(words)
}

/// What a call answers that writes into this sink, if there is memory.
pub(crate) fn answer<R: AllocGlobal + Threads + Sync>(
    rt: &R,
    call: &Call<'_>,
    out: &mut MemorySink,
) -> Option<u8> {
    let alloc = rt.alloc();
    let (Ok(words), Ok(mut library)) = (words_of(alloc, call), library_of(alloc, call)) else {
        return None;
    };
    Some(lab(rt, alloc, &words, &mut library, out))
}

/// A text of bytes, which is empty where they are none.
pub(crate) fn text_of(bytes: &[u8]) -> &str {
    str::from_utf8(bytes).unwrap_or("")
}
