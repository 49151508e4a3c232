//! Files, words and what is missing, in memory.
ghost use Rattle.std.specs.Prelude.{◌≡◌, ◌+◌, [], codes, map, Some, IfOk};
ghost use Rattle.ttp_base.specs.MemoryLibrary.{library_held, library_fail, library_files};
ghost use Rattle.ttp_base.specs.MemorySink.{sink_output};
ghost use Rattle.ttp_base.specs.Outside.{holds, NoneCounted};
ghost use Rattle.commands.specs.Words.{texts_of};

use std::alloc::{AllocError, Global};
use ttp_base::{List, Memory, MemoryLibrary, MemorySink};

/// Why a caller has no answer.
#[derive(Clone, Copy, PartialEq, Eq)]
pub enum Missing {
    /// Memory was refused to the caller.
    Memory,
    /// `bench` ended with this status.
    Status(u8),
}

impl From<Memory> for Missing {
    ghost use Rattle.std.specs.Prelude.{◌≡◌};
    ghost use Rattle.uses.specs.declared.bench.memory.Missing.TheVariants as missing;

    ghost from_gives = { λ _ m. m ≡ missing.Memory };

    fn from(_error: Memory) -> Missing {
        Missing::Memory
    }
}

impl From<AllocError> for Missing {
    ghost use Rattle.std.specs.Prelude.{◌≡◌};
    ghost use Rattle.uses.specs.declared.bench.memory.Missing.TheVariants as missing;

    ghost from_gives = { λ _ m. m ≡ missing.Memory };

    fn from(_error: AllocError) -> Missing {
        Missing::Memory
    }
}

/// The words of a command.
pub(crate) fn words_of(alloc: Global, words: &[&str]) -> Result<Vec<String>, Memory>
    ensures { IfOk result (λ texts. texts_of texts.items ≡ map (λ word. word.now) words.now) }
{
    let mut texts = Vec::with_capacity(alloc, words.len())?;
    for word in words {
        texts.push(String::from_str(alloc, word)?)?;
    }
    Ok(texts)
}

/// A library that holds a list under `list`, a script under `script`, and a trace under `trace`, no load of
/// which fails but for want of memory.
#[tactic(auto, using(commands::proofs::Sure::still_none_counted))]
pub(crate) fn holding(
    alloc: Global,
    list: &[u8],
    script: &[u8],
    trace: &[u8],
) -> Result<MemoryLibrary, Memory>
    ensures list { IfOk result (λ library. library_held library (codes "list") ≡ holds list.now) }
    ensures script { IfOk result (λ library. library_held library (codes "script") ≡ holds script.now) }
    ensures trace { IfOk result (λ library. library_held library (codes "trace") ≡ holds trace.now) }
    ensures never { IfOk result (λ library. library_fail library ≡ []) }
    ensures counts { IfOk result (λ library. NoneCounted (library_files library)) }
{
    let mut library = MemoryLibrary::new(alloc, List::new(alloc));
    library.add("list", list)?;
    library.add("script", script)?;
    library.add("trace", trace)?;
    Ok(library)
}

/// An empty sink that takes so many bytes.
pub(crate) fn sink_of(alloc: Global, room: usize) -> Result<MemorySink, Memory>
    ensures empty { IfOk result (λ sink. (sink_output sink).written ≡ Some []) }
    ensures takes { IfOk result (λ sink. (sink_output sink).takes ≡ room + 1) }
    ensures quiet { IfOk result (λ sink. (sink_output sink).faults ≡ 0) }
{
    MemorySink::new(alloc, room, List::new(alloc))
}
