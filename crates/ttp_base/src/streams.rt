//! Whole reads and whole writes, over std's readers and writers.
ghost use Rattle.std.specs.Prelude.{◌≡◌, ◌≢◌, ◌<◌, ◌≤◌, ◌⊎◌, length, take, vec_len};
ghost use Rattle.std.specs.Prelude.{IfOk, IfErr, IfSome, OnOk, OnErr};
ghost use Rattle.std.specs.Io.KnownBytes.{Appends, Keeps, Consumes, IsAtEnd};
ghost use Rattle.ttp_base.specs.declared.source.Trouble.{Trouble};
ghost use Rattle.ttp_base.specs.Errors.{ToldNoFault, ToldFault};
ghost use Rattle.ttp_base.specs.Outside.{AppendsFront};

use crate::library::LoadError;
use crate::source::{Source, Trouble};
use crate::target::Target;
use std::alloc::Global;

/// How often a read or a write is tried again that a signal interrupted.
const MOST_TRIES: u32 = 1_000_000;

/// How many bytes are asked of a reader at once, at most.
const CHUNK: usize = 4096;

// One write, tried again where a signal interrupts it. It answers how many bytes were taken.
fn write_some<T: Target>(target: &mut T, piece: &[u8]) -> Result<usize, Trouble>
    ensures within { IfOk result (λ n. n ≤ length piece.now) }
    ensures some { IfOk result (λ n. 0 < length piece.now → 0 < n) }
    ensures ok { IfOk result (λ n. Appends (T.contents target.old) (T.contents target.new) (take n piece.now)) }
    ensures err { OnErr result (Keeps (T.contents target.old) (T.contents target.new)) }
    ensures quiet { OnOk result (ToldNoFault (T.told target.old) (T.told target.new)) }
    ensures told { IfErr result (λ trouble. ToldFault (T.told target.old) (T.told target.new) trouble) }
{
    for _ in 0..MOST_TRIES {
        match target.write(piece) {
            Ok(count) => return Ok(count),
            Err(trouble) => {
                if !trouble.is_interruption() {
                    return Err(trouble);
                }
            }
        }
    }
    Err(Trouble::Interrupted)
}

// Writes what is left of a piece, a write after another; where nothing is left, it writes nothing. It
// stands apart, so that the first write of a piece is inlined.
#[cold]
#[inline(never)]
fn write_rest<T: Target>(target: &mut T, rest: &[u8]) -> Result<(), Trouble>
    ensures ok { OnOk result (Appends (T.contents target.old) (T.contents target.new) rest.now) }
    ensures front { OnErr result (AppendsFront (T.contents target.old) (T.contents target.new) rest.now) }
    ensures quiet { OnOk result (ToldNoFault (T.told target.old) (T.told target.new)) }
    ensures told { IfErr result (λ trouble. ToldFault (T.told target.old) (T.told target.new) trouble) }
{
    let mut done = 0;
    while done < rest.len() {
        let count = match write_some(target, &rest[done..]) {
            Ok(count) => count,
            Err(trouble) => return Err(trouble),
        };
        done += count;
    }
    Ok(())
}

/// Writes a whole piece. A write that takes nothing of what is left is a failure, after which some first
/// bytes of the piece were written, or none. A buffer mostly takes the piece by its first write.
///
/// It fails exactly where the target told an error that is no interruption, or a million interruptions of
/// one write.
#[inline]
pub(crate) fn write_whole<T: Target>(target: &mut T, piece: &[u8]) -> Result<(), Trouble>
    ensures ok { OnOk result (Appends (T.contents target.old) (T.contents target.new) piece.now) }
    ensures front { OnErr result (AppendsFront (T.contents target.old) (T.contents target.new) piece.now) }
    ensures quiet { OnOk result (ToldNoFault (T.told target.old) (T.told target.new)) }
    ensures told { IfErr result (λ trouble. ToldFault (T.told target.old) (T.told target.new) trouble) }
{
    match target.write(piece) {
        Ok(count) if count == piece.len() => Ok(()),
        Ok(count) => write_rest(target, &piece[count..]),
        Err(trouble) if trouble.is_interruption() => write_rest(target, piece),
        Err(trouble) => Err(trouble),
    }
}

// One read, tried again where a signal interrupts it. It answers how many bytes were given.
fn read_some<S: Source>(source: &mut S, room: &mut [u8]) -> Result<usize, Trouble>
    ensures within { IfOk result (λ n. n ≤ length room.new) }
    ensures ok { IfOk result (λ n. Consumes (S.remaining source.old) (S.remaining source.new) (take n room.new)) }
    ensures end { IfOk result (λ n. n ≡ 0 → 0 < length room.old → IsAtEnd (S.remaining source.new)) }
    ensures quiet { OnOk result (ToldNoFault (S.told source.old) (S.told source.new)) }
    ensures told { IfErr result (λ trouble. ToldFault (S.told source.old) (S.told source.new) trouble) }
{
    for _ in 0..MOST_TRIES {
        match source.read(room) {
            Ok(count) => return Ok(count),
            Err(trouble) => {
                if !trouble.is_interruption() {
                    return Err(trouble);
                }
            }
        }
    }
    Err(Trouble::Interrupted)
}

/// The first bytes that a source gives, `count` of them or all where it gives fewer. It takes no byte
/// past them from the source, and an error in the middle is the answer: the outside failed where the
/// source told an error that is no want of memory, or a million interruptions.
pub(crate) fn read_front<S: Source>(
    alloc: Global,
    source: &mut S,
    count: usize,
) -> Result<Vec<u8>, LoadError>
    ensures bytes { IfOk result (λ bytes. IfSome (S.remaining source.old) (λ all. bytes.items ≡ take count all)) }
    ensures taken { IfOk result (λ bytes. Consumes (S.remaining source.old) (S.remaining source.new) bytes.items) }
    ensures within { IfOk result (λ bytes. vec_len bytes ≤ count) }
    ensures quiet { OnOk result (ToldNoFault (S.told source.old) (S.told source.new)) }
    ensures failed { IfErr result (λ e. e ≡ LoadError.Failed
        → ((t : Trouble) × (t ≢ Trouble.Memory) × ToldFault (S.told source.old) (S.told source.new) t)) }
    ensures memory { IfErr result (λ e. e ≡ LoadError.Memory
        → (ToldNoFault (S.told source.old) (S.told source.new)
        ⊎ ToldFault (S.told source.old) (S.told source.new) Trouble.Memory)) }
{
    let mut bytes = Vec::new(alloc);
    let mut room = [0; CHUNK];
    while bytes.len() < count {
        let want = CHUNK.min(count - bytes.len());
        let given = match read_some(source, &mut room[..want]) {
            Ok(given) => given,
            Err(trouble) => return Err(trouble.answer()),
        };
        if given == 0 {
            return Ok(bytes);
        }
        if bytes.extend_from_slice(&room[..given]).is_err() {
            return Err(LoadError::Memory);
        }
    }
    Ok(bytes)
}
