//! A library in memory.
ghost use Rattle.std.specs.Prelude.{◌≡◌, ◌⊎◌, ◌+◌, ◌^◌, ◌<◌, ◌≤◌, ◌↔◌, [], take, min, vec_len};
ghost use Rattle.std.specs.Prelude.{IsTrue, IfOk, IsErrOf, OnOk, OnErr};
ghost use Rattle.std.specs.BTreeMap.{get_by_text};
ghost use Rattle.ttp_base.specs.Outside.{absent, Gives, AskedFor, HasRisen, NoneRose, NoneFell, HoldsTheSame};
ghost use Rattle.ttp_base.specs.Outside.{comes_up, count_end};

use crate::asked::{Asked, Request};
use crate::calls::is_next_to_fail;
use crate::fault::Memory;
use crate::library::{Library, LoadError};
use crate::list::List;
use std::alloc::Global;
use std::collections::BTreeMap;

/// Bytes that are held, and the count of faults when their name was first held.
#[derive(Drop)]
struct Kept {
    bytes: Vec<u8>,
    faults: u64,
}

/// Holds bytes under names, and tells them.
///
/// Chosen calls of [`Library::load`] fail, which shows a program's answer to a failing outside. Where
/// none is chosen, it is sure of each name under which it holds something, and the count of this name
/// stands still from then on. One counter stands for the faults of every other name.
#[derive(Drop)]
pub struct MemoryLibrary {
    alloc: Global,
    files: BTreeMap<String, Kept>,
    fail: List<u32>,
    calls: u64,
    faults: u64,
    asked: Asked,
}

impl MemoryLibrary {
    ghost use Rattle.ttp_base.specs.MemoryLibrary.{library_fail, library_calls, library_faults, library_files};
    ghost use Rattle.ttp_base.specs.MemoryLibrary.{first_count};
    ghost use Rattle.ttp_base.specs.MemoryLibrary.{HoldsNothing, HoldsOneMore, KeepsTheRest};
    ghost use Rattle.ttp_base.specs.Outside.{NoneCounted};

    /// A library that holds nothing yet. The numbers in `fail` are those of the calls of
    /// [`Library::load`] that are to fail, counted from 1.
    pub fn new(alloc: Global, fail: List<u32>) -> MemoryLibrary
        ensures empty { HoldsNothing result }
        ensures fail { (library_fail result ≡ fail) × (library_calls result ≡ 0) }
        ensures count { library_faults result ≡ 0 }
        ensures counts { NoneCounted (library_files result) }
        ensures asked { (library_files result).loads ≡ [] }
    {
        MemoryLibrary {
            alloc,
            files: BTreeMap::new(alloc),
            fail,
            calls: 0,
            faults: 0,
            asked: Asked::nothing(),
        }
    }

    /// Holds these bytes under a name, in place of what it held there. Where memory is refused it
    /// holds what it held before. No count of a name changes.
    pub fn add(&mut self, name: &str, bytes: &[u8]) -> Result<(), Memory>
        ensures ok { OnOk result (HoldsOneMore self.old self.new name.now bytes.now) }
        ensures err { OnErr result (HoldsTheSame (library_files self.old) (library_files self.new)) }
        ensures keeps { KeepsTheRest self.old self.new }
        ensures counts { NoneRose (library_files self.old) (library_files self.new) }
    {
        let faults = self.count_before(name);
        let key = String::from_str(self.alloc, name)?;
        let bytes = Vec::from_slice(self.alloc, bytes)?;
        self.files.insert(key, Kept { bytes, faults })?;
        Ok(())
    }

    // The count of faults when the name was first held, or the one now.
    fn count_before(&self, name: &str) -> u64
        ensures { result ≡ first_count (library_faults self.now) (get_by_text self.now.files name.now) }
    {
        match self.files.get(name) {
            Some(kept) => kept.faults,
            None => self.faults,
        }
    }

    /// How many loads failed so far, at most 2^64 - 1.
    pub fn faults(&self) -> u64
        ensures { result ≡ library_faults self.now }
    {
        self.faults
    }
}

impl Library for MemoryLibrary {
    ghost use Rattle.ttp_base.specs.MemoryLibrary.{library_held, library_fail, library_calls};
    ghost use Rattle.ttp_base.specs.MemoryLibrary.{library_faults, library_files};

    ghost files = { library_files };

    /// Answers [`LoadError::Failed`] exactly where the call's number is to fail or nothing is held
    /// under the name.
    fn load(&mut self, alloc: Global, name: &str, limit: usize) -> Result<Vec<u8>, LoadError>
        requires { limit < 2 ^ 32 }
        ensures bytes { IfOk result (λ bytes. Gives (library_held self.old name.now) limit bytes.items) }
        ensures within { IfOk result (λ bytes. vec_len bytes ≤ limit + 1) }
        ensures asks { AskedFor (library_files self.old) (library_files self.new) name.now limit }
        ensures failed { IsErrOf result LoadError.Failed
            → HasRisen (library_faults self.old) (library_faults self.new) }
        ensures quiet { IsErrOf result LoadError.Failed ⊎ NoneRose (library_files self.old) (library_files self.new) }
        ensures count { NoneFell (library_files self.old) (library_files self.new) }
        ensures keeps { HoldsTheSame (library_files self.old) (library_files self.new) }

        ensures number { library_calls self.new ≡ min (library_calls self.old + 1) count_end }
        ensures exact { IsErrOf result LoadError.Failed
            ↔ (IsTrue (comes_up (library_fail self.old) (library_calls self.new))
            ⊎ (library_held self.old name.now ≡ absent)) }
        ensures stays { library_fail self.new ≡ library_fail self.old }
        // It counts each fault once.
        ensures counted { IsErrOf result LoadError.Failed
            → library_faults self.new ≡ min (library_faults self.old + 1) count_end }
    {
        self.asked = Asked::and(&self.asked, &Request { name, limit });
        let is_to_fail = is_next_to_fail(&self.fail, &mut self.calls);
        match self.files.get(name) {
            Some(kept) if !is_to_fail => copy_of_front(alloc, kept.bytes.as_slice(), limit + 1),
            _ => {
                self.faults = self.faults.saturating_add(1);
                Err(LoadError::Failed)
            }
        }
    }
}

// The first bytes, at most so many.
fn copy_of_front(alloc: Global, bytes: &[u8], count: usize) -> Result<Vec<u8>, LoadError>
    ensures front { IfOk result (λ copy. copy.items ≡ take count bytes.now) }
    ensures within { IfOk result (λ copy. vec_len copy ≤ count) }
    ensures memory { OnErr result (IsErrOf result LoadError.Memory) }
{
    let end = bytes.len().min(count);
    match Vec::from_slice(alloc, &bytes[..end]) {
        Ok(copy) => Ok(copy),
        Err(_) => Err(LoadError::Memory),
    }
}
