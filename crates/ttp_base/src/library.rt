//! Where named files come from.
ghost use Rattle.std.specs.Prelude.{◌⊎◌, ◌+◌, ◌^◌, ◌<◌, ◌≤◌, vec_len, IfOk, IsErrOf};
ghost use Rattle.ttp_base.specs.Outside.{Files, Gives, AskedFor, HasRisen, NoneRose, NoneFell, HoldsTheSame};

use std::alloc::Global;

/// Why nothing was loaded.
#[derive(Clone, Copy, PartialEq, Eq)]
pub enum LoadError {
    /// The outside failed, or holds nothing under the name.
    Failed,
    /// Memory was refused.
    Memory,
}

/// Bytes held under names.
///
/// An implementation may tell what it holds, as one over memory does, or tell nothing, as one over
/// files. It may say that it is sure of a name, and then no load of it fails but for want of memory.
/// It counts its faults for each name, and all of them; one counter may stand for every name. No count
/// falls, and each stands still at 2^64 - 1. It tells which loads it was asked for, so that a caller's
/// contract can say that it asks for no other.
pub trait Library {
    /// What it holds, of which names it is sure, its counts of faults, and the loads that it was asked for so far.
    ghost files: { Self → Files };

    /// The first `limit + 1` bytes of what is held under a name, or all of it where it is shorter.
    /// So a file that is longer than `limit` shows by the length of the answer.
    fn load(&mut self, alloc: Global, name: &str, limit: usize) -> Result<Vec<u8>, LoadError>
        requires { limit < 2 ^ 32 }
        ensures bytes { IfOk result (λ bytes. Gives ((files self.old).held name.now) limit bytes.items) }
        ensures within { IfOk result (λ bytes. vec_len bytes ≤ limit + 1) }
        // This load is asked for, once, and no other.
        ensures asks { AskedFor (files self.old) (files self.new) name.now limit }
        // The outside is blamed only where it is at fault, and a fault is always told.
        ensures failed { IsErrOf result LoadError.Failed
            → HasRisen ((files self.old).faults name.now) ((files self.new).faults name.now) }
        ensures quiet { IsErrOf result LoadError.Failed ⊎ NoneRose (files self.old) (files self.new) }
        ensures count { NoneFell (files self.old) (files self.new) }
        ensures keeps { HoldsTheSame (files self.old) (files self.new) };
}
