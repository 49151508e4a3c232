//! What bytes are read from, and what its errors say.
ghost use Rattle.std.specs.Prelude.{◌≡◌, ◌≢◌, ◌↔◌, MatchBool, ℕ, ◌∷◌, [], List, Option, None, OnOk, IfErr};
ghost use Rattle.std.specs.IoError.{error_kind};
ghost use Rattle.std.specs.Io.KnownBytes.{Consumes, Keeps, IsAtEnd};
ghost use Rattle.std.specs.Prelude.{◌<◌, ◌≤◌, length, take, IfOk, OnErr};
ghost use Rattle.ttp_base.specs.declared.source.Trouble.{Trouble};
ghost use Rattle.ttp_base.specs.Errors.{Tells};

use crate::library::LoadError;
use std::io::{self, ErrorKind, Read};

/// What an error of the system says.
#[derive(Clone, Copy)]
pub(crate) enum Trouble {
    /// A signal came first; the call can be made again.
    Interrupted,
    /// Memory was refused.
    Memory,
    /// The outside failed.
    Failed,
}

impl Trouble {
    /// What this error says. It stands apart, since errors are rare.
    #[cold]
    #[inline(never)]
    pub(crate) fn of(error: &io::Error) -> Trouble
        ensures interrupted { (result ≡ Trouble.Interrupted) ↔ (error_kind error.now ≡ ErrorKind.Interrupted) }
        ensures memory { (result ≡ Trouble.Memory) ↔ (error_kind error.now ≡ ErrorKind.OutOfMemory) }
    {
        match error.kind() {
            ErrorKind::Interrupted => Trouble::Interrupted,
            ErrorKind::OutOfMemory => Trouble::Memory,
            _ => Trouble::Failed,
        }
    }

    pub(crate) fn is_interruption(self) -> bool
        ensures { MatchBool result (self ≡ Trouble.Interrupted) (self ≢ Trouble.Interrupted) }
    {
        matches!(self, Trouble::Interrupted)
    }

    /// What a load answers for it.
    pub(crate) fn answer(self) -> LoadError
        ensures memory { (result ≡ LoadError.Memory) ↔ (self ≡ Trouble.Memory) }
        ensures failed { (result ≡ LoadError.Failed) ↔ (self ≢ Trouble.Memory) }
    {
        match self {
            Trouble::Memory => LoadError::Memory,
            Trouble::Interrupted | Trouble::Failed => LoadError::Failed,
        }
    }
}

/// Gives bytes, as std's readers do, and may tell its errors, so that a clause can say what is made of
/// each.
pub(crate) trait Source {
    /// The bytes that are left, where they are known.
    ghost remaining: { Self → Option (List ℕ) };

    /// The errors so far, the first one first, where they are told.
    ghost told: { Self → Option (List Trouble) };

    /// One read into the room, and how many bytes it gave.
    fn read(&mut self, room: &mut [u8]) -> Result<usize, Trouble>
        ensures within { IfOk result (λ n. n ≤ length room.new) }
        ensures ok { IfOk result (λ n. Consumes (remaining self.old) (remaining self.new) (take n room.new)) }
        ensures end { IfOk result (λ n. n ≡ 0 → 0 < length room.old → IsAtEnd (remaining self.new)) }
        ensures err { OnErr result (Keeps (remaining self.old) (remaining self.new)) }
        ensures quiet { OnOk result (Tells (told self.old) (told self.new) []) }
        ensures tells { IfErr result (λ trouble. Tells (told self.old) (told self.new) (trouble ∷ [])) };
}

/// A reader of std, which tells no errors.
#[derive(Drop)]
pub(crate) struct Untold<R> {
    pub(crate) reader: R,
}

impl<R: Read> Source for Untold<R> {
    ghost remaining = { λ s. R.remaining s.reader };

    ghost told = { λ s. None };

    fn read(&mut self, room: &mut [u8]) -> Result<usize, Trouble> {
        match self.reader.read(room) {
            Ok(count) => Ok(count),
            Err(error) => Err(Trouble::of(&error)),
        }
    }
}
