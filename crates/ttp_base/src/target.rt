//! What bytes are written to, and what its errors say.
ghost use Rattle.std.specs.Prelude.{◌≡◌, ◌<◌, ◌≤◌, ℕ, ◌∷◌, [], List, Option, None, length, take, IfOk, IfErr, OnOk, OnErr};
ghost use Rattle.std.specs.Io.KnownBytes.{Appends, Keeps};
ghost use Rattle.ttp_base.specs.declared.source.Trouble.{Trouble};
ghost use Rattle.ttp_base.specs.Errors.{Tells};

use crate::source::Trouble;
use std::io::Write;

/// Takes bytes, as std's writers do, and may tell its errors, so that a clause can say what is made of
/// each. That none of some bytes is taken is an error too, which says [`Trouble::Failed`].
pub(crate) trait Target {
    /// The bytes that were written, where they are known.
    ghost contents: { Self → Option (List ℕ) };

    /// The errors so far, the first one first, where they are told.
    ghost told: { Self → Option (List Trouble) };

    /// One write, and how many bytes it took.
    fn write(&mut self, piece: &[u8]) -> Result<usize, Trouble>
        ensures within { IfOk result (λ n. n ≤ length piece.now) }
        ensures some { IfOk result (λ n. 0 < length piece.now → 0 < n) }
        ensures ok { IfOk result (λ n. Appends (contents self.old) (contents self.new) (take n piece.now)) }
        ensures err { OnErr result (Keeps (contents self.old) (contents self.new)) }
        ensures quiet { OnOk result (Tells (told self.old) (told self.new) []) }
        ensures tells { IfErr result (λ trouble. Tells (told self.old) (told self.new) (trouble ∷ [])) };
}

/// A writer of std, which tells no errors.
#[derive(Drop)]
pub(crate) struct Onto<W> {
    pub(crate) writer: W,
}

impl<W: Write> Target for Onto<W> {
    ghost contents = { λ t. W.contents t.writer };

    ghost told = { λ t. None };

    fn write(&mut self, piece: &[u8]) -> Result<usize, Trouble> {
        match self.writer.write(piece) {
            // The whole piece, as mostly.
            Ok(count) if count == piece.len() => Ok(count),
            Ok(0) => Err(Trouble::Failed),
            Ok(count) => Ok(count),
            Err(error) => Err(Trouble::of(&error)),
        }
    }
}
