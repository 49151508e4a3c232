//! Where output goes.
ghost use Rattle.std.specs.Prelude.{[], ◌∷◌, OnOk, OnErr};
ghost use Rattle.ttp_base.specs.Outside.{Output, Wrote, CutShort};

use crate::fault::Failed;

/// Takes bytes, a piece at a time.
///
/// An implementation may tell what was written, as one over memory does, or leave that untold, as
/// one over a stream whose writer does. It tells the pieces that it took whole, so that a caller's
/// contract can say which bytes were given together, and counts its faults. The count never falls, and
/// stands still at 2^64 - 1. It may say that it is sure to take what is shorter than a number of bytes.
pub trait Sink {
    /// What was written so far, in which pieces, the count of faults, and what it is sure to take.
    ghost output: { Self → Output };

    /// Writes a piece after what was written before. After `Failed` some first bytes of it were
    /// written, or none.
    fn write(&mut self, piece: &[u8]) -> Result<(), Failed>
        ensures ok { OnOk result (Wrote (output self.old) (output self.new) (piece.now ∷ [])) }
        // The outside is blamed only where it is at fault.
        ensures failed { OnErr result (CutShort (output self.old) (output self.new) (piece.now ∷ [])) };
}
