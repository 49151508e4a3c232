//! Where lines are formed and written one after another, over a sink that may fail.
ghost use Rattle.std.specs.Prelude.{◌≡◌, ◌↔◌, IsOk, [], ◌∷◌, map, false};
ghost use Rattle.ttp_base.specs.Sheet.{Puts};

use crate::fault::Failed;
use crate::sink::Sink;
use crate::text::{Line, Text};

/// A line that is formed, a longer one, and whether the sink failed.
///
/// After a failure nothing more is written, so that what writes several lines goes on as if it had written
/// them, and one place at the end tells of it.
#[derive(Drop)]
pub struct Sheet {
    pub line: Line,
    pub long: Text<4096>,
    pub failed: bool,
}

// Writes a line where the sink has not failed, and tells whether it has failed now.
#[tactic(auto, using(crate::proofs::Puts::puts))]
fn put_line<K: Sink>(failed: bool, line: &[u8], out: &mut K) -> bool
    ensures { Puts failed (K.output out.old) result (K.output out.new) (line.now ∷ []) }
{
    if failed {
        return true;
    }
    match out.write(line) {
        Ok(()) => false,
        Err(Failed) => true,
    }
}

impl Sheet {
    pub fn new() -> Sheet
        ensures { result.failed ≡ false }
    {
        Sheet {
            line: Line::new(),
            long: Text::new(),
            failed: false,
        }
    }

    /// Writes the line.
    pub fn write<K: Sink>(&mut self, out: &mut K)
        ensures { Puts self.old.failed (K.output out.old) self.new.failed (K.output out.new) (self.old.line ∷ []) }
    {
        self.failed = put_line(self.failed, self.line.bytes(), out);
    }

    /// Writes the long line.
    pub fn write_long<K: Sink>(&mut self, out: &mut K)
        ensures { Puts self.old.failed (K.output out.old) self.new.failed (K.output out.new) (self.old.long ∷ []) }
    {
        self.failed = put_line(self.failed, self.long.bytes(), out);
    }

    /// Writes a line that never changes.
    pub fn put<K: Sink>(&mut self, line: &[u8], out: &mut K)
        ensures { Puts self.old.failed (K.output out.old) self.new.failed (K.output out.new) (line.now ∷ []) }
    {
        self.failed = put_line(self.failed, line, out);
    }

    /// Writes lines that never change.
    pub fn put_lines<K: Sink>(&mut self, lines: &[&str], out: &mut K)
        ensures { Puts self.old.failed (K.output out.old) self.new.failed (K.output out.new) (map (λ line. line.now) lines.now) }
    {
        for line in lines {
            self.put(line.as_bytes(), out);
        }
    }

    /// Whether all was written.
    pub fn end(self) -> Result<(), Failed>
        ensures { IsOk result ↔ (self.failed ≡ false) }
    {
        if self.failed { Err(Failed) } else { Ok(()) }
    }
}
