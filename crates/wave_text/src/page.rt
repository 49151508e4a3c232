//! Where the values of variables and lines are formed, and lines written.
ghost use Rattle.std.specs.Prelude.{◌≡◌, [], ◌∷◌, false};
ghost use Rattle.ttp_base.specs.Sheet.{Puts};

use crate::draft::Draft;
use ttp_base::{Sheet, Sink};

/// The value of a variable in the slot before, its value now or a line, and the sheet to which lines go.
#[derive(Drop)]
pub(crate) struct Page {
    pub(crate) before: Draft,
    pub(crate) now: Draft,
    pub(crate) sheet: Sheet,
}

impl Page {
    pub(crate) fn new() -> Page
        ensures { result.sheet.failed ≡ false }
    {
        Page {
            before: Draft::new(),
            now: Draft::new(),
            sheet: Sheet::new(),
        }
    }

    /// Writes the line.
    pub(crate) fn write<K: Sink>(&mut self, out: &mut K)
        ensures { Puts self.old.sheet.failed (K.output out.old) self.new.sheet.failed (K.output out.new)
            (self.old.now ∷ []) }
    {
        self.sheet.put(self.now.bytes(), out);
    }
}
