//! Lines and entries that have a part in an entry.
ghost use Rattle.std.specs.Prelude.{◌≡◌, [], ◌∷◌, OnOk};
ghost use Rattle.causes.specs.Sources.{cause_by, no_sources, only_entries, only_lines};
ghost use Rattle.run_looks.specs.Added.{AddsSources, sources_in};

use causes::{Because, Cause, ScriptLine, Spot};
use std::alloc::Global;
use ttp_base::{List, Memory};

/// Lines of a script and entries of a run, to which more are added, each as often as it is found.
#[derive(Drop)]
pub struct Sources {
    pub lines: List<ScriptLine>,
    pub entries: List<Spot>,
}

impl Sources {
    /// No lines and no entries.
    pub fn none(alloc: Global) -> Sources
        ensures { sources_in result ≡ no_sources }
    {
        Sources {
            lines: List::new(alloc),
            entries: List::new(alloc),
        }
    }

    /// Adds a line.
    ///
    /// # Errors
    ///
    /// Where memory was refused; then nothing is added.
    pub fn add_line(&mut self, line: ScriptLine) -> Result<(), Memory>
        ensures { OnOk result (AddsSources self.old self.new (only_lines (line ∷ []))) }
    {
        self.lines.push(line)
    }

    /// Adds an entry.
    ///
    /// # Errors
    ///
    /// Where memory was refused; then nothing is added.
    pub fn add_entry(&mut self, spot: Spot) -> Result<(), Memory>
        ensures { OnOk result (AddsSources self.old self.new (only_entries (spot ∷ []))) }
    {
        self.entries.push(spot)
    }

    /// The cause that they are, by what decided.
    pub fn cause_by(self, because: Because) -> Cause
        ensures { result ≡ cause_by because (sources_in self) }
    {
        let Sources { lines, entries } = self;
        Cause {
            because,
            lines,
            entries,
        }
    }
}
