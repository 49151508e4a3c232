//! What can be wrong with a script.

use ttp_base::Memory;

/// What is wrong with a line, in the order in which it is looked for.
#[derive(Clone, Copy, PartialEq, Eq)]
pub enum LineFault {
    /// The first word names no form of a line, the form has another number of words, or channels or
    /// a fault are spelled otherwise.
    Word,
    /// The line is no `slots` line, and none came before.
    NoSlots,
    /// The line has a form that can't be run yet. No line of a script is told this.
    NotBuilt,
    /// A number, a source or hexadecimal digits are due where something else stands.
    Number,
    /// The list has no node of this number.
    NoNode,
    /// The node sends no payload.
    NoData,
    /// A number is out of its range, a slot is past the run, a first slot comes after the last one,
    /// a message has another length, or a node reads from itself.
    Range,
    /// A line said this before: the slots of the run, or when a node is on or how it drifts.
    Repeat,
    /// Hosts of a list with one buffer write nothing.
    NoBuffer,
    /// The writes of a node's host in one slot reach the number of buffers.
    TooMany,
}

/// Why a text is no script for a list.
#[derive(Clone, Copy, PartialEq, Eq)]
pub enum ScriptError {
    /// The first faulty line, counted from 1, with its first fault. Where the whole script has no
    /// `slots` line, and no other fault, it is the line after the last.
    Line { number: u32, fault: LineFault },
    /// Memory was refused. It may come at any place.
    Memory,
}

impl From<Memory> for ScriptError {
    ghost use Rattle.std.specs.Prelude.{◌≡◌};
    ghost use Rattle.script_text.specs.declared.error.ScriptError.TheVariants as errors;

    ghost from_gives = { λ _ e. e ≡ errors.Memory };

    fn from(_memory: Memory) -> ScriptError {
        ScriptError::Memory
    }
}

/// Why a line was not taken.
#[derive(Clone, Copy)]
pub(crate) enum Refusal {
    /// The line's first fault.
    Fault(LineFault),
    /// Memory was refused.
    Memory,
}

impl Refusal {
    ghost use Rattle.std.specs.Prelude.{◌≡◌};
    ghost use Rattle.script_text.specs.SoFar.{error_at};

    /// Why a script is refused whose line of this number is not taken.
    pub(crate) fn at_line(self, number: u32) -> ScriptError
        ensures { result ≡ error_at number self }
    {
        match self {
            Refusal::Fault(fault) => ScriptError::Line { number, fault },
            Refusal::Memory => ScriptError::Memory,
        }
    }
}

impl From<LineFault> for Refusal {
    ghost use Rattle.std.specs.Prelude.{◌≡◌};
    ghost use Rattle.script_text.specs.declared.error.Refusal.TheVariants as refusals;

    ghost from_gives = { λ fault r. r ≡ refusals.Fault fault };

    fn from(fault: LineFault) -> Refusal {
        Refusal::Fault(fault)
    }
}

impl From<Memory> for Refusal {
    ghost use Rattle.std.specs.Prelude.{◌≡◌};
    ghost use Rattle.script_text.specs.declared.error.Refusal.TheVariants as refusals;

    ghost from_gives = { λ _ r. r ≡ refusals.Memory };

    fn from(_memory: Memory) -> Refusal {
        Refusal::Memory
    }
}
