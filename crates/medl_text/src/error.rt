//! The keys of a list file, and what can be wrong with one.

use ttp_base::Memory;

/// A key of a list file, in the order in which the keys are looked at.
#[derive(Clone, Copy, PartialEq, Eq)]
pub enum FieldName {
    Version,
    Rounds,
    Schedule,
    Buffers,
    Drift,
    Error,
    Window,
    Slot,
    /// May be absent.
    Modes,
    Kinds,
    /// The key `data`.
    DataSize,
    Sync,
    Start,
    /// May be absent.
    Requests,
    /// May be absent.
    Live,
}

impl FieldName {
    ghost use Rattle.std.specs.Prelude.{◌≡◌, ◌≤◌, length};
    ghost use Rattle.medl_text.specs.ListFile.{key_text};

    /// The key as it is spelled in the file, of at most 8 bytes.
    pub fn key(self) -> &'static str
        ensures text { result.now ≡ key_text self }
        ensures short { length result.now ≤ 8 }
    {
        match self {
            FieldName::Version => "version",
            FieldName::Rounds => "rounds",
            FieldName::Schedule => "schedule",
            FieldName::Buffers => "buffers",
            FieldName::Drift => "drift",
            FieldName::Error => "error",
            FieldName::Window => "window",
            FieldName::Slot => "slot",
            FieldName::Modes => "modes",
            FieldName::Kinds => "kinds",
            FieldName::DataSize => "data",
            FieldName::Sync => "sync",
            FieldName::Start => "start",
            FieldName::Requests => "requests",
            FieldName::Live => "live",
        }
    }
}

/// A key at the top of the file, or in an element of `slot`.
#[derive(Clone, Copy, PartialEq, Eq)]
pub struct Field {
    pub name: FieldName,
    /// The number of the element, counted from 0, where the key stands in one.
    pub slot: Option<u8>,
}

/// Why a text is no descriptor list.
///
/// Where several things are wrong, the first one in this order is told; the fields are those of
/// `docs/FORMATS.md`.
#[derive(Clone, Copy, PartialEq, Eq)]
pub enum MedlError {
    /// The bytes are no UTF-8, or no TOML document.
    NotToml,
    /// A key is absent that has to be there.
    Missing { field: Field },
    /// A key holds another kind of value than it is due to.
    WrongKind { field: Field },
    /// A number lies outside the key's range.
    OutOfRange { field: Field, value: i64 },
    /// There are fewer than 4 slots, or more than 16 in a list of version 1 or 24 in one of version 2.
    SlotCount { found: usize },
    /// The kinds of a slot are not exactly one letter `I`, `N` or `X` for each round.
    Kinds { slot: u8 },
    /// A slot asks for modes, and its frames carry no payload.
    NoRequestData { slot: u8 },
    /// What a slot says of the modes in which it is live is not exactly one letter `y` or `n` for each mode.
    Live { slot: u8 },
    /// There is a key that the file does not have: at the top, or in an element of `slot`.
    Unknown { slot: Option<u8> },
    /// Fewer than four slots have `sync`.
    NoSync { found: u8 },
    /// The list asks for what a command can't do yet. No text that is read as a list is told this.
    NotBuilt { field: Field },
    /// Memory was refused. It may come at any place.
    Memory,
}

impl From<Memory> for MedlError {
    ghost use Rattle.std.specs.Prelude.{◌≡◌};
    ghost use Rattle.medl_text.specs.declared.error.MedlError.TheVariants as errors;

    ghost from_gives = { λ _ e. e ≡ errors.Memory };

    fn from(_memory: Memory) -> MedlError {
        MedlError::Memory
    }
}
