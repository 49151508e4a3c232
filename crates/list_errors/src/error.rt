//! What can be wrong with a list, each with what stands there.

use medl_text::Field;
use ttp_base::List;

/// The type of a value of TOML.
#[derive(Clone, Copy, PartialEq, Eq)]
pub enum ValueType {
    String,
    Integer,
    Float,
    Boolean,
    Datetime,
    Array,
    Table,
}

/// One thing that is wrong with a list.
#[derive(Drop)]
pub enum Wrong {
    /// The file has more than 1,048,576 bytes.
    TooLarge,
    /// The file begins with the mark of UTF-16.
    Utf16,
    /// The file is a script: the first word of its first line that says something is `slots`, at this byte of the file.
    IsScript {
        at: usize,
    },
    /// The bytes before this one are the longest front that is UTF-8.
    NotUtf8 {
        at: usize,
        byte: u8,
    },
    /// The text is no TOML document.
    NotToml,
    /// A key is absent that has to be there.
    Missing {
        field: Field,
    },
    /// A key holds a value of another type.
    WrongKind {
        field: Field,
        found: ValueType,
    },
    /// A number lies outside its range. `high` of `data` is 0 where the slot's kinds are right and have I alone.
    OutOfRange {
        field: Field,
        value: i64,
        low: u32,
        high: u32,
    },
    /// There are fewer slots than 4, or more than a list of its version has.
    SlotCount {
        found: usize,
    },
    /// The kinds of a slot have another letter than I, N and X, or not one for each round.
    Kinds {
        slot: u8,
        letters: List<u8>,
    },
    /// A slot asks for modes, and its frames carry no payload.
    NoRequestData {
        slot: u8,
    },
    /// The modes in which a slot is live have another letter than y and n, or not one for each mode.
    Live {
        slot: u8,
        letters: List<u8>,
    },
    /// No list has this key at the top, or in this slot.
    Unknown {
        slot: Option<u8>,
        key: List<u8>,
    },
    /// Fewer than four slots have `sync`.
    NoSync {
        found: u8,
    },
}
