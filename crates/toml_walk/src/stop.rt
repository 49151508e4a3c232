//! Where a text stops being TOML, and why.

use ttp_base::List;

/// What the grammar has at a place.
#[derive(Clone, Copy, PartialEq, Eq)]
pub enum Due {
    /// A key, bare, quoted or dotted.
    Key,
    /// `=` behind a key.
    Equals,
    /// `]` behind the key of a header.
    HeaderEnd,
    /// `,` or `]` behind an element of an array.
    ElementEnd,
    /// `,` or `}` behind a member of an inline table.
    MemberEnd,
    /// The end of the line behind a statement.
    LineEnd,
    /// A value.
    Value,
}

/// What stands at a place.
#[derive(Clone, Copy, PartialEq, Eq)]
pub enum Token {
    FileEnd,
    LineEnd,
    /// `"`.
    DoubleQuote,
    /// A word of so many bytes, or one byte that begins none.
    Shown { len: usize },
}

/// Why a word is no value.
#[derive(Clone, Copy, PartialEq, Eq)]
pub enum NoValue {
    /// `true` or `false` is spelled with large letters.
    NearTrue,
    NearFalse,
    /// It is a number that is too large.
    TooLarge,
    /// It begins with a digit, and is no number.
    NoDigits,
    /// It is none of these.
    NoWord,
}

/// Why a text is no TOML.
#[derive(Drop)]
pub enum Why {
    /// Something is due, and something else stands there.
    Due { due: Due, token: Token },
    /// A string has no end, or a character that may not stand in it.
    NoString,
    /// A word of so many bytes is no value.
    NoValue { len: usize, reason: NoValue },
    /// A key is defined already. `key` has its parts, with dots between; `in_brackets` says that it stands in the single
    /// brackets of a header.
    Defined { key: List<u8>, in_brackets: bool },
}

/// Where a text stops being TOML.
#[derive(Drop)]
pub struct Stop {
    /// The byte, counted from 0, that begins the first part that can't be read, or the end of the text.
    pub at: usize,
    pub why: Why,
}
