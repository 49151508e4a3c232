//! What can be wrong with a script, each with what is due in its place.

use crate::spots::Spot;

/// A form of a script's line, which the line's first word names.
#[derive(Clone, Copy, PartialEq, Eq)]
pub enum Form {
    Slots,
    On,
    Drift,
    Send,
    Receive,
    Flip,
    Error,
    Jump,
    Arm,
    Write,
    Read,
}

/// What a word behind the first says.
#[derive(Clone, Copy, PartialEq, Eq)]
pub enum Part {
    /// The slots of the run, T.
    Slots,
    /// A node, and that of a `write` line.
    Node,
    Writer,
    /// A slot of the run, and the first and the last one of some.
    Slot,
    From,
    To,
    /// `A`, `B` or `AB`.
    Channels,
    /// `silence` or `noise`.
    Fault,
    /// A bit of a frame.
    Bit,
    /// The VALUE of `drift`, of `error` and of `jump`.
    Drift,
    Reading,
    Jump,
    /// HEX: a message.
    Message,
    /// What a host reads: `status` or a node.
    Source,
}

/// What is wrong with a word or a line.
#[derive(Clone, Copy)]
pub enum Wrong {
    /// The first word of line 1 begins with a byte order mark.
    Mark,
    /// The file begins with the mark of UTF-16.
    Utf16,
    /// The file is a list.
    IsList,
    /// The first word names no form of a line.
    NoForm,
    /// No line before names the slots of the run.
    NoSlots,
    /// No line of the file says anything.
    NothingSaid,
    /// A comment stands behind the words of a line.
    Comment,
    /// The line has so many words, of which its form has another number.
    WordCount {
        words: u32,
        form: Form,
    },
    /// Channels or a fault are spelled otherwise.
    Misspelt {
        part: Part,
    },
    /// A number from `low` to `high` is due.
    NoNumber {
        part: Part,
        low: i64,
        high: i64,
    },
    /// The number is none from `low` to `high`.
    OutOfRange {
        part: Part,
        value: i64,
        low: i64,
        high: i64,
    },
    /// The cluster has no such node; `high` is its last.
    NoNode {
        part: Part,
        node: u32,
        high: u32,
    },
    /// The list gives this node no payload.
    NoData {
        part: Part,
        node: u32,
    },
    /// `status` or a node up to `high` is due.
    NoSource {
        high: u32,
    },
    /// A host reads from its own node.
    ReadsItself {
        node: u32,
    },
    /// Hexadecimal digits are due.
    NoDigits,
    /// The message has so many digits, of which `due` are due for the payload of the node.
    DigitCount {
        digits: u32,
        due: u32,
        node: u32,
    },
    /// The last slot lies before the first.
    Backwards {
        from: u32,
        to: u32,
    },
    /// The slots of the run stand in a line before.
    SlotsAgain {
        line: u32,
    },
    /// When the node is on stands in a line before.
    OnAgain {
        node: u32,
        line: u32,
    },
    /// How the node's clock drifts stands in a line before.
    DriftAgain {
        node: u32,
        line: u32,
    },
    /// The list has one buffer.
    NoBuffer,
    /// With this line the writes of the node in that slot are one more than `most`.
    TooMany {
        node: u32,
        slot: u32,
        most: u32,
    },
}

/// One thing that is wrong with a script.
#[derive(Clone, Copy)]
pub struct ScriptError {
    /// The number of the line, from 1 on.
    pub line: u32,
    /// The word of the line, of which the first byte is the error's place.
    pub at: Spot,
    /// What is wrong.
    pub wrong: Wrong,
}
