//! The first words of lines.

/// A form of a script's line, which the line's first word names.
#[derive(Clone, Copy, PartialEq, Eq)]
pub(crate) enum Keyword {
    Slots,
    On,
    Drift,
    Send,
    Receive,
    Flip,
    Error,
    Jump,
    Arm,
    Write,
    Read,
}
