//! What all places of a picture follow from, and the corners of its cells.
ghost use Rattle.std.specs.Prelude.{◌^◌, ◌<◌, ◌≤◌};

use crate::window::Span;
use whole_trace::Head;

/// The first line of the trace and the slots that are shown: where each cell stands follows from both.
#[derive(Clone, Copy)]
pub(crate) struct Layout {
    pub(crate) head: Head,
    pub(crate) span: Span,
    ghost few: { (1 ≤ head.nodes) × (head.nodes ≤ 24) },
    ghost some: { 1 ≤ head.slots },
    ghost shown: { (span.first ≤ span.last) × (span.last < 2 ^ 31) },
}

/// The upper left corner of a cell.
#[derive(Clone, Copy)]
pub struct Corner {
    pub x: u64,
    pub y: u64,
    pub ghost near: { (x ≤ 2 ^ 60) × (y ≤ 2 ^ 60) },
}
