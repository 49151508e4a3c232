//! The lines of a text, and the line and the column of a byte.
ghost use Rattle.std.specs.Prelude.{◌≡◌, ◌≤◌, ◌∷◌, length, IfOk};
ghost use Rattle.list_places.specs.Places as spec;
ghost use Rattle.list_places.specs.Lines.{starts_from};

use std::alloc::Global;
use ttp_base::Memory;

/// A byte of a text by its line and its column, both counted from 1. A tab is one column.
#[derive(Clone, Copy, PartialEq, Eq)]
pub struct Place {
    pub line: usize,
    pub column: usize,
}

/// Where the lines of a text begin.
pub(crate) fn line_starts(alloc: Global, text: &[u8]) -> Result<Vec<usize>, Memory>
    ensures { IfOk result (λ starts. starts.items ≡ 0 ∷ starts_from 0 text.now) }
{
    let mut starts = Vec::new(alloc);
    starts.push(0)?;
    for at in 0..text.len() {
        if text[at] == b'\n' {
            starts.push(at + 1)?;
        }
    }
    Ok(starts)
}

// The place of a byte of a text, or of its end.
fn place_within(starts: &[usize], text: &[u8], at: usize) -> Place
    requires within { at ≤ length text.now }
    requires lines { starts.now ≡ 0 ∷ starts_from 0 text.now }
    ensures { result ≡ spec.line_and_column text.now at }
{
    let line = starts.partition_point(|start| *start <= at);
    let start = starts.get(line.saturating_sub(1)).copied().unwrap_or(0);
    Place {
        line,
        column: at.saturating_sub(start) + 1,
    }
}

/// The place of a byte of a text whose lines begin here, or of its end.
pub(crate) fn place_of(starts: &[usize], text: &[u8], at: usize) -> Place
    requires { starts.now ≡ 0 ∷ starts_from 0 text.now }
    ensures { result ≡ spec.line_and_column text.now at }
{
    place_within(starts, text, at.min(text.len()))
}
