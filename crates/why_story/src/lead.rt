//! What leads back to a line of the script, or to a clock past the window.
ghost use Rattle.std.specs.Prelude.{List as Items, ◌≡◌, ◌<◌, ℕ, IfOk};
ghost use Rattle.causes.specs.declared.cause.Spot.{Spot};
ghost use Rattle.causes.specs.Story.{is_clock_miss, is_past_window, leads_back, leading};
ghost use Rattle.why_story.specs.Marks.{AreMarked, AreInSlots, AreToldWithin};

use crate::marks::Marks;
use causes::{Because, Cause, Miss, Told};
use std::alloc::Global;
use ttp_base::Memory;

fn is_clock_miss(miss: &Miss) -> bool
    ensures { result ≡ is_clock_miss miss.now }
{
    matches!(miss, Miss::Clock { .. })
}

fn is_past_window(because: &Because) -> bool
    ensures { result ≡ is_past_window because.now }
{
    match because {
        Because::Missed(miss) => is_clock_miss(miss),
        Because::MissedOnEach { a, b } => is_clock_miss(a) || is_clock_miss(b),
        _ => false,
    }
}

// Whether a cause leads back, where these do.
fn leads_back(back: &Marks, cause: &Cause) -> bool
    ensures { (count : ℕ) (spots : Items Spot) → AreMarked count spots back.now → AreInSlots count spots
        → result ≡ leads_back spots cause.now }
{
    cause.lines.len() != 0
        || is_past_window(&cause.because)
        || back.has_any(cause.entries.as_slice())
}

/// Which of some entries lead back, of the first so many slots, the newest first.
///
/// # Errors
///
/// Where memory was refused.
pub(crate) fn leading(alloc: Global, slots: u32, told: &[Told]) -> Result<Marks, Memory>
    requires { AreToldWithin slots told.now }
    ensures marks { IfOk result (AreMarked slots (leading told.now)) }
    ensures within { AreInSlots slots (leading told.now) }
{
    let mut back = Marks::new(alloc, slots)?;
    let mut place = told.len();
    while 0 < place {
        place -= 1;
        let one = &told[place];
        if leads_back(&back, &one.cause) {
            back.mark(one.spot);
        }
    }
    Ok(back)
}
