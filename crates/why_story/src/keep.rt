//! What is kept of what was reached.
ghost use Rattle.std.specs.Prelude.{List as Items, ◌≡◌, ◌∷◌, [], ℕ, filter, IfOk, OnOk};
ghost use Rattle.causes.specs.declared.cause.Spot.{Spot};
ghost use Rattle.causes.specs.Story.{has_spot, kept_of_told};
ghost use Rattle.why_story.specs.Marks.{AreMarked, AreInSlots, AreToldWithin};
ghost use Rattle.why_story.specs.Keeps.{Keeps};

use crate::marks::Marks;
use causes::{Cause, Spot, Told};
use std::alloc::Global;
use ttp_base::{List, Memory};

/// What was kept, the newest first, and what is marked by it.
#[derive(Drop)]
pub struct Kept {
    pub marks: Marks,
    pub told: List<Told>,
}

// Those of some entries that lead back.
fn named(alloc: Global, back: &Marks, entries: &[Spot]) -> Result<List<Spot>, Memory>
    ensures { (count : ℕ) (leading : Items Spot) → AreMarked count leading back.now → AreInSlots count leading
        → IfOk result (λ named. named ≡ filter (has_spot leading) entries.now) }
{
    let mut named = List::new(alloc);
    for entry in entries {
        if back.has(*entry) {
            named.push(*entry)?;
        }
    }
    Ok(named)
}

// Keeps an entry, if it is marked, with those of its entries that lead back, and marks these.
fn keep_one(alloc: Global, back: &Marks, told: Told, kept: &mut Kept) -> Result<(), Memory>
    ensures { (count : ℕ) (leading marked : Items Spot) → AreMarked count leading back.now → AreInSlots count leading
        → AreMarked count marked kept.old.marks → AreToldWithin count (told ∷ [])
        → OnOk result (Keeps count leading kept.old.told marked (told ∷ []) [] kept.new) }
{
    if !kept.marks.has(told.spot) {
        return Ok(());
    }
    let Told { spot, cause } = told;
    let Cause {
        because,
        lines,
        entries,
    } = cause;
    let entries = named(alloc, back, entries.as_slice())?;
    kept.marks.mark_all(entries.as_slice());
    kept.told.push(Told {
        spot,
        cause: Cause {
            because,
            lines,
            entries,
        },
    })
}

/// What is kept of some entries of the first so many slots, the newest first, beginning with one.
///
/// # Errors
///
/// Where memory was refused.
pub(crate) fn kept_from(
    alloc: Global,
    back: &Marks,
    slots: u32,
    asked: Spot,
    told: List<Told>,
) -> Result<List<Told>, Memory>
    requires { AreToldWithin slots told }
    ensures { (leading : Items Spot) → AreMarked slots leading back.now → AreInSlots slots leading
        → IfOk result (λ kept. kept ≡ kept_of_told leading (asked ∷ []) told) }
{
    let mut marks = Marks::new(alloc, slots)?;
    marks.mark(asked);
    let mut kept = Kept {
        marks,
        told: List::new(alloc),
    };
    let mut left = told.into_vec().into_iter();
    while let Some(one) = left.next() {
        keep_one(alloc, back, one, &mut kept)?;
    }
    let Kept { told, .. } = kept;
    Ok(told)
}
