//! What came of a fault, and how that looks.
#![tactic(auto)]

ghost use Rattle.std.specs.Prelude.{◌≡◌, ◌≤◌, ◌<◌, get_or, length};
ghost use Rattle.chart_text.specs.declared.look.Look.TheVariants as look;
ghost use Rattle.chart_text.specs.Looks.{leaves_two, leaves_two_for_good, came_of, look_of, fault_look, is_harm, does_harm};
ghost use Rattle.chart_text.specs.Looks.{looks, look_number, look_text, look_letter, look_meaning};

use crate::size::Size;
use whole_campaign::FaultShown;

/// What came of a fault.
#[derive(Clone, Copy)]
pub enum Outcome {
    /// The run cost what the script's own does.
    Same,
    /// At the end no two nodes hold one membership.
    Dead,
    /// At the end there are two memberships, though there was time to mend it.
    Torn,
    /// Nodes that were not faulty held two memberships meanwhile.
    Split,
    /// A node left that was not faulty.
    Hurt,
    /// At the end there are two memberships, and there was no time to mend it.
    Late,
    /// It cost faulty nodes alone.
    Cost,
}

/// How a fault looks in a chart: by its outcome, and for two of them by whether the test covers the fault.
#[derive(Clone, Copy)]
pub enum Look {
    Same,
    SameOut,
    Cost,
    CostOut,
    Late,
    Hurt,
    Split,
    Torn,
    Dead,
}

/// How many looks there are.
pub(crate) const LOOKS: u8 = 9;

// Whether two memberships are left at the end.
fn leaves_two(fault: FaultShown) -> bool
    ensures { result ≡ leaves_two fault }
{
    2 <= fault.memberships
}

// Whether two memberships are left at the end, though there was time to mend it.
fn leaves_two_for_good(size: Size, fault: FaultShown) -> bool
    ensures { result ≡ leaves_two_for_good size fault }
{
    leaves_two(fault) && u64::from(fault.slot) + 2 * u64::from(size.nodes) <= u64::from(size.slots)
}

fn came_of(size: Size, fault: FaultShown) -> Outcome
    ensures { result ≡ came_of size fault }
{
    if fault.same {
        Outcome::Same
    } else if !fault.company {
        Outcome::Dead
    } else if leaves_two_for_good(size, fault) {
        Outcome::Torn
    } else if fault.split {
        Outcome::Split
    } else if 0 < fault.hurt {
        Outcome::Hurt
    } else if leaves_two(fault) {
        Outcome::Late
    } else {
        Outcome::Cost
    }
}

fn look_of(outcome: Outcome, yes: bool) -> Look
    ensures { result ≡ look_of outcome yes }
{
    match outcome {
        Outcome::Same => { if yes { Look::Same } else { Look::SameOut } }
        Outcome::Cost => { if yes { Look::Cost } else { Look::CostOut } }
        Outcome::Late => Look::Late,
        Outcome::Hurt => Look::Hurt,
        Outcome::Split => Look::Split,
        Outcome::Torn => Look::Torn,
        Outcome::Dead => Look::Dead,
    }
}

/// How a fault looks.
pub(crate) fn fault_look(size: Size, fault: FaultShown) -> Look
    ensures { result ≡ fault_look size fault }
{
    look_of(came_of(size, fault), fault.yes)
}

fn is_harm(look: Look) -> bool
    ensures { result ≡ is_harm look }
{
    match look {
        Look::Hurt | Look::Split | Look::Torn | Look::Dead => true,
        _ => false,
    }
}

/// Whether a fault is harmful.
pub(crate) fn does_harm(size: Size, fault: FaultShown) -> bool
    ensures { result ≡ does_harm size fault }
{
    is_harm(fault_look(size, fault))
}

/// The look of this number in the table.
pub(crate) fn look_at(number: u8) -> Look
    ensures { result ≡ get_or looks number look.Same }
{
    match number {
        1 => Look::SameOut,
        2 => Look::Cost,
        3 => Look::CostOut,
        4 => Look::Late,
        5 => Look::Hurt,
        6 => Look::Split,
        7 => Look::Torn,
        8 => Look::Dead,
        _ => Look::Same,
    }
}

/// Its number there.
pub(crate) fn look_number(look: Look) -> u8
    ensures value { result ≡ look_number look }
    ensures few { result < 9 }
{
    look as u8
}

// In the order of `Look`.
const LOOK_TEXTS: [&str; 9] = [
    "same", "same out", "cost", "cost out", "late", "hurt", "split", "torn", "dead",
];

/// The name of a look, by which the style sheet has its class.
pub(crate) fn look_text(look: Look) -> &'static str
    ensures text { result.now ≡ look_text look }
    ensures short { length result.now ≤ 8 }
{
    LOOK_TEXTS[look as usize]
}

// In the order of `Look`.
const LOOK_LETTERS: [&str; 9] = [".", "o", "c", "p", "e", "H", "S", "T", "X"];

/// The letter that is shown for it.
pub(crate) fn look_letter(look: Look) -> &'static str
    ensures text { result.now ≡ look_letter look }
    ensures short { length result.now ≤ 1 }
{
    LOOK_LETTERS[look as usize]
}

// In the order of `Look`.
const LOOK_MEANINGS: [&str; 9] = [
    "nothing changed",
    "nothing changed; the fault is outside the hypothesis",
    "faulty nodes left, and nobody else",
    "the same; the fault is outside the hypothesis",
    "two memberships, but the run ends too soon to tell",
    "hurt: a healthy node left",
    "split: healthy nodes held two memberships for a while",
    "torn: two memberships are left at the end",
    "dead: at the end no two nodes are together",
];

/// What it means.
pub(crate) fn look_meaning(look: Look) -> &'static str
    ensures text { result.now ≡ look_meaning look }
    ensures short { length result.now ≤ 60 }
{
    LOOK_MEANINGS[look as usize]
}
