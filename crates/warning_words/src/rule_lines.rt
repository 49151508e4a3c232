//! The line on a rule that is not kept.
ghost use Rattle.std.specs.Prelude.{◌≡◌, ◌++◌, position, Some, None, IfOk, OnOk};
ghost use Rattle.ttp_world.specs.Medl.{IsValid};
ghost use Rattle.warning_words.specs.Warnings.{rule_letter, rule_text, slot_words, warning_front, adds_error, clocks_line, window_line};
ghost use Rattle.warning_words.specs.Warnings.{disturbed_line, no_start_line, lost_line, early_line, few_line, arm_line};
ghost use Rattle.warning_words.specs.Warnings.{warning_on, said_place, files_of};
ghost use Rattle.warning_words.specs.Texts.{no_start_text};
ghost use Rattle.broken_rules.specs.declared.clocks.PastBound.TheVariants as past;
ghost use Rattle.broken_rules.specs.declared.start.NoStart.TheVariants as why;

use crate::files::Files;
use crate::stated::{SaidLine, Wanted, cause_line, first_line};
use crate::texts::{
    put_arm, put_disturbance, put_drift, put_early, put_errors, put_few, put_lost, put_no_start,
    put_window,
};
use broken_arms::BrokenArm;
use broken_faults::{EarlyFault, LostFrame, TooFew};
use broken_rules::{Disturbed, NoStart, PastBound};
use check_words::{Piece, Place, Text, put_pieces, put_place};
use std::alloc::Global;
use ttp_base::{Memory, NodeSet};
use ttp_world::{Event, Script};

// The letter of a rule.
fn rule_letter(armed: bool) -> &'static str
    ensures { result.now ≡ rule_letter armed }
{
    if armed { "Q" } else { "H" }
}

// Adds a rule with its letter, behind the word for the line.
fn put_rule(text: &mut Text, armed: bool, rule: u8) -> Result<(), Memory>
    ensures { OnOk result (text.new ≡ text.old ++ rule_text armed rule) }
{
    let pieces = [
        Piece::Words("warning: "),
        Piece::Words(rule_letter(armed)),
        Piece::Number(rule as u64),
    ];
    put_pieces(text, &pieces)
}

// Adds the slot of a rule.
fn put_in_slot(text: &mut Text, slot: u32) -> Result<(), Memory>
    ensures { OnOk result (text.new ≡ text.old ++ slot_words (Some slot)) }
{
    let pieces = [
        Piece::Words(" slot "),
        Piece::Number(slot as u64),
        Piece::Words(": "),
    ];
    put_pieces(text, &pieces)
}

// Adds the slot that is named for a rule, where one is.
fn put_slot(text: &mut Text, slot: Option<u32>) -> Result<(), Memory>
    ensures { OnOk result (text.new ≡ text.old ++ slot_words slot) }
{
    match slot {
        Some(slot) => put_in_slot(text, slot),
        None => text.put(": "),
    }
}

// A line that has begun: what stands before what is said.
pub(crate) fn begun(
    alloc: Global,
    name: &[u8],
    place: Place,
    armed: bool,
    rule: u8,
    slot: Option<u32>,
) -> Result<Text, Memory>
    ensures { IfOk result (λ text. text ≡ warning_front name.now place armed rule slot) }
{
    let mut text = Text::new(alloc);
    put_place(&mut text, name, place)?;
    put_rule(&mut text, armed, rule)?;
    put_slot(&mut text, slot)?;
    Ok(text)
}

// The place of a line of the script.
fn place_of(said: SaidLine) -> Place
    ensures { result ≡ said_place said }
{
    Place {
        line: said.line as usize,
        column: said.column as usize,
    }
}

// A line that has begun, on a rule at a line of the script.
fn begun_on(
    alloc: Global,
    files: &Files<'_>,
    said: SaidLine,
    rule: u8,
    slot: Option<u32>,
) -> Result<Text, Memory>
    ensures { IfOk result (λ text. text ≡ warning_front files.now.script_name.now (said_place said) files.now.armed rule slot) }
{
    begun(
        alloc,
        files.script_name,
        place_of(said),
        files.armed,
        rule,
        slot,
    )
}

// The same at a key of the list.
fn begun_in_list(alloc: Global, files: &Files<'_>, place: Place, rule: u8) -> Result<Text, Memory>
    ensures { IfOk result (λ text. text ≡ warning_front files.now.list_name.now place files.now.armed rule None) }
{
    begun(alloc, files.list_name, place, files.armed, rule, None)
}

// Whether an event adds to the reading errors of a node in a slot.
fn adds_error(node: u8, slot: u32, event: &Event) -> bool
    ensures { result ≡ adds_error node slot event.now }
{
    match event {
        Event::Error {
            node: of,
            from,
            to,
            ..
        } => *of == node && *from <= slot && slot <= *to,
        _ => false,
    }
}

// The place of the first event that adds to them.
fn error_place(script: &Script, node: u8, slot: u32) -> Option<usize>
    ensures { result ≡ position (adds_error node slot) script.now.events }
{
    script
        .events
        .as_slice()
        .iter()
        .position(|event| adds_error(node, slot, event))
}

// The line on drifts past the list's bound.
#[tactic(auto, unfolding(crate::specs::Warnings::clocks_line))]
fn drifts_line(alloc: Global, files: &Files<'_>, nodes: NodeSet) -> Result<Text, Memory>
    ensures { IfOk result (λ text. text ≡ clocks_line (files_of files.now) (past.Drifts nodes)) }
{
    let said = first_line(Wanted::DriftAmong { nodes }, files.others);
    let mut text = begun_on(alloc, files, said, 1, None)?;
    put_drift(&mut text, files.list, files.script, said.number)?;
    text.put("\n")?;
    Ok(text)
}

// The line on reading errors past it.
#[tactic(auto, unfolding(crate::specs::Warnings::clocks_line))]
fn errors_line(
    alloc: Global,
    files: &Files<'_>,
    slot: u32,
    node: u8,
    sum: &i64,
) -> Result<Text, Memory>
    ensures { IfOk result (λ text. text ≡ clocks_line (files_of files.now) (past.Errors slot node sum.now)) }
{
    let said = cause_line(
        error_place(files.script, node, slot),
        files.events,
        files.others,
    );
    let mut text = begun_on(alloc, files, said, 1, Some(slot))?;
    put_errors(&mut text, files.list, node, sum)?;
    text.put("\n")?;
    Ok(text)
}

pub(crate) fn clocks_line(
    alloc: Global,
    files: &Files<'_>,
    past: &PastBound,
) -> Result<Text, Memory>
    ensures { IfOk result (λ text. text ≡ clocks_line (files_of files.now) past.now) }
{
    match past {
        PastBound::Drifts { nodes } => drifts_line(alloc, files, *nodes),
        PastBound::Errors { slot, node, sum } => errors_line(alloc, files, *slot, *node, sum),
    }
}

#[tactic(auto, unfolding(crate::specs::Warnings::window_line))]
pub(crate) fn window_line(alloc: Global, files: &Files<'_>, due: &i64) -> Result<Text, Memory>
    requires { IsValid files.now.list.now }
    ensures { IfOk result (λ text. text ≡ window_line (files_of files.now) due.now) }
{
    let mut text = begun_in_list(alloc, files, files.window, 2)?;
    put_window(&mut text, files.list, files.armed, due)?;
    text.put("\n")?;
    Ok(text)
}

#[tactic(auto, unfolding(crate::specs::Warnings::disturbed_line))]
pub(crate) fn disturbed_line(
    alloc: Global,
    files: &Files<'_>,
    disturbed: &Disturbed,
) -> Result<Text, Memory>
    requires { IsValid files.now.list.now }
    ensures { IfOk result (λ text. text ≡ disturbed_line (files_of files.now) disturbed.now) }
{
    let said = cause_line(Some(disturbed.place), files.events, files.others);
    let mut text = begun_on(alloc, files, said, 3, Some(disturbed.slot))?;
    put_disturbance(&mut text, files.list, &disturbed.by)?;
    text.put("\n")?;
    Ok(text)
}

// The line on a start that there is not, at a line that is wanted.
fn no_start_on(
    alloc: Global,
    files: &Files<'_>,
    said: SaidLine,
    node: u32,
    why: NoStart,
) -> Result<Text, Memory>
    ensures { IfOk result (λ text. text
        ≡ warning_on (files_of files.now) said 4 None (no_start_text files.now.script.now node why)) }
{
    let mut text = begun_on(alloc, files, said, 4, None)?;
    put_no_start(&mut text, files.script, node, why)?;
    text.put("\n")?;
    Ok(text)
}

// The same at the list.
#[tactic(auto, unfolding(crate::specs::Warnings::no_start_line))]
fn no_starter(alloc: Global, files: &Files<'_>) -> Result<Text, Memory>
    ensures { IfOk result (λ text. text ≡ no_start_line (files_of files.now) why.NoStarter) }
{
    let mut text = begun_in_list(alloc, files, files.slot, 4)?;
    put_no_start(&mut text, files.script, 0, NoStart::NoStarter)?;
    text.put("\n")?;
    Ok(text)
}

#[tactic(auto, unfolding(crate::specs::Warnings::no_start_line))]
pub(crate) fn no_start_line(alloc: Global, files: &Files<'_>, why: NoStart) -> Result<Text, Memory>
    ensures { IfOk result (λ text. text ≡ no_start_line (files_of files.now) why) }
{
    match why {
        NoStart::NoStarter => no_starter(alloc, files),
        NoStart::NobodyOn | NoStart::NoStarterOn { .. } => {
            let said = first_line(Wanted::Slots, files.others);
            no_start_on(alloc, files, said, 0, why)
        }
        NoStart::Rivals { second, .. } => {
            let wanted = Wanted::On {
                node: u32::from(second),
            };
            let said = first_line(wanted, files.others);
            no_start_on(alloc, files, said, 0, why)
        }
        NoStart::Late { nodes, .. } => {
            let said = first_line(Wanted::OnAmong { nodes }, files.others);
            no_start_on(alloc, files, said, said.number, why)
        }
    }
}

#[tactic(auto, unfolding(crate::specs::Warnings::lost_line))]
pub(crate) fn lost_line(alloc: Global, files: &Files<'_>, lost: LostFrame) -> Result<Text, Memory>
    ensures { IfOk result (λ text. text ≡ lost_line (files_of files.now) lost) }
{
    let said = cause_line(lost.cause, files.events, files.others);
    let mut text = begun_on(alloc, files, said, 5, Some(lost.slot))?;
    put_lost(&mut text, lost)?;
    text.put("\n")?;
    Ok(text)
}

#[tactic(auto, unfolding(crate::specs::Warnings::early_line))]
pub(crate) fn early_line(
    alloc: Global,
    files: &Files<'_>,
    fault: EarlyFault,
) -> Result<Text, Memory>
    ensures { IfOk result (λ text. text ≡ early_line (files_of files.now) fault) }
{
    let said = cause_line(fault.cause, files.events, files.others);
    let mut text = begun_on(alloc, files, said, 6, Some(fault.slot))?;
    put_early(&mut text, fault)?;
    text.put("\n")?;
    Ok(text)
}

#[tactic(auto, unfolding(crate::specs::Warnings::few_line))]
pub(crate) fn few_line(alloc: Global, files: &Files<'_>, few: TooFew) -> Result<Text, Memory>
    ensures { IfOk result (λ text. text ≡ few_line (files_of files.now) few) }
{
    let said = cause_line(few.cause, files.events, files.others);
    let mut text = begun_on(alloc, files, said, 7, Some(few.slot))?;
    put_few(&mut text, few)?;
    text.put("\n")?;
    Ok(text)
}

#[tactic(auto, unfolding(crate::specs::Warnings::arm_line))]
pub(crate) fn arm_line(alloc: Global, files: &Files<'_>, arm: BrokenArm) -> Result<Text, Memory>
    ensures { IfOk result (λ text. text ≡ arm_line (files_of files.now) arm) }
{
    let said = cause_line(Some(arm.place), files.events, files.others);
    let mut text = begun_on(alloc, files, said, 8, Some(arm.slot))?;
    put_arm(&mut text, arm)?;
    text.put("\n")?;
    Ok(text)
}
