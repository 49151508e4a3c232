//! The lines on rules that are not kept.
ghost use Rattle.std.specs.Prelude.{◌≡◌, ◌++◌, IfOk, OnOk};
ghost use Rattle.ttp_world.specs.Medl.{IsValid};
ghost use Rattle.warning_words.specs.Warnings.{clocks_line, window_line, disturbed_line, no_start_line, lost_line, early_line, few_line, arm_line};
ghost use Rattle.warning_words.specs.Warnings.{line_if, condition_lines, fault_warnings, warning_lines, window_alone, files_of};

use crate::files::Files;
use crate::rule_lines::{
    arm_line, begun, clocks_line, disturbed_line, early_line, few_line, lost_line, no_start_line,
    window_line,
};
use crate::texts::put_window;
use broken_arms::BrokenArm;
use broken_faults::{EarlyFault, LostFrame, TooFew};
use broken_rules::{BrokenRules, Disturbed, NoStart, PastBound};
use check_words::{Place, Text};
use std::alloc::Global;
use ttp_base::{List, Memory};
use ttp_world::Medl;

// Adds the line on a rule, if it is not kept.
fn add_clocks(
    alloc: Global,
    files: &Files<'_>,
    past: &Option<PastBound>,
    lines: &mut List<Text>,
) -> Result<(), Memory>
    ensures { OnOk result (lines.new ≡ lines.old ++ line_if (clocks_line (files_of files.now)) past.now) }
{
    match past {
        Some(past) => lines.push(clocks_line(alloc, files, past)?),
        None => Ok(()),
    }
}

fn add_window(
    alloc: Global,
    files: &Files<'_>,
    due: &Option<i64>,
    lines: &mut List<Text>,
) -> Result<(), Memory>
    requires { IsValid files.now.list.now }
    ensures { OnOk result (lines.new ≡ lines.old ++ line_if (window_line (files_of files.now)) due.now) }
{
    match due {
        Some(due) => lines.push(window_line(alloc, files, due)?),
        None => Ok(()),
    }
}

fn add_disturbed(
    alloc: Global,
    files: &Files<'_>,
    disturbed: &Option<Disturbed>,
    lines: &mut List<Text>,
) -> Result<(), Memory>
    requires { IsValid files.now.list.now }
    ensures { OnOk result (lines.new ≡ lines.old ++ line_if (disturbed_line (files_of files.now)) disturbed.now) }
{
    match disturbed {
        Some(disturbed) => lines.push(disturbed_line(alloc, files, disturbed)?),
        None => Ok(()),
    }
}

fn add_no_start(
    alloc: Global,
    files: &Files<'_>,
    why: Option<NoStart>,
    lines: &mut List<Text>,
) -> Result<(), Memory>
    ensures { OnOk result (lines.new ≡ lines.old ++ line_if (no_start_line (files_of files.now)) why) }
{
    match why {
        Some(why) => lines.push(no_start_line(alloc, files, why)?),
        None => Ok(()),
    }
}

fn add_lost(
    alloc: Global,
    files: &Files<'_>,
    lost: Option<LostFrame>,
    lines: &mut List<Text>,
) -> Result<(), Memory>
    ensures { OnOk result (lines.new ≡ lines.old ++ line_if (lost_line (files_of files.now)) lost) }
{
    match lost {
        Some(lost) => lines.push(lost_line(alloc, files, lost)?),
        None => Ok(()),
    }
}

fn add_early(
    alloc: Global,
    files: &Files<'_>,
    fault: Option<EarlyFault>,
    lines: &mut List<Text>,
) -> Result<(), Memory>
    ensures { OnOk result (lines.new ≡ lines.old ++ line_if (early_line (files_of files.now)) fault) }
{
    match fault {
        Some(fault) => lines.push(early_line(alloc, files, fault)?),
        None => Ok(()),
    }
}

fn add_few(
    alloc: Global,
    files: &Files<'_>,
    few: Option<TooFew>,
    lines: &mut List<Text>,
) -> Result<(), Memory>
    ensures { OnOk result (lines.new ≡ lines.old ++ line_if (few_line (files_of files.now)) few) }
{
    match few {
        Some(few) => lines.push(few_line(alloc, files, few)?),
        None => Ok(()),
    }
}

fn add_arm(
    alloc: Global,
    files: &Files<'_>,
    arm: Option<BrokenArm>,
    lines: &mut List<Text>,
) -> Result<(), Memory>
    ensures { OnOk result (lines.new ≡ lines.old ++ line_if (arm_line (files_of files.now)) arm) }
{
    match arm {
        Some(arm) => lines.push(arm_line(alloc, files, arm)?),
        None => Ok(()),
    }
}

// Adds the lines on the first four rules.
fn add_conditions(
    alloc: Global,
    files: &Files<'_>,
    broken: &BrokenRules,
    lines: &mut List<Text>,
) -> Result<(), Memory>
    requires { IsValid files.now.list.now }
    ensures { OnOk result (lines.new ≡ lines.old ++ condition_lines (files_of files.now) broken.now) }
{
    add_clocks(alloc, files, &broken.conditions.clocks, lines)?;
    add_window(alloc, files, &broken.conditions.window, lines)?;
    add_disturbed(alloc, files, &broken.conditions.disturbed, lines)?;
    add_no_start(alloc, files, broken.conditions.start, lines)
}

// Adds those on the others.
fn add_faults(
    alloc: Global,
    files: &Files<'_>,
    broken: &BrokenRules,
    lines: &mut List<Text>,
) -> Result<(), Memory>
    ensures { OnOk result (lines.new ≡ lines.old ++ fault_warnings (files_of files.now) broken.now) }
{
    add_lost(alloc, files, broken.faults.lost, lines)?;
    add_early(alloc, files, broken.faults.early, lines)?;
    add_few(alloc, files, broken.faults.few, lines)?;
    add_arm(alloc, files, broken.arm, lines)
}

/// The lines on the rules that a script breaks, in the order of the rules: one for each, at most eight.
///
/// For each the lines of the script are gone over as far as the one that is named.
///
/// # Errors
///
/// Where memory was refused.
#[tactic(auto, unfolding(crate::specs::Warnings::warning_lines))]
pub fn warning_lines(
    alloc: Global,
    files: &Files<'_>,
    broken: &BrokenRules,
) -> Result<List<Text>, Memory>
    requires { IsValid files.now.list.now }
    ensures { IfOk result (λ lines. lines ≡ warning_lines (files_of files.now) broken.now) }
{
    let mut lines = List::new(alloc);
    add_conditions(alloc, files, broken, &mut lines)?;
    add_faults(alloc, files, broken, &mut lines)?;
    Ok(lines)
}

/// The line on a window that is too narrow, of a list alone.
///
/// # Errors
///
/// Where memory was refused.
pub fn window_alone(
    alloc: Global,
    list: &Medl,
    name: &[u8],
    window: Place,
    due: &i64,
) -> Result<Text, Memory>
    requires { IsValid list.now }
    ensures { IfOk result (λ text. text ≡ window_alone list.now name.now window due.now) }
{
    let mut text = begun(alloc, name, window, false, 2, None)?;
    put_window(&mut text, list, false, due)?;
    text.put("\n")?;
    Ok(text)
}
