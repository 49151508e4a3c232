//! What holds of the text of `why`. The functions do nothing, and take no memory; their contracts are the laws.
ghost use Rattle.std.specs.Prelude.{◌≡◌, ℕ, ◌<◌, ◌++◌, true, codes, length, map, suc, reverse, List as Items};
ghost use Rattle.std.specs.List.{AllByRecursion, AllZip, list_any};
ghost use Rattle.ttp_base.specs.Text.{newline};
ghost use Rattle.ttp_world.specs.Legal.{IsLegalRun};
ghost use Rattle.ttp_world.specs.Script.{IsValidScript};
ghost use Rattle.ttp_world.specs.Trace.{trace_lines};
ghost use Rattle.ttp_world.specs.World.{Numbers};
ghost use Rattle.causes.specs.declared.cause.ScriptLine.{ScriptLine as Line};
ghost use Rattle.causes.specs.declared.cause.Spot.{Spot};
ghost use Rattle.causes.specs.Causes.{cause_at};
ghost use Rattle.causes.specs.Reduced.{entry_alone, names_all_faults, places_of_lines, with_faults_at};
ghost use Rattle.causes.specs.Story.{story};
ghost use Rattle.causes.specs.WhyText.{entry_head, in_file_order, number_of_line, story_lines, why_text};
ghost use Rattle.why_story.specs.RunSource.{spot_at};
ghost use Rattle.why_answers.specs.Stories.{AreNamedAbove, AreRising, AreToldFrom, BeginWith, EndWith, OneBeginsWith};
ghost use Rattle.why_answers.specs.Stories.{OthersLeadBack, ShowsNamed, StandsAbove, first_slots, has_line_number, head_told};
ghost use Rattle.why_answers.specs.Stories.{lines_listed, spots_told, why_told};

use causes::{LineNumbers, ScriptLine};
use ttp_world::{Medl, Script};

/// A line of the script is listed if and only if an entry that is told names it (`listed`). The numbers of the lines that are
/// listed, and of those that an entry shows, rise (`rising`), and an entry shows the lines that it names (`shown`).
pub fn lines_are_listed(list: &Medl, script: &Script, numbers: &LineNumbers)
    ensures listed { (k slot n : ℕ) → has_line_number numbers.now n (lines_listed list.now script.now numbers.now k slot)
        ≡ list_any (λ t. has_line_number numbers.now n t.cause.lines) (why_told list.now script.now k slot) }
    ensures rising { (lines : Items Line) → AreRising (map (number_of_line numbers.now) (in_file_order numbers.now lines)) }
    ensures shown { (n : ℕ) (lines : Items Line)
        → has_line_number numbers.now n (in_file_order numbers.now lines) ≡ has_line_number numbers.now n lines }
{}

/// Each entry that is named is told above where it is named (`above`), and the line of an entry shows all that it names
/// (`shown`). The last is the one that was asked for, and each other is named by one below it (`named`) and leads back: it
/// names a line, or a clock past the window, or an entry above that leads back (`leads`).
pub fn stories_hold_together(list: &Medl, script: &Script)
    ensures above { (k slot : ℕ) → k < length list.now.slots → AreNamedAbove (why_told list.now script.now k slot) }
    ensures shown { (k slot : ℕ) → k < length list.now.slots
        → AllByRecursion (ShowsNamed (reverse (spots_told (why_told list.now script.now k slot))))
        (why_told list.now script.now k slot) }
    ensures named { (k slot : ℕ) → k < length list.now.slots
        → AreToldFrom (spot_at slot k) (why_told list.now script.now k slot) }
    ensures leads { (k slot : ℕ) → k < length list.now.slots → OthersLeadBack (why_told list.now script.now k slot) }
{}

/// A cause of an entry stands above the entry: it is an entry of an earlier slot, or one of its slot that hangs less on
/// what is heard in it.
pub fn causes_stand_above(list: &Medl, script: &Script)
    ensures { (count : ℕ) (spot : Spot) → spot.slot < count
        → AllByRecursion (λ cause. StandsAbove (first_slots list.now script.now count) cause spot)
        (cause_at (first_slots list.now script.now count) spot).entries }
{}

/// The text has a line for each entry that is told, the oldest first, which begins with the entry's slot, node, word
/// and peer (`text`). With these a line of the trace begins too, in each run of the script by legal message numbers
/// (`trace`).
pub fn lines_begin_as_in_the_trace(list: &Medl, script: &Script, numbers: &LineNumbers)
    requires script { IsValidScript list.now script.now }
    ensures text { (k slot : ℕ) → AllZip (λ line t. BeginWith (head_told (first_slots list.now script.now (suc slot)) t) line)
        (story_lines list.now numbers.now (first_slots list.now script.now (suc slot))
        (story script.now (first_slots list.now script.now (suc slot)) k))
        (reverse (why_told list.now script.now k slot)) }
    ensures trace { (legal : Numbers) (k slot : ℕ) → IsLegalRun list.now script.now legal → slot < script.now.slots
        → AllByRecursion (λ t. OneBeginsWith (head_told (first_slots list.now script.now (suc slot)) t)
        (trace_lines list.now script.now legal)) (why_told list.now script.now k slot) }
{}

/// Where all fault lines of a script are among the lines that the text lists, its last line is `alone yes`.
pub fn all_lines_suffice(list: &Medl, script: &Script, numbers: &LineNumbers)
    ensures { (k slot : ℕ)
        → names_all_faults (lines_listed list.now script.now numbers.now k slot) script.now ≡ true
        → EndWith (codes "alone yes" ++ newline) (why_text list.now script.now numbers.now k slot) }
{}

/// The entry by which `alone` and `needed` are told, in the run in which of all fault lines some are left, is that of the trace
/// of the script without the others: one of its lines begins with this slot, node, word and peer, whatever the legal message
/// numbers.
pub fn entries_alone_are_of_a_trace(list: &Medl, script: &Script, lines: &[ScriptLine])
    requires script { IsValidScript list.now script.now }
    ensures { (legal : Numbers) (k slot : ℕ)
        → IsLegalRun list.now (with_faults_at (places_of_lines lines.now) script.now) legal → k < length list.now.slots
        → slot < script.now.slots
        → OneBeginsWith (entry_head slot k (entry_alone list.now script.now lines.now slot k) ++ codes " ")
        (trace_lines list.now (with_faults_at (places_of_lines lines.now) script.now) legal) }
{}
