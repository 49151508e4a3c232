//! A command, from its words to its status.
ghost use Rattle.std.specs.Prelude.{◌≡◌, ◌≢◌, ℕ, List, Option, Some, None};
ghost use Rattle.campaign.specs.declared.cost.Span.{Span as Slots};
ghost use Rattle.picture_text.specs.declared.window.Span.{Span};
ghost use Rattle.commands.specs.Outcome.{Follows};
ghost use Rattle.commands.specs.Plan.{outside};
ghost use Rattle.commands.specs.Texts.{alone};
ghost use Rattle.commands.specs.Words.{texts_of};
ghost use Rattle.lab_top.specs.CampaignPromise.{CampaignPromise};
ghost use Rattle.lab_top.specs.CheckPromise.{CheckPromise};
ghost use Rattle.lab_top.specs.Forms.{lab_plan_of};
ghost use Rattle.lab_top.specs.FramesPromise.{FramesPromise};
ghost use Rattle.lab_top.specs.MarginPromise.{MarginPromise};
ghost use Rattle.lab_top.specs.PairPromise.{PairPromise};
ghost use Rattle.lab_top.specs.Promise.{LabPromise};
ghost use Rattle.lab_top.specs.ScriptPromise.{ScriptPromise};
ghost use Rattle.lab_top.specs.Texts.{ttplab};
ghost use Rattle.lab_top.specs.ViewPromise.{WavePromise, PicturePromise, ChartPromise};
ghost use Rattle.lab_top.specs.Words.{wave, picture, campaign, chart, check, frames, margins, pairs, script_by, why, lab_form_of, lab_form_asked, HasScriptSlots};
ghost use Rattle.lab_top.specs.WhyPromise.{WhyPromise};

use crate::chart::chart;
use crate::check::check;
use crate::faults::campaign;
use crate::frames::frames;
use crate::generated::script;
use crate::help::help;
use crate::margins::margins;
use crate::pairs::pairs;
use crate::picture::picture;
use crate::wave::wave;
use crate::why::why;
use crate::words::{Command, command_of};
use commands::say;
use std::alloc::Global;
use std::thread::Threads;
use ttp_base::{Library, Sink};

const USAGE: &str =
    "usage: wave TRACE | picture TRACE [FIRST LAST] | campaign LIST SCRIPT FIRST LAST \
    | chart CAMPAIGN [FIRST LAST] | check LIST [SCRIPT] | why LIST SCRIPT NODE [SLOT] \
    | frames LIST SCRIPT TRACE | margins LIST SCRIPT [FIRST LAST] \
    | pairs LIST SCRIPT FIRST LAST WITHIN | script LIST SLOTS NUMBER\n";

const VERSION: &str = "ttplab 1.0.0 (rattle-kit-13f logic dac8208d650f15bf)\n";

// What the words ask for.
fn obey<R: Threads + Sync, L: Library, K: Sink>(
    rt: &R,
    alloc: Global,
    command: Command<'_>,
    library: &mut L,
    out: &mut K,
) -> u8
    requires slots { HasScriptSlots command }
    ensures follows { Follows ttplab (lab_plan_of (lab_form_asked command.entry))
        (outside (L.files library.old) (K.output out.old)) (outside (L.files library.new) (K.output out.new))
        (alone result) }
    ensures no_form { lab_form_asked command.entry ≡ None → result ≢ 7 }
{
    match command {
        Command::Wave { trace } => wave(alloc, trace, library, out),
        Command::Picture { trace, asked } => picture(alloc, trace, asked, library, out),
        Command::Campaign {
            list,
            script,
            first,
            last,
        } => campaign(rt, alloc, list, script, first, last, library, out),
        Command::Why {
            list,
            script,
            node,
            slot,
        } => why(alloc, list, script, node, slot, library, out),
        Command::Chart { campaign, asked } => chart(alloc, campaign, asked, library, out),
        Command::Check { list, script } => check(alloc, list, script, library, out),
        Command::Frames {
            list,
            script,
            trace,
        } => frames(alloc, list, script, trace, library, out),
        Command::Margins {
            list,
            script,
            asked,
        } => margins(rt, alloc, list, script, asked, library, out),
        Command::Pairs {
            list,
            script,
            first,
            last,
            within,
        } => pairs(rt, alloc, list, script, first, last, within, library, out),
        Command::Script {
            list,
            slots,
            number,
        } => script(alloc, list, slots, number, library, out),
        Command::Help => help(out),
        Command::Version => say(out, VERSION.as_bytes(), 0),
        Command::NoForm => say(out, USAGE.as_bytes(), 2),
    }
}

/// Does what the words spell, and answers its status. The words are those after the program's name.
///
/// There are ten forms. `wave TRACE` writes a waveform, a text in the format VCD that wave viewers read, and
/// `picture TRACE [FIRST LAST]` a picture, a text in the format SVG that browsers show, of the slots from FIRST
/// to LAST, or else of those that are chosen. These FIRST and LAST are 1 to 5 decimal digits. What is taken for
/// a trace says `whole_in` of whole_trace: its form is asked for, and not whether it is right.
/// `campaign LIST SCRIPT FIRST LAST` runs the list with the script, and with each single fault more that is
/// tried in the slots from FIRST to LAST, and writes a line on what each run cost. These are 1 to 9 decimal
/// digits, and FIRST is not past LAST. `chart CAMPAIGN [FIRST LAST]` writes a picture of what each fault of a
/// campaign cost, or of several that follow each other, of the slots from FIRST to LAST, or else of those that are
/// chosen, as for `picture`. What is taken for a campaign says `campaign_in` of whole_campaign.
/// `check LIST [SCRIPT]` writes what is wrong with the list, and with the script, a line for each fault with its place, and where
/// nothing is, each rule of the hypothesis that the script does not keep; the last line counts them. Both files are loaded before
/// anything is looked at.
/// `why LIST SCRIPT NODE [SLOT]` writes why the node did in the slot what it did, or why it left last: the lines of the script and
/// the entries that had a part in it, and whether these lines alone suffice. NODE and SLOT are 1 to 9 decimal digits.
/// `frames LIST SCRIPT TRACE` writes the frames on both channels of the bus, byte by byte and with the faults of the script, for a
/// trace of the script for the list; of any other text it names the first wrong line, as `ttpbench verify` does.
/// `margins LIST SCRIPT [FIRST LAST]` runs the list with the script once for each whole value of a node's drift, or of its jump in
/// each slot from FIRST to LAST, and writes the ranges of values that cost the same, and from which value on one costs others.
/// `pairs LIST SCRIPT FIRST LAST WITHIN` runs the list with the script and each two faults more, of which the first is one of
/// `campaign LIST SCRIPT FIRST LAST` and the second begins in the same slot or up to WITHIN slots later, and writes which pairs cost
/// more than their faults do alone; WITHIN is 1 to 9 decimal digits, too.
/// `script LIST SLOTS NUMBER` writes the script that the number gives for the list, in a run of so many slots, as a text
/// that is read as this script; `ttpbench sample` runs the same one. SLOTS is 1 to 20 decimal digits of a number
/// from 1 to 20,000, and NUMBER of one of 64 bits. `--help` and `--version`, each alone, say what each form writes and which
/// version this is.
///
/// | status | comes | what is written |
/// |---|---|---|
/// | 0 | the command was done; for `check` nothing is wrong and all rules are kept; for `frames` the text is a trace | the whole output |
/// | 1 | for `frames`, exactly where TRACE is the trace text for no legal message numbers | `differs at line N` |
/// | 1 | for `why`, exactly where no slot is asked for and the node never leaves | `node K does not leave` |
/// | 3, 4 | for `why`, also where the list has no such node, and where the run has no such slot | `list: nodes 0 to M`, `script: slots 0 to L` |
/// | 1, 3, 4 | for `check`, exactly where a rule is not kept and nothing is wrong, where the list has a fault, where the script alone has one | a line for each, and the counts |
/// | 2 | exactly where the words have no form | the usage line |
/// | 3 | for `campaign`, `frames`, `margins`, `pairs`, `script` and `why`, exactly where the list is longer than 1,048,576 bytes or refused | a line that begins `list: ` |
/// | 4 | for a view, exactly where the text is longer than 134,217,728 bytes, is no trace, or lacks the slots | `trace: too large`, `trace: line N` with its first line that is not due or is missing, or `trace: slots 0 to L` with its last slot |
/// | 4 | for `chart`, exactly where the text is longer than that, is no campaign, or no slot is to be shown | `campaign: too large`, `campaign: line N`, or `campaign: no slot to show` |
/// | 4 | for `campaign`, `frames`, `margins`, `pairs` and `why`, exactly where the script is longer than 1,048,576 bytes or refused | a line that begins `script: ` |
/// | 5 | only where the count of the file's name rose, and no earlier refusal came | `load: trace`, `load: campaign`, `load: list` or `load: script` |
/// | 6 | only where the sink's count rose | so many whole lines of a text that was due, and a front of the next |
/// | 7 | out of memory; for `pairs` also a script of 131,071 events, which has no room for two more | nothing, or for `campaign`, `check`, `margins` and `pairs` some whole lines of it, fewer than all |
///
/// The library is asked for the files of the form, each once, in the order of the words, and for a script only
/// where the list is not refused; for words of no form it is left alone. The text of a trace is held while it is
/// shown, and gone over a few times; a picture takes no other memory, and a waveform a few bytes for each source
/// that a host reads. For `frames` the trace is gone over twice, with a plant of the list: once to judge it, and once to write
/// its frames; all memory is taken before the first line of them. A campaign of n lines runs the cluster n times at most, each
/// from the slot of its fault to the script's last one; the runs of a slot's faults are made side by side in as many threads as
/// there are processors, and their lines are held until all of them were made. It takes memory for the runs of a slot, and
/// keeps none of it. Margins run the cluster once for each value, a drift from slot 0 and a jump from its slot on, 512 values side by
/// side, and hold one range of a sweep at a time. Each line is one piece, so the cost is one write for each line.
pub fn lab<R: Threads + Sync, L: Library, K: Sink>(
    rt: &R,
    alloc: Global,
    words: &[String],
    library: &mut L,
    out: &mut K,
) -> u8
    // The promise of every form: what is asked for, how it ends, and what is written.
    ensures promise { LabPromise (lab_form_of (texts_of words.now)) (outside (L.files library.old) (K.output out.old))
        (outside (L.files library.new) (K.output out.new)) (alone result) }
    // For `wave`, in its own words: status 0 is exactly the waveform of the trace that the file holds, and status 4
    // the line on a text that is none. A trace gives its waveform, any other text its line; with status 6 it was cut
    // short, and with status 7 nothing is written.
    ensures wave { (trace : List ℕ) → lab_form_of (texts_of words.now) ≡ Some (wave trace)
        → WavePromise trace (outside (L.files library.old) (K.output out.old))
        (outside (L.files library.new) (K.output out.new)) result }
    // For `picture`, in its own words: status 0 is exactly the picture of the trace that the file holds, of the slots that
    // are asked for, or else of those that are chosen, and status 4 the line on a text that is no trace; with status 6 it
    // was cut short, and with status 7 nothing is written.
    ensures picture { (trace : List ℕ) (asked : Option Span) → lab_form_of (texts_of words.now) ≡ Some (picture trace asked)
        → PicturePromise trace asked (outside (L.files library.old) (K.output out.old))
        (outside (L.files library.new) (K.output out.new)) result }
    // For `campaign`, in its own words: status 0 is exactly the campaign of the list and the script that the files hold,
    // and status 3 or 4 the line on a file that is refused. Right files give it, any others their line; with status 6 it
    // was cut short, and with status 7 nothing is written, or some first lines of it and never all. Of the text of
    // status 0 it says what a yes is worth: in each line whose test says yes nobody was hurt and memberships were never
    // split, and the line `kept` counts none.
    ensures campaign { (list script : List ℕ) (first last : ℕ)
        → lab_form_of (texts_of words.now) ≡ Some (campaign list script first last)
        → CampaignPromise list script first last (outside (L.files library.old) (K.output out.old))
        (outside (L.files library.new) (K.output out.new)) result }
    // For `check`, in its own words: status 0, 1, 3 and 4 say that exactly the lines on the files that were loaded were
    // written, and the status is theirs: 3 exactly where the list is refused, by the words of its first error, else 4 exactly
    // where the script is, and else 0 exactly where the test says yes. With status 6 they were cut short, and with status 7
    // nothing is written, or some first lines and never all.
    ensures check { (list : List ℕ) (script : Option (List ℕ)) → lab_form_of (texts_of words.now) ≡ Some (check list script)
        → CheckPromise list script (outside (L.files library.old) (K.output out.old))
        (outside (L.files library.new) (K.output out.new)) result }
    // For `frames`, in its own words: status 0 is exactly the frames of the third file, which is a trace of the second for the
    // first, and status 1 exactly the line that names the first wrong line of one that is none, however long it is. Right
    // files give one of the two, a list or a script that is refused its line; with status 6 it was cut short, and with
    // status 7 nothing is written.
    ensures frames { (list script trace : List ℕ) → lab_form_of (texts_of words.now) ≡ Some (frames list script trace)
        → FramesPromise list script trace (outside (L.files library.old) (K.output out.old))
        (outside (L.files library.new) (K.output out.new)) result }
    // For `margins`, in its own words, as for `campaign`: status 0 is exactly the margins of the list and the script that the
    // files hold, over the drifts of all nodes, or over the jumps in the slots that are asked for. Of the text of status 0 it says
    // what its ranges and sums are worth, and that where a test says yes a value costs nobody else; and that pieces of a
    // range of slots have the lines and the sums of the whole.
    ensures margins { (list script : List ℕ) (asked : Option Slots)
        → lab_form_of (texts_of words.now) ≡ Some (margins list script asked)
        → MarginPromise list script asked (outside (L.files library.old) (K.output out.old))
        (outside (L.files library.new) (K.output out.new)) result }
    // For `pairs`, in its own words: status 0 is exactly the pairs of the list and the script that the files hold, and status 3
    // or 4 the line on a file that is refused, as for `campaign`. Of the text of status 0 it says what its lines are read of, that
    // its counts add up, and what a yes is worth; and pieces of a range are the whole.
    ensures pairs { (list script : List ℕ) (first last within : ℕ)
        → lab_form_of (texts_of words.now) ≡ Some (pairs list script first last within)
        → PairPromise list script first last within (outside (L.files library.old) (K.output out.old))
        (outside (L.files library.new) (K.output out.new)) result }
    // For `script`, in its own words: status 0 is exactly the text of the script that the number gives for the list that the
    // file holds, and status 3 the line on a file that is none. A right list gives the text, any other its line; with status 6
    // it was cut short, and with status 7 nothing is written.
    ensures script { (list : List ℕ) (slots number : ℕ) → lab_form_of (texts_of words.now) ≡ Some (script_by list slots number)
        → ScriptPromise list slots number (outside (L.files library.old) (K.output out.old))
        (outside (L.files library.new) (K.output out.new)) result }
    // For `why`, in its own words: status 0 is exactly the lines of the story of the entry that is asked for, by the list and the
    // script that the files hold, and status 1 the line on a node that never leaves. Status 3 or 4 is the line on a file that is
    // refused, or on a node or a slot that they have not. With status 6 it was cut short, and with status 7 nothing is written.
    ensures why { (list script : List ℕ) (node : ℕ) (slot : Option ℕ)
        → lab_form_of (texts_of words.now) ≡ Some (why list script node slot)
        → WhyPromise list script node slot (outside (L.files library.old) (K.output out.old))
        (outside (L.files library.new) (K.output out.new)) result }
    // For `chart`, in its own words, as for `picture`, of a campaign: status 0 is exactly the chart of the campaign that the
    // file holds, of the slots that are asked for, or else of those that are chosen.
    ensures chart { (name : List ℕ) (asked : Option Span) → lab_form_of (texts_of words.now) ≡ Some (chart name asked)
        → ChartPromise name asked (outside (L.files library.old) (K.output out.old))
        (outside (L.files library.new) (K.output out.new)) result }
{
    obey(rt, alloc, command_of(words), library, out)
}
