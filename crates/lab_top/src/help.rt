//! The word `--help`.
ghost use Rattle.std.specs.Prelude.{OnOk, OnErr};
ghost use Rattle.ttp_base.specs.Outside.{WroteLines, CutShort};
ghost use Rattle.ttp_base.specs.Sheet.{Puts};
ghost use Rattle.commands.specs.Outcome.{ShowsEnding};
ghost use Rattle.commands.specs.Texts.{alone};
ghost use Rattle.lab_top.specs.Forms.{help_ending};
ghost use Rattle.lab_top.specs.Help.{help_lines};
ghost use Rattle.lab_top.specs.Texts.{ttplab};

use ttp_base::{Failed, Sheet, Sink};

// What the program is for, a line for each form, and where the pages are.
const HELP_LINES: [&str; 14] = [
    "ttplab 1.0.0: pictures of traces, and campaigns of single faults, of clusters of TTP/C controllers\n",
    "\n",
    "wave TRACE                           a waveform of the trace, for a viewer of VCD files\n",
    "picture TRACE [FIRST LAST]           a picture of the trace, or of these slots of it, as SVG\n",
    "campaign LIST SCRIPT FIRST LAST      what each single fault in these slots costs, a line for each\n",
    "chart CAMPAIGN [FIRST LAST]          a picture of a campaign, or of these slots of it, as SVG\n",
    "check LIST [SCRIPT]                  each mistake in both files, with its place and the way out\n",
    "why LIST SCRIPT NODE [SLOT]          why the node left, or why this entry of it is what it is, line by line\n",
    "frames LIST SCRIPT TRACE             each frame on the bus in the run of a trace, byte by byte\n",
    "margins LIST SCRIPT [FIRST LAST]     from which drift on, or jump in these slots, a clock costs others\n",
    "pairs LIST SCRIPT FIRST LAST WITHIN  what every two faults cost more than each alone, those that cost others by name\n",
    "script LIST SLOTS NUMBER             the script that ttpbench sample runs, as a text\n",
    "\n",
    "docs/FIRST.md is the page to begin with; docs/VIEWS.md, docs/CAMPAIGNS.md, docs/CHARTS.md, docs/FRAMES.md, docs/CHECK.md, docs/WHY.md, docs/MARGINS.md and docs/PAIRS.md have the forms.\n",
];

// Writes them.
fn put_help<K: Sink>(sheet: &mut Sheet, out: &mut K)
    ensures { Puts sheet.old.failed (K.output out.old) sheet.new.failed (K.output out.new) help_lines }
{
    sheet.put_lines(&HELP_LINES, out);
}

// Writes the help, and says whether all of it was written.
fn write_help<K: Sink>(out: &mut K) -> Result<(), Failed>
    ensures ok { OnOk result (WroteLines (K.output out.old) (K.output out.new) help_lines) }
    ensures failed { OnErr result (CutShort (K.output out.old) (K.output out.new) help_lines) }
{
    let mut sheet = Sheet::new();
    put_help(&mut sheet, out);
    sheet.end()
}

/// What each form writes.
pub(crate) fn help<K: Sink>(out: &mut K) -> u8
    ensures { ShowsEnding ttplab help_ending (K.output out.old) (K.output out.new) (alone result) }
{
    match write_help(out) {
        Ok(()) => 0,
        Err(_) => 6,
    }
}
