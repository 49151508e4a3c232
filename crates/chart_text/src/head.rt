//! The head of a chart: its size, its styles, and what the campaign comes to.
#![tactic(auto, using(ttp_base::proofs::Room::room))]

ghost use Rattle.std.specs.Prelude.{◌≡◌, ◌+◌, ◌≤◌, [], ◌++◌, length, codes};
ghost use Rattle.whole_campaign.specs.Own.{own_of};
ghost use Rattle.picture_text.specs.Cells.{title_element};
ghost use Rattle.picture_text.specs.Picture.{class_of, text_line};
ghost use Rattle.ttp_base.specs.Sheet.{Puts};
ghost use Rattle.chart_text.specs.Chart.{chart_ground, chart_svg, chart_title, chart_styles};
ghost use Rattle.chart_text.specs.Chart.{harm_text, hidden_text, test_meaning, counts_told, counted_lines, own_lines, chart_front};

use crate::buffer::Buffer;
use crate::element::put_many;
use crate::size::Size;
use crate::sums::CountsByTest;
use campaign::Counts;
use picture_text::{
    back_meaning, close_text, open_text, open_text_of, put_field, put_keep_meaning,
};
use ttp_base::{Line, Sheet, Sink};
use whole_campaign::{OwnLine, Test};

// The lines of the styles, those of the looks in the order of the table.
const STYLE_LINES: [&str; 18] = [
    "<style>\n",
    "text{font:12px DejaVu Sans Mono,Consolas,monospace}g text{text-anchor:middle;font-size:11px}\n",
    ".same{fill:#f3f6f8}.same text{fill:#5c7482}\n",
    ".same.out{fill:#eeeeee}.same.out text{fill:#505050}\n",
    ".cost{fill:#d6e8f5}.cost text{fill:#000000}\n",
    ".cost.out{fill:#dddddd}.cost.out text{fill:#000000}\n",
    ".late{fill:#e8e0a8}.late text{fill:#000000}\n",
    ".hurt{fill:#f0a800}.hurt text{fill:#000000}\n",
    ".split{fill:#d04a00}.split text{fill:#ffffff}\n",
    ".torn{fill:#8a2fa0}.torn text{fill:#ffffff}\n",
    ".dead{fill:#000000}.dead text{fill:#ffffff}\n",
    ".none{fill:#ffffff}.none text{fill:#666666}.sends rect{stroke:#00497a;stroke-width:2}\n",
    ".row{text-anchor:end}.slot{text-anchor:middle;font-size:10px;fill:#444444}.said{font-weight:bold}\n",
    ".many,.zero{text-anchor:end;font-size:10px}.zero{fill:#b0b0b0}.flag{pointer-events:none}.keep{font-size:10px}\n",
    "path{stroke:#000000;stroke-opacity:0}path.hurt,path.split,path.torn,path.dead{stroke-width:.5}\n",
    "path.hurt,path.split,path.torn,path.dead,.flag,.gap{stroke-opacity:1}\n",
    ".gap{stroke-dasharray:2;pointer-events:none}.key{fill:#ffffff;stroke:#808080}.key text{fill:#000000;stroke:none}\n",
    "</style>\n",
];

// What stands between how many faults there are and what the worst costs.
const FAULTS_ARE_HARMFUL: &str =
    " faults are harmful; the most healthy nodes that one of them costs: ";

fn make_svg(line: &mut Line, height: u64)
    ensures { line.new ≡ chart_svg height }
{
    line.clear();
    let words = "<svg xmlns=\"http://www.w3.org/2000/svg\" width=\"1320\" height=\"";
    put_field(line, words, height);
    put_field(line, "\" viewBox=\"0 0 1320 ", height);
    line.put_text("\">\n");
}

fn make_title(line: &mut Line, size: Size)
    ensures { line.new ≡ chart_title size }
{
    line.clear();
    let words = "<title>ttplab campaign 1 nodes ";
    put_field(line, words, u64::from(size.nodes));
    put_field(line, " slots ", u64::from(size.slots));
    line.put_text("</title>\n");
}

// Writes all styles.
fn put_styles<K: Sink>(sheet: &mut Sheet, out: &mut K)
    ensures { Puts sheet.old.failed (K.output out.old) sheet.new.failed (K.output out.new) chart_styles }
{
    sheet.put_lines(&STYLE_LINES, out);
}

fn make_ground(line: &mut Line, height: u64)
    ensures { line.new ≡ chart_ground height }
{
    line.clear();
    put_field(line, "<rect width=\"1320\" height=\"", height);
    line.put_text("\" fill=\"#ffffff\"/>\n");
}

/// Writes the front of a chart of this height.
pub(crate) fn put_front<K: Sink>(size: Size, height: u64, sheet: &mut Sheet, out: &mut K)
    ensures { Puts sheet.old.failed (K.output out.old) sheet.new.failed (K.output out.new) (chart_front size height) }
{
    make_svg(&mut sheet.line, height);
    sheet.write(out);
    make_title(&mut sheet.line, size);
    sheet.write(out);
    put_styles(sheet, out);
    make_ground(&mut sheet.line, height);
    sheet.write(out);
}

/// Makes the line of how many faults are harmful, and what the worst of them costs.
pub(crate) fn make_harm(line: &mut Line, harmful: u64, all: u64, most: u8, nodes: u8)
    ensures { line.new ≡ text_line (class_of (codes "said")) 12 20 (harm_text harmful all most nodes) }
{
    open_text_of(line, "said", 12, 20);
    put_many(line, harmful, " of ");
    put_many(line, all, FAULTS_ARE_HARMFUL);
    put_many(line, u64::from(most), " of ");
    line.put_number(u64::from(nodes));
    close_text(line);
}

/// Adds that faults of a slot that is not shown are harmful too.
pub(crate) fn put_hidden(line: &mut Line, hidden: Option<u32>)
    requires { length line.old ≤ 500 }
    ensures text { line.new ≡ line.old ++ hidden_text hidden }
    ensures short { length line.new ≤ length line.old + 60 }
{
    if let Some(slot) = hidden {
        put_field(line, "; faults of slot ", u64::from(slot));
        line.put_text(" are harmful too");
    }
}

// Adds what came of the faults that these count.
fn put_counts(line: &mut Line, place: &str, counts: &Counts)
    requires { (length line.old ≤ 100) × (length place.now ≤ 10) }
    ensures text { line.new ≡ line.old ++ counts_told place.now counts.now }
    ensures short { length line.new ≤ length line.old + 340 }
{
    put_many(line, counts.runs, " faults ");
    line.put_text(place);
    line.put_text(" the single-fault hypothesis: ");
    put_many(line, counts.same, " changed nothing, ");
    put_many(line, counts.hurt, " cost healthy nodes, ");
    put_many(line, counts.split, " split them, ");
    put_many(line, counts.torn, " left several memberships, ");
    put_many(line, counts.dead, " left no two nodes together");
}

// Makes the line of some counts.
fn make_counts(line: &mut Line, y: u64, place: &str, counts: &Counts)
    requires { length place.now ≤ 10 }
    ensures { line.new ≡ text_line [] 12 y (counts_told place.now counts.now) }
{
    open_text(line, 12, y);
    put_counts(line, place, counts);
    close_text(line);
}

/// Writes the counts of all pieces.
#[tactic(auto, using(ttp_base::proofs::Puts::puts))]
pub(crate) fn put_sums<K: Sink>(sums: CountsByTest, sheet: &mut Sheet, out: &mut K)
    ensures { Puts sheet.old.failed (K.output out.old) sheet.new.failed (K.output out.new)
        (counted_lines sums.kept sums.broken) }
{
    make_counts(&mut sheet.line, 98, "within", &sums.kept);
    sheet.write(out);
    make_counts(&mut sheet.line, 114, "outside", &sums.broken);
    sheet.write(out);
}

// Makes the line of the script's own run.
fn make_own(buffer: &mut Buffer, line: &mut Line, own: OwnLine<'_>)
    requires { length own.text.now + length own.cost.now + 200 ≤ buffer.old.room }
    ensures text { buffer.new.text ≡ text_line [] 12 60
        (title_element own.entry.text.now ++ codes "without any of them: " ++ own.entry.cost.now) }
    ensures room { buffer.new.room ≡ buffer.old.room }
{
    open_text(line, 12, 60);
    line.put_text("<title>");
    buffer.clear();
    buffer.put_bytes(line.bytes());
    buffer.put_bytes(own.text);
    buffer.put_bytes(b"</title>without any of them: ");
    buffer.put_bytes(own.cost);
    buffer.put_bytes(b"</text>\n");
}

// Adds what the test of the script means.
fn put_meaning(line: &mut Line, test: &Test)
    requires { length line.old ≤ 400 }
    ensures text { line.new ≡ line.old ++ test_meaning test.now }
    ensures short { length line.new ≤ length line.old + 130 }
{
    match test {
        Test::Keep(keep) => put_keep_meaning(line, keep),
        Test::Back(back) => line.put_text(back_meaning(back)),
    }
}

// Makes the line of the script's test.
fn make_said(buffer: &mut Buffer, line: &mut Line, own: OwnLine<'_>)
    requires { length own.test_text.now + 300 ≤ buffer.old.room }
    ensures text { buffer.new.text ≡ text_line [] 12 78 (own.entry.test_text.now ++ codes ": " ++ test_meaning own.entry.test) }
    ensures room { buffer.new.room ≡ buffer.old.room }
{
    open_text(line, 12, 78);
    buffer.clear();
    buffer.put_bytes(line.bytes());
    buffer.put_bytes(own.test_text);
    line.clear();
    line.put_text(": ");
    put_meaning(line, &own.test);
    close_text(line);
    buffer.put_bytes(line.bytes());
}

/// Writes what the script's own line says.
#[tactic(auto, using(ttp_base::proofs::Puts::puts))]
pub(crate) fn put_own<K: Sink>(
    own: OwnLine<'_>,
    buffer: &mut Buffer,
    sheet: &mut Sheet,
    out: &mut K,
)
    requires own { length own.text.now + length own.cost.now + 200 ≤ buffer.old.room }
    requires test { length own.test_text.now + 300 ≤ buffer.old.room }
    ensures puts { Puts sheet.old.failed (K.output out.old) sheet.new.failed (K.output out.new)
        (own_lines (own_of own.entry)) }
    ensures room { buffer.new.room ≡ buffer.old.room }
{
    make_own(buffer, &mut sheet.line, own);
    sheet.put(buffer.bytes(), out);
    make_said(buffer, &mut sheet.line, own);
    sheet.put(buffer.bytes(), out);
}
