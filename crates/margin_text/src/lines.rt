//! The lines of margins.
ghost use Rattle.std.specs.Prelude.{◌≡◌, ◌+◌, ◌<◌, ◌≤◌, ◌++◌, [], length, get_or, codes};
ghost use Rattle.ttp_base.specs.NodeSet.{most_nodes};
ghost use Rattle.line_form.specs.Forms.{spelled, spelled_line};
ghost use Rattle.ttp_world.specs.declared.script.Script.{Script};
ghost use Rattle.ttp_world.specs.Medl.{IsValid};
ghost use Rattle.clock_margins.specs.Forms.{clock_words, clock_place, costs_words, costs_place, truth_words, truth_place};
ghost use Rattle.clock_margins.specs.Forms.{range_form, range_values, outcome_form, outcome_values};
ghost use Rattle.clock_margins.specs.Forms.{all_form, all_values};
ghost use Rattle.clock_margins.specs.MarginText.{margins_head, range_line, margin_line};
ghost use Rattle.clock_margins.specs.Sweeps.{reach};
ghost use Rattle.margin_text.specs.Taken.{range_of, IsWritable};

pub use crate::put::ROOM;
use crate::put::{
    put_first, put_greatest, put_last, put_least, put_nearest, put_nodes, put_sets, put_slot,
};
use crate::range::{OpenRange, whom_it_costs};
use campaign::Span;
use clock_margins::{Costs, Margin, Outcome, Sweep, Total};
use line_form::{Text, put_number, put_signed, put_word};
use ttp_world::{Medl, Script};

// The word of drifts, or of jumps, where there are slots.
fn clock_word_of(slot: Option<u32>) -> &'static str
    ensures text { result.now ≡ get_or clock_words (clock_place slot) [] }
    ensures short { length result.now ≤ 5 }
{
    match slot {
        Some(_) => "jump",
        None => "drift",
    }
}

fn clock_word_asked(asked: Option<Span>) -> &'static str
    ensures text { result.now ≡ get_or clock_words (clock_place asked) [] }
    ensures short { length result.now ≤ 5 }
{
    match asked {
        Some(_) => "jump",
        None => "drift",
    }
}

fn costs_word(costs: Costs) -> &'static str
    ensures text { result.now ≡ get_or costs_words (costs_place costs) [] }
    ensures short { length result.now ≤ 6 }
{
    match costs {
        Costs::Nobody => "nobody",
        Costs::Itself => "itself",
        Costs::Others => "others",
    }
}

fn truth_word(truth: bool) -> &'static str
    ensures text { result.now ≡ get_or truth_words (truth_place truth) [] }
    ensures short { length result.now ≤ 3 }
{
    if truth { "yes" } else { "no" }
}

/// The first line.
pub fn form_head(line: &mut Text<ROOM>, list: &Medl, script: &Script, asked: Option<Span>, far: u32)
    requires valid { IsValid list.now }
    requires reach { far ≡ reach list.now asked }
    ensures { line.new ≡ margins_head list.now script.now asked }
{
    line.clear();
    put_number(line, "ttplab margins 1 nodes ", u64::from(list.nodes()));
    put_number(line, " slots ", u64::from(script.slots));
    put_first(line, " from ", asked);
    put_last(line, " to ", asked);
    put_signed(line, " drift ", list.drift);
    put_signed(line, " window ", list.window);
    put_number(line, " reach ", u64::from(far));
    line.put_text("\n");
}

// What stands before the test in the line of a range.
fn put_place(line: &mut Text<ROOM>, sweep: Sweep, range: &OpenRange)
    requires room { length line.old + 150 ≤ 2048 }
    requires node { sweep.node < most_nodes }
    ensures text { line.new ≡ line.old ++ spelled range_form (range_values sweep (range_of range.now)) }
    ensures short { length line.new ≤ length line.old + 150 }
{
    put_word(line, "", clock_word_of(sweep.slot));
    put_number(line, " node ", u64::from(sweep.node));
    put_slot(line, " slot ", sweep.slot);
    put_signed(line, " from ", range.from);
    put_signed(line, " to ", range.to);
    put_word(
        line,
        " costs ",
        costs_word(whom_it_costs(sweep.node, &range.outcome)),
    );
}

// What stands behind it.
fn put_outcome(line: &mut Text<ROOM>, list: &Medl, outcome: &Outcome)
    requires room { length line.old ≤ 300 }
    requires valid { IsValid list.now }
    requires outcome { IsWritable outcome.now }
    ensures { line.new ≡ line.old ++ spelled_line (outcome_form list.now) (outcome_values list.now outcome.now) }
{
    put_nodes(line, " left ", outcome.left);
    put_nodes(line, " hurt ", outcome.hurt);
    put_word(line, " split ", truth_word(outcome.split));
    put_sets(line, " end ", list, outcome.end.as_slice());
    line.put_text("\n");
}

// The words of a test behind a space.
#[tactic(auto, using(ttp_base::proofs::Room::room))]
fn put_test(line: &mut Text<ROOM>, test: &Text<64>)
    requires room { length line.old ≤ 150 }
    ensures text { line.new ≡ line.old ++ (codes " " ++ test.now) }
    ensures short { length line.new ≤ 300 }
{
    // A test has 64 bytes at most, which its room tells.
    let _free = test.room();
    line.put_text(" ");
    line.put_bytes(test.bytes());
}

/// The line of a range.
pub fn form_range(line: &mut Text<ROOM>, list: &Medl, sweep: Sweep, range: &OpenRange)
    requires valid { IsValid list.now }
    requires node { sweep.node < most_nodes }
    requires outcome { IsWritable range.now.outcome }
    ensures { line.new ≡ range_line list.now sweep (range_of range.now) }
{
    line.clear();
    put_place(line, sweep, range);
    put_test(line, &range.test);
    put_outcome(line, list, &range.outcome);
}

/// The line of a sweep.
pub fn form_margin(line: &mut Text<ROOM>, sweep: Sweep, margin: &Margin)
    ensures { line.new ≡ margin_line sweep margin.now }
{
    line.clear();
    put_word(line, "margin ", clock_word_of(sweep.slot));
    put_number(line, " node ", u64::from(sweep.node));
    put_slot(line, " slot ", sweep.slot);
    put_number(line, " ranges ", margin.ranges);
    put_number(line, " nobody ", margin.counts.nobody);
    put_number(line, " itself ", margin.counts.itself);
    put_number(line, " others ", margin.counts.others);
    put_least(line, " free ", margin.free);
    put_greatest(line, " ", margin.free);
    put_least(line, " below ", margin.below);
    put_greatest(line, " ", margin.below);
    put_least(line, " above ", margin.above);
    put_greatest(line, " ", margin.above);
    put_number(line, " most ", margin.most);
    line.put_text("\n");
}

/// The last line.
pub fn form_all(line: &mut Text<ROOM>, asked: Option<Span>, total: &Total)
    ensures { line.new ≡ spelled_line all_form (all_values asked total.now) }
{
    line.clear();
    put_word(line, "all ", clock_word_asked(asked));
    put_number(line, " sweeps ", total.sweeps);
    put_number(line, " values ", total.values);
    put_number(line, " nobody ", total.counts.nobody);
    put_number(line, " itself ", total.counts.itself);
    put_number(line, " others ", total.counts.others);
    put_least(line, " free ", total.free);
    put_greatest(line, " ", total.free);
    put_nearest(line, " least ", total.least);
    put_number(line, " most ", total.most);
    line.put_text("\n");
}
