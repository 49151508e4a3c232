//! The lines of pairs.
ghost use Rattle.std.specs.Prelude.{◌≡◌, ◌++◌, codes, decimal, OnOk};
ghost use Rattle.ttp_world.specs.Medl.{IsValid};
ghost use Rattle.ttp_world.specs.Script.{IsValidScript};
ghost use Rattle.fault_runs.specs.Listing.{in_order};
ghost use Rattle.fault_runs.specs.Told.{told_summary};
ghost use Rattle.fault_pairs.specs.Classes.{harm_of};
ghost use Rattle.fault_pairs.specs.Pairs.{FirstFault, second_apart};
ghost use Rattle.fault_pairs.specs.PairText.{pairs_head_line, pair_line, first_fault_line, pair_counts_line};
ghost use Rattle.pair_classes.specs.Ordered.{AreOrdered};
ghost use Rattle.pair_text.specs.Words.{pairs_head_words};

use crate::words::{put_counts, put_pair_faults, put_pair_harms, put_pair_place, put_run};
use campaign::Cost;
use fault_pairs::{Harm, PairClass, PairCounts};
use fault_runs::campaign_text::{fault_node, put_fault, put_place};
use pair_classes::Harms;
use ttp_base::{GrowingText, Memory};
use ttp_world::{Event, Medl, Script};

/// Two faults, the slot in which the first one begins, and how many slots later the second one does.
#[derive(Clone, Copy)]
pub struct Pair<'a> {
    pub slot: u32,
    pub apart: u32,
    pub one: &'a Event,
    pub two: &'a Event,
}

// Adds the first line, by its first words and its numbers.
fn put_head_words(
    text: &mut GrowingText,
    name: &str,
    nodes: u8,
    slots: u32,
    first: u32,
    last: u32,
    within: u32,
) -> Result<(), Memory>
    ensures { OnOk result (text.new ≡ text.old ++ pairs_head_words name.now nodes slots first last within) }
{
    text.put_labelled(name, u64::from(nodes))?;
    text.put_labelled(" slots ", u64::from(slots))?;
    text.put_labelled(" from ", u64::from(first))?;
    text.put_labelled(" to ", u64::from(last))?;
    text.put_labelled(" within ", u64::from(within))?;
    text.put("\n")
}

/// Adds the first line: the nodes and slots, and the range and the distance as they were asked for.
///
/// # Errors
///
/// As of each of these functions, where memory was refused; some of the line may have been added.
pub fn put_head(
    text: &mut GrowingText,
    list: &Medl,
    script: &Script,
    first: u32,
    last: u32,
    within: u32,
) -> Result<(), Memory>
    requires { IsValid list.now }
    ensures { OnOk result (text.new ≡ text.old ++ pairs_head_line list.now script.now first last within) }
{
    let name = "ttplab pairs 1 nodes ";
    put_head_words(text, name, list.nodes(), script.slots, first, last, within)
}

/// Adds the line of a pair of this class, by what the script's own run did and what the runs with both faults and with each
/// alone did; `both` is the script with both, and `cost` what its run cost. It costs the test of that script.
///
/// # Errors
///
/// Where memory was refused; some of the line may have been added.
pub fn put_pair(
    text: &mut GrowingText,
    list: &Medl,
    class: PairClass,
    pair: &Pair,
    own: &Harm,
    harms: &Harms,
    both: &Script,
    cost: &Cost,
) -> Result<(), Memory>
    requires valid { IsValid list.now }
    requires script { IsValidScript list.now both.now }
    requires hurt { in_order cost.now.hurt ≡ cost.now.hurt }
    requires ordered { AreOrdered harms.now }
    requires harm { harms.now.both ≡ harm_of cost.now }
    ensures { (one : FirstFault) → one.slot ≡ pair.now.slot → one.fault ≡ pair.now.one.now
        → OnOk result (text.new ≡ text.old ++ pair_line list.now class one (second_apart pair.now.apart pair.now.two.now)
        own.now harms.now.one harms.now.two (told_summary list.now both.now cost.now)) }
{
    put_pair_place(text, class, pair.slot, pair.apart, pair.one, pair.two)?;
    put_pair_harms(text, own, fault_node(pair.one), fault_node(pair.two), harms)?;
    put_run(text, list, both, cost)?;
    put_pair_faults(text, pair.one, pair.two)
}

/// Adds the line of a first fault, with the counts of its pairs; `more` is the script with it, and `cost` what its run cost. It
/// costs the test of that script.
///
/// # Errors
///
/// Where memory was refused; some of the line may have been added.
pub fn put_first(
    text: &mut GrowingText,
    list: &Medl,
    fault: &Event,
    more: &Script,
    cost: &Cost,
    counts: &PairCounts,
) -> Result<(), Memory>
    requires valid { IsValid list.now }
    requires script { IsValidScript list.now more.now }
    requires hurt { in_order cost.now.hurt ≡ cost.now.hurt }
    ensures { (one : FirstFault) → one.fault ≡ fault.now
        → OnOk result (text.new ≡ text.old
        ++ first_fault_line list.now one (told_summary list.now more.now cost.now) counts.now) }
{
    put_place(text, fault)?;
    put_run(text, list, more, cost)?;
    text.put(" ")?;
    put_counts(text, counts)?;
    text.put(" fault ")?;
    put_fault(text, fault)?;
    text.put("\n")
}

/// Adds a line of counts under this name.
///
/// # Errors
///
/// Where memory was refused; some of the line may have been added.
pub fn put_sum(text: &mut GrowingText, name: &str, counts: &PairCounts) -> Result<(), Memory>
    ensures { OnOk result (text.new ≡ text.old ++ pair_counts_line name.now counts.now) }
{
    text.put(name)?;
    put_counts(text, counts)?;
    text.put("\n")
}

/// Adds the line of counts of a distance.
///
/// # Errors
///
/// Where memory was refused; some of the line may have been added.
pub fn put_apart(text: &mut GrowingText, distance: u32, counts: &PairCounts) -> Result<(), Memory>
    ensures { OnOk result (text.new
        ≡ text.old ++ pair_counts_line (codes "apart " ++ decimal distance ++ codes " ") counts.now) }
{
    text.put_labelled("apart ", u64::from(distance))?;
    text.put(" ")?;
    put_counts(text, counts)?;
    text.put("\n")
}
