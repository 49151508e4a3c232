//! The words of the lines of pairs.
ghost use Rattle.std.specs.Prelude.{◌≡◌, ◌++◌, codes, map, OnOk, IfOk};
ghost use Rattle.std.specs.Fmt.{decimal};
ghost use Rattle.ttp_world.specs.Medl.{IsValid};
ghost use Rattle.ttp_world.specs.Script.{IsValidScript};
ghost use Rattle.campaign.specs.CostText.{listed};
ghost use Rattle.campaign.specs.Lines.{fault_node};
ghost use Rattle.fault_runs.specs.Listing.{in_order};
ghost use Rattle.fault_runs.specs.Told.{told_summary};
ghost use Rattle.fault_pairs.specs.Classes.{third_nodes};
ghost use Rattle.fault_pairs.specs.PairText.{class_word, counts_words, test_and_cost, newly_left, pair_place, pair_harms, pair_faults};
ghost use Rattle.pair_classes.specs.Ordered.{IsOrdered, AreOrdered};

use campaign::Cost;
use fault_pairs::{Harm, PairClass, PairCounts};
use fault_runs::campaign_text::{fault_node, put_cost, put_fault, put_nodes, put_test};
use pair_classes::{Harms, newly_left, third_nodes};
use ttp_base::{GrowingText, Memory, NodeSet};
use ttp_world::{Event, Medl, Script};

// Adds the word of a class.
fn put_class(text: &mut GrowingText, class: PairClass) -> Result<(), Memory>
    ensures { OnOk result (text.new ≡ text.old ++ class_word class) }
{
    match class {
        PairClass::Sum => text.put("sum"),
        PairClass::Less => text.put("less"),
        PairClass::Own => text.put("own"),
        PairClass::Divided => text.put("divided"),
        PairClass::Third => text.put("third"),
        PairClass::Torn => text.put("torn"),
        PairClass::Dead => text.put("dead"),
    }
}

/// Adds how many pairs there are, and how many of each class.
pub(crate) fn put_counts(text: &mut GrowingText, counts: &PairCounts) -> Result<(), Memory>
    ensures { OnOk result (text.new ≡ text.old ++ counts_words counts.now) }
{
    text.put_labelled("pairs ", counts.pairs)?;
    text.put_labelled(" sum ", counts.sum)?;
    text.put_labelled(" less ", counts.less)?;
    text.put_labelled(" own ", counts.own)?;
    text.put_labelled(" divided ", counts.divided)?;
    text.put_labelled(" third ", counts.third)?;
    text.put_labelled(" torn ", counts.torn)?;
    text.put_labelled(" dead ", counts.dead)
}

/// Adds what the test of a script says and what its run cost. Returns whether it says yes.
pub(crate) fn put_run(
    text: &mut GrowingText,
    list: &Medl,
    script: &Script,
    cost: &Cost,
) -> Result<(), Memory>
    requires valid { IsValid list.now }
    requires script { IsValidScript list.now script.now }
    requires hurt { in_order cost.now.hurt ≡ cost.now.hurt }
    ensures { OnOk result (text.new
        ≡ text.old ++ test_and_cost list.now (told_summary list.now script.now cost.now)) }
{
    put_test(text, list, script)?;
    text.put(" ")?;
    put_cost(text, list, cost)
}

/// Adds where a pair stands: its class, its slots and its nodes.
pub(crate) fn put_pair_place(
    text: &mut GrowingText,
    class: PairClass,
    slot: u32,
    apart: u32,
    one: &Event,
    two: &Event,
) -> Result<(), Memory>
    ensures { OnOk result (text.new ≡ text.old ++ pair_place class slot apart one.now two.now) }
{
    text.put("pair ")?;
    put_class(text, class)?;
    text.put_labelled(" slot ", u64::from(slot))?;
    text.put_labelled(" apart ", u64::from(apart))?;
    text.put_labelled(" nodes ", u64::from(fault_node(one)))?;
    text.put_labelled(" ", u64::from(fault_node(two)))
}

// Adds the nodes of a set.
fn put_third(text: &mut GrowingText, third: NodeSet) -> Result<(), Memory>
    requires { IsOrdered third }
    ensures { OnOk result (text.new ≡ text.old ++ listed (map decimal third)) }
{
    put_nodes(text, third)
}

/// Adds how many nodes the faults of a pair cost alone, and the third nodes.
pub(crate) fn put_pair_harms(
    text: &mut GrowingText,
    own: &Harm,
    first: u8,
    second: u8,
    harms: &Harms,
) -> Result<(), Memory>
    requires { AreOrdered harms.now }
    ensures { OnOk result (text.new ≡ text.old
        ++ pair_harms (newly_left own.now harms.now.one) (newly_left own.now harms.now.two)
        (third_nodes first second harms.now.both harms.now.one harms.now.two)) }
{
    text.put_labelled(" alone ", u64::from(newly_left(own, &harms.one)))?;
    text.put_labelled(" ", u64::from(newly_left(own, &harms.two)))?;
    text.put(" third ")?;
    put_third(text, third_nodes(first, second, harms))?;
    text.put(" ")
}

/// Adds the two faults of a pair.
pub(crate) fn put_pair_faults(
    text: &mut GrowingText,
    one: &Event,
    two: &Event,
) -> Result<(), Memory>
    ensures { OnOk result (text.new ≡ text.old ++ pair_faults one.now two.now) }
{
    text.put(" fault ")?;
    put_fault(text, one)?;
    text.put(" and ")?;
    put_fault(text, two)?;
    text.put("\n")
}
