//! The lines of a campaign.
ghost use Rattle.std.specs.Prelude.{◌≡◌, ◌++◌, OnOk, IfOk};
ghost use Rattle.ttp_world.specs.Medl.{IsValid};
ghost use Rattle.ttp_world.specs.Script.{IsValidScript};
ghost use Rattle.campaign.specs.declared.cost.Cost.{Cost};
ghost use Rattle.campaign.specs.Cost.{says_yes, is_kept, is_owed};
ghost use Rattle.campaign.specs.CostText.{test_words, cost_words};
ghost use Rattle.campaign.specs.Lines.{head_line, own_line, fault_slot, fault_node, place_words, fault_line};
ghost use Rattle.campaign.specs.Lines.{counts_line};
ghost use Rattle.fault_runs.specs.Told.{told_summary, keep_words, back_words, head_words, run_words};

use crate::campaign_text::fault_words::put_fault;
use campaign::Counts;
use hypothesis::{has_arm, keeps, returns};
use ttp_base::{GrowingText, Memory};
use ttp_world::{Back, Event, Keep, Medl, Script};

// Adds the line of the hypothesis test, without its line feed. Returns whether it says yes.
fn put_keep(text: &mut GrowingText, keep: Keep) -> Result<bool, Memory>
    ensures text { OnOk result (text.new ≡ text.old ++ keep_words keep) }
    ensures yes { IfOk result (λ yes. yes ≡ is_kept keep) }
{
    match keep {
        Keep::Yes { start } => {
            text.put_labelled("keeps yes start ", u64::from(start))?;
            Ok(true)
        }
        Keep::No { rule, slot } => {
            text.put_labelled("keeps no H", u64::from(rule))?;
            text.put_labelled(" ", u64::from(slot))?;
            Ok(false)
        }
    }
}

// Adds what the test on armed nodes says, and answers whether it says yes.
fn put_back(text: &mut GrowingText, back: Back) -> Result<bool, Memory>
    ensures text { OnOk result (text.new ≡ text.old ++ back_words back) }
    ensures yes { IfOk result (λ yes. yes ≡ is_owed back) }
{
    match back {
        Back::Yes { start } => {
            text.put_labelled("returns yes start ", u64::from(start))?;
            Ok(true)
        }
        Back::No { rule, slot } => {
            text.put_labelled("returns no Q", u64::from(rule))?;
            text.put_labelled(" ", u64::from(slot))?;
            Ok(false)
        }
    }
}

/// Adds what the test of a script says, and returns whether it says yes. It costs the test.
///
/// # Errors
///
/// Where memory was refused; some of it may have been added.
pub fn put_test(text: &mut GrowingText, list: &Medl, script: &Script) -> Result<bool, Memory>
    requires valid { IsValid list.now }
    requires script { IsValidScript list.now script.now }
    ensures text { OnOk result (text.new ≡ text.old ++ test_words list.now script.now) }
    ensures yes { IfOk result (λ yes. yes ≡ says_yes list.now script.now) }
{
    if has_arm(script) {
        put_back(text, returns(list, script))
    } else {
        put_keep(text, keeps(list, script))
    }
}

// Adds the first line, by its first words and its numbers.
fn put_head_words(
    text: &mut GrowingText,
    name: &str,
    nodes: u8,
    slots: u32,
    first: u32,
    last: u32,
) -> Result<(), Memory>
    ensures { OnOk result (text.new ≡ text.old ++ head_words name.now nodes slots first last) }
{
    text.put_labelled(name, u64::from(nodes))?;
    text.put_labelled(" slots ", u64::from(slots))?;
    text.put_labelled(" from ", u64::from(first))?;
    text.put_labelled(" to ", u64::from(last))?;
    text.put("\n")
}

/// Adds the first line: the nodes and slots, and the range as it was asked for.
///
/// # Errors
///
/// As of each of these functions, where memory was refused; some of the line may have been added.
pub fn put_head(
    text: &mut GrowingText,
    list: &Medl,
    script: &Script,
    first: u32,
    last: u32,
) -> Result<(), Memory>
    requires { IsValid list.now }
    ensures { OnOk result (text.new ≡ text.old ++ head_line list.now script.now first last) }
{
    let name = "ttplab campaign 1 nodes ";
    put_head_words(text, name, list.nodes(), script.slots, first, last)
}

// Adds what stands behind the place of a run, up to the fault. Returns whether the test of the script says
// yes.
fn put_run_words(
    text: &mut GrowingText,
    list: &Medl,
    script: &Script,
    words: &[u8],
) -> Result<bool, Memory>
    requires valid { IsValid list.now }
    requires script { IsValidScript list.now script.now }
    ensures text { OnOk result (text.new ≡ text.old ++ run_words (test_words list.now script.now) words.now) }
    ensures yes { IfOk result (λ yes. yes ≡ says_yes list.now script.now) }
{
    let yes = put_test(text, list, script)?;
    text.put(" ")?;
    text.put_bytes(words)?;
    text.put(" fault ")?;
    Ok(yes)
}

/// Adds the line of the script as it is, with these words of what its run cost. It costs the test of
/// the script.
///
/// # Errors
///
/// Where memory was refused; some of the line may have been added.
pub fn put_own(
    text: &mut GrowingText,
    list: &Medl,
    script: &Script,
    words: &[u8],
) -> Result<(), Memory>
    requires valid { IsValid list.now }
    requires script { IsValidScript list.now script.now }
    ensures { (cost : Cost) → words.now ≡ cost_words list.now cost
        → OnOk result (text.new ≡ text.old ++ own_line list.now (told_summary list.now script.now cost)) }
{
    text.put("slot - node - ")?;
    put_run_words(text, list, script, words)?;
    text.put("-\n")
}

// The slot in which a fault begins.
fn fault_slot(fault: &Event) -> u32
    ensures { result ≡ fault_slot fault.now }
{
    match fault {
        Event::Send { from, .. } | Event::Receive { from, .. } => *from,
        Event::Jump { slot, .. } => *slot,
        _ => 0,
    }
}

/// The node of a fault; 0 for what is no loss and no jump.
pub fn fault_node(fault: &Event) -> u8
    ensures { result ≡ fault_node fault.now }
{
    match fault {
        Event::Send { node, .. } | Event::Receive { node, .. } | Event::Jump { node, .. } => *node,
        _ => 0,
    }
}

/// Adds the words of the slot and the node of a fault.
///
/// # Errors
///
/// Where memory was refused; some of it may have been added.
pub fn put_place(text: &mut GrowingText, fault: &Event) -> Result<(), Memory>
    ensures { OnOk result (text.new ≡ text.old ++ place_words fault.now) }
{
    text.put_labelled("slot ", u64::from(fault_slot(fault)))?;
    text.put_labelled(" node ", u64::from(fault_node(fault)))?;
    text.put(" ")
}

/// Adds the line of a fault, with these words of what the run of the script that has it cost. Returns
/// whether the test of that script says yes.
pub fn put_run(
    text: &mut GrowingText,
    list: &Medl,
    script: &Script,
    fault: &Event,
    words: &[u8],
) -> Result<bool, Memory>
    requires valid { IsValid list.now }
    requires script { IsValidScript list.now script.now }
    ensures line { (cost : Cost) → words.now ≡ cost_words list.now cost
        → OnOk result (text.new
        ≡ text.old ++ fault_line list.now fault.now (told_summary list.now script.now cost)) }
    ensures yes { IfOk result (λ yes. yes ≡ says_yes list.now script.now) }
{
    put_place(text, fault)?;
    let yes = put_run_words(text, list, script, words)?;
    put_fault(text, fault)?;
    text.put("\n")?;
    Ok(yes)
}

/// Adds a line of counts under this name.
///
/// # Errors
///
/// Where memory was refused; some of the line may have been added.
pub fn put_counts(text: &mut GrowingText, name: &str, counts: &Counts) -> Result<(), Memory>
    ensures { OnOk result (text.new ≡ text.old ++ counts_line name.now counts.now) }
{
    text.put_labelled(name, counts.runs)?;
    text.put_labelled(" same ", counts.same)?;
    text.put_labelled(" hurt ", counts.hurt)?;
    text.put_labelled(" split ", counts.split)?;
    text.put_labelled(" torn ", counts.torn)?;
    text.put_labelled(" dead ", counts.dead)?;
    text.put("\n")
}
