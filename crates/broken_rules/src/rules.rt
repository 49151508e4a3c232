//! All rules at once.
ghost use Rattle.std.specs.Prelude.{◌≡◌, ◌+◌, ◌*◌, ◌<◌, not, is_some, None, IfSome};
ghost use Rattle.ttp_base.specs.NodeSet.{most_nodes};
ghost use Rattle.ttp_world.specs.Hypothesis.{start_of};
ghost use Rattle.ttp_world.specs.Medl.{IsValid};
ghost use Rattle.ttp_world.specs.Script.{IsValidScript};
ghost use Rattle.hypothesis.specs.Standing.{told_start_if};
ghost use Rattle.broken_rules.specs.Rules.{answer_by, clocks_slot, faults_if, arm_by, broken_rules, first_broken, first_named};
ghost use Rattle.broken_rules.specs.Rules.{NameAllSlots};

use crate::conditions::{BrokenConditions, broken_conditions};
use broken_arms::{BrokenArm, broken_arm};
use broken_faults::{BrokenFaults, LostFrame, broken_faults};
use hypothesis::{Start, has_arm, keeps, returns, start_of};
use ttp_world::{Back, Keep, Medl, SLOT_LIMIT, Script};

/// What the test of the script says: that on armed nodes where one is armed, and else that of the hypothesis.
#[derive(Clone, Copy)]
pub enum Answer {
    Keeps { keep: Keep },
    Returns { back: Back },
}

/// What breaks the rules of the hypothesis, or of the test on armed nodes where one is armed.
#[derive(Clone, Copy)]
pub struct BrokenRules {
    pub answer: Answer,
    /// The first four rules.
    pub conditions: BrokenConditions,
    /// The rules on faults, which are asked only where there is a start.
    pub faults: BrokenFaults,
    /// The first arm line that does not give its node its place. It is asked for only where no frame is lost against
    /// the rule on losses.
    pub arm: Option<BrokenArm>,
}

// What the test says, with or without armed nodes.
fn answer_by(list: &Medl, script: &Script, armed: bool) -> Answer
    requires valid { IsValid list.now }
    requires script { IsValidScript list.now script.now }
    ensures { result ≡ answer_by list.now script.now armed }
{
    if armed {
        Answer::Returns {
            back: returns(list, script),
        }
    } else {
        Answer::Keeps {
            keep: keeps(list, script),
        }
    }
}

// The slot in which a clock is past a bound, if one is.
fn clocks_slot(answer: Answer) -> Option<u32>
    ensures { result ≡ clocks_slot answer }
{
    match answer {
        Answer::Keeps {
            keep: Keep::No { rule: 1, slot },
        }
        | Answer::Returns {
            back: Back::No { rule: 1, slot },
        } => Some(slot),
        _ => None,
    }
}

/// Whether the test says yes.
pub fn says_yes(answer: Answer) -> bool
    ensures { result ≡ not (is_some (first_named answer)) }
{
    match answer {
        Answer::Keeps {
            keep: Keep::Yes { .. },
        }
        | Answer::Returns {
            back: Back::Yes { .. },
        } => true,
        _ => false,
    }
}

// Nothing breaks the rules on faults.
fn no_faults() -> BrokenFaults
    ensures { result ≡ record { lost = None; early = None; few = None } }
{
    BrokenFaults {
        lost: None,
        early: None,
        few: None,
    }
}

// What breaks the rules on faults, where the cluster starts.
fn faults_if(list: &Medl, script: &Script, start: Option<Start>) -> BrokenFaults
    requires valid { IsValid list.now }
    requires script { IsValidScript list.now script.now }
    requires start { told_start_if start ≡ start_of list.now script.now }
    requires bound { IfSome start (λ start. start.slot < SLOT_LIMIT + 3 * most_nodes) }
    ensures { result ≡ faults_if list.now script.now (start_of list.now script.now) }
{
    match start {
        Some(start) => broken_faults(list, script, start),
        None => no_faults(),
    }
}

// What breaks that on arm lines, where a node is armed, the cluster starts and no frame is lost against the rule.
fn arm_by(
    list: &Medl,
    script: &Script,
    armed: bool,
    start: Option<Start>,
    lost: Option<LostFrame>,
) -> Option<BrokenArm>
    requires valid { IsValid list.now }
    requires script { IsValidScript list.now script.now }
    requires start { told_start_if start ≡ start_of list.now script.now }
    ensures { result ≡ arm_by list.now script.now armed (start_of list.now script.now) lost }
{
    if !armed {
        return None;
    }
    if lost.is_some() {
        return None;
    }
    match start {
        Some(start) => broken_arm(list, script, start),
        None => None,
    }
}

/// What breaks each rule, with what the test of the script says: it says yes exactly where nothing is told, and else it
/// names the first rule of which something is told, and its slot (`named`). Each rule is told of exactly where it is
/// broken, in the slot that hypothesis names for it (`slots`). A rule is asked whether or not one before it
/// is broken, but for those on faults and arm lines, as their fields say. Slots are counted from 0.
///
/// Takes no memory. A script that keeps all rules costs what [`keeps`] costs, or [`returns`] where a node is armed, and
/// three walks over the events more, with a look-up for each jump. Where a rule is broken, the slots are gone over once
/// more for each rule on faults and arm lines.
pub fn broken_rules(list: &Medl, script: &Script) -> BrokenRules
    requires valid { IsValid list.now }
    requires script { IsValidScript list.now script.now }
    ensures exact { result ≡ broken_rules list.now script.now }
    ensures slots { NameAllSlots list.now script.now result }
    ensures named { first_broken result ≡ first_named result.answer }
{
    let armed = has_arm(script);
    let answer = answer_by(list, script, armed);
    let conditions = broken_conditions(list, script, armed, clocks_slot(answer));
    if says_yes(answer) {
        return BrokenRules {
            answer,
            conditions,
            faults: no_faults(),
            arm: None,
        };
    }
    let start = start_of(list, script);
    let faults = faults_if(list, script, start);
    BrokenRules {
        answer,
        conditions,
        faults,
        arm: arm_by(list, script, armed, start, faults.lost),
    }
}
