//! The laws of the lines of a campaign. The functions do nothing, and take no memory; their contracts are the laws.
ghost use Rattle.std.specs.Prelude.{◌≡◌, ℕ, ◌<◌, ◌≤◌, [], None, map, length, All, IsTrue};
ghost use Rattle.ttp_world.specs.declared.script.TheConstants.{EVENT_LIMIT};
ghost use Rattle.ttp_world.specs.Diary.{History};
ghost use Rattle.ttp_world.specs.Legal.{IsLegalRun};
ghost use Rattle.ttp_world.specs.Medl.{IsValid};
ghost use Rattle.ttp_world.specs.Script.{IsValidScript};
ghost use Rattle.ttp_world.specs.World.{Numbers, world};
ghost use Rattle.campaign.specs.declared.cost.Cost.{Cost};
ghost use Rattle.campaign.specs.Cost.{says_yes};
ghost use Rattle.campaign.specs.Lines.{summary, summary_of, summary_with, kept_counts, campaign_lines};
ghost use Rattle.campaign.specs.Tried.{faults_from};
ghost use Rattle.campaign_laws.specs.Ends.{AreOver};
ghost use Rattle.campaign_laws.specs.SafeLines.{IsSafeLine};

use ttp_world::{Medl, Script};

/// What a line tells of a script is read of every run of it by legal message numbers: the test, who left
/// and who was hurt, when memberships were split and which are left.
pub fn same_cost(list: &Medl, script: &Script)
    requires valid { IsValid list.now }
    requires script { IsValidScript list.now script.now }
    ensures { (numbers : Numbers) → IsLegalRun list.now script.now numbers
        → summary_of list.now script.now (world list.now script.now numbers) ≡ summary list.now script.now }
{}

/// Where the test of a script says yes, no node that is correct by it has left in the run that a line tells
/// (`hurt`), and such nodes held one membership after each slot, whenever they were active and not in doubt
/// (`split`).
pub fn yes_is_safe(list: &Medl, script: &Script)
    requires valid { IsValid list.now }
    requires script { IsValidScript list.now script.now }
    requires yes { IsTrue (says_yes list.now script.now) }
    ensures hurt { (summary list.now script.now).cost.hurt ≡ [] }
    ensures split { (summary list.now script.now).cost.split ≡ None }
{}

/// One membership is left at most, where the test of a script says yes, and each node that is faulty at the end of the
/// run became so two rounds before it or earlier, and was not armed since: all active nodes that are not in doubt hold
/// it.
pub fn one_is_left(list: &Medl, script: &Script)
    requires valid { IsValid list.now }
    requires script { IsValidScript list.now script.now }
    requires yes { IsTrue (says_yes list.now script.now) }
    requires over { AreOver list.now script.now }
    ensures { length (summary list.now script.now).cost.end ≤ 1 }
{}

/// The line `kept`, which counts the runs whose test says yes, counts none in which a node is hurt (`hurt`), and none
/// in which memberships are split (`split`), whatever range is asked for. The script is to have room for one event
/// more.
pub fn kept_is_safe(list: &Medl, script: &Script)
    requires valid { IsValid list.now }
    requires script { IsValidScript list.now script.now }
    requires room { length script.now.events < EVENT_LIMIT }
    ensures hurt { (own : Cost) (history : History) (first last : ℕ)
        → (kept_counts list.now own (map (summary_with list.now script.now)
        (faults_from list.now script.now history first last))).hurt ≡ 0 }
    ensures split { (own : Cost) (history : History) (first last : ℕ)
        → (kept_counts list.now own (map (summary_with list.now script.now)
        (faults_from list.now script.now history first last))).split ≡ 0 }
{}

/// Each line of a campaign in which the test says yes has the words `hurt - split - -`, and the line `kept` has `hurt 0
/// split 0`: of the text as it is read, line by line. The script is to have room for one event more.
pub fn lines_are_safe(list: &Medl, script: &Script)
    requires valid { IsValid list.now }
    requires script { IsValidScript list.now script.now }
    requires room { length script.now.events < EVENT_LIMIT }
    ensures { (first last : ℕ) → All IsSafeLine (campaign_lines list.now script.now first last) }
{}
