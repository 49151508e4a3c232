//! The law. The function does nothing, and takes no memory; its contract is the law.
ghost use Rattle.std.specs.Prelude.{◌≡◌, [], ℕ, false, IsTrue};
ghost use Rattle.ttp_world.specs.Medl.{IsValid};
ghost use Rattle.ttp_world.specs.Script.{IsValidScript};
ghost use Rattle.campaign.specs.Cost.{says_yes};
ghost use Rattle.ttp_world.specs.ZerosWorld.{zeros_world};
ghost use Rattle.clock_margins.specs.Outcomes.{outcome_beside, whom_it_costs, is_others};

use ttp_world::{Medl, Script};

/// Where the test of a script says yes, its run costs no others (`costs`): no node is hurt, whichever counts as faulty
/// besides (`hurt`), and memberships were never split (`split`).
pub fn yes_costs_no_others(list: &Medl, script: &Script)
    requires valid { IsValid list.now }
    requires script { IsValidScript list.now script.now }
    requires yes { IsTrue (says_yes list.now script.now) }
    ensures hurt { (k : ℕ) → (outcome_beside list.now script.now k (zeros_world list.now script.now script.now.slots)).hurt ≡ [] }
    ensures split { (k : ℕ)
        → (outcome_beside list.now script.now k (zeros_world list.now script.now script.now.slots)).split ≡ false }
    ensures costs { (k : ℕ) → is_others (whom_it_costs k
        (outcome_beside list.now script.now k (zeros_world list.now script.now script.now.slots))) ≡ false }
{}
