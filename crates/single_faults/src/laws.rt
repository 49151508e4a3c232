//! What holds of a script with one fault more. The functions do nothing; their contracts are the laws.
ghost use Rattle.std.specs.Prelude.{ℕ, ◌<◌, length, All};
ghost use Rattle.ttp_world.specs.declared.script.TheConstants.{EVENT_LIMIT};
ghost use Rattle.ttp_world.specs.Diary.{History};
ghost use Rattle.ttp_world.specs.Medl.{IsValid};
ghost use Rattle.ttp_world.specs.Script.{IsValidScript, IsBounded};
ghost use Rattle.campaign.specs.Tried.{with_fault, faults_from};
ghost use Rattle.single_faults.specs.Tried.{MayStand};

use ttp_world::{Event, Medl, Script};

/// A valid script that is not full stays valid with a fault that may stand in it (`valid`), and the numbers
/// of its events and of the fault are within their limits (`events`, `fault`).
pub fn more_is_valid(list: &Medl, script: &Script, fault: &Event)
    requires script { IsValidScript list.now script.now }
    requires fault { MayStand list.now script.now fault.now }
    requires room { length script.now.events < EVENT_LIMIT }
    ensures valid { IsValidScript list.now (with_fault script.now fault.now) }
    ensures events { All IsBounded script.now.events }
    ensures fault { IsBounded fault.now }
{}

/// Each fault that is tried in a range of slots may stand in the script, whatever its run was.
pub fn faults_may_stand(list: &Medl, script: &Script)
    requires { IsValid list.now }
    ensures { (history : History) (first last : ℕ)
        → All (MayStand list.now script.now) (faults_from list.now script.now history first last) }
{}
