//! What holds of a script with fewer faults. The functions do nothing; their contracts are the laws.
ghost use Rattle.std.specs.Prelude.{◌≡◌, ℕ, ◌≤◌, true, length, All};
ghost use Rattle.ttp_world.specs.declared.script.TheConstants.{EVENT_LIMIT};
ghost use Rattle.ttp_world.specs.Script.{IsValidScript, IsBounded};
ghost use Rattle.causes.specs.Reduced.{with_faults_at, names_all_faults, entry_alone, entry_in_run};

use causes::ScriptLine;
use ttp_world::{Medl, Script};

/// A valid script stays valid without some of its faults (`valid`), and the numbers of its events are within their limits
/// (`events`, `count`).
pub fn fewer_is_valid(list: &Medl, script: &Script, places: &[usize])
    requires { IsValidScript list.now script.now }
    ensures valid { IsValidScript list.now (with_faults_at places.now script.now) }
    ensures events { All IsBounded script.now.events }
    ensures count { length script.now.events ≤ EVENT_LIMIT }
{}

/// Where all fault lines of a script are named, nothing is left out of it, and an entry alone is the one in the script's own
/// run: a story that names them all says that they suffice.
pub fn all_lines_suffice(list: &Medl, script: &Script, lines: &[ScriptLine])
    requires { names_all_faults lines.now script.now ≡ true }
    ensures { (slot k : ℕ) → entry_alone list.now script.now lines.now slot k ≡ entry_in_run list.now script.now slot k }
{}
