//! The laws of scripts that agree below a slot. The functions do nothing; their contracts are the laws.
ghost use Rattle.std.specs.Prelude.{◌≡◌, ◌<◌, ◌≤◌, ℕ, List, length};
ghost use Rattle.ttp_world.specs.declared.medl.Medl.{Medl};
ghost use Rattle.ttp_world.specs.declared.node.Chosen.{Chosen};
ghost use Rattle.ttp_world.specs.declared.script.Event.{Event};
ghost use Rattle.ttp_world.specs.declared.script.Script.{Script};
ghost use Rattle.ttp_world.specs.Diary.{History};
ghost use Rattle.ttp_world.specs.Medium.{surroundings_of};
ghost use Rattle.ttp_world.specs.World.{Numbers, node_past, step, world};
ghost use Rattle.controller.specs.Agreement.{AgreeBelow, begins_at, with_event};

/// Two scripts agree below a slot. After any history of no more slots, what came to a node from outside is the
/// same under both (`surroundings`), and so is what is read of the node's past (`pasts`). A slot below that
/// one takes each history to the same one, whatever messages are chosen for it (`steps`). So the world's run
/// is the same, by any numbers of messages (`worlds`).
pub fn histories_are_the_same()
    ensures surroundings { (one other : Script) (slot : ℕ) (history : History) (k : ℕ) → AgreeBelow one other slot
        → length history ≤ slot → surroundings_of one history k ≡ surroundings_of other history k }
    ensures pasts { (list : Medl) (one other : Script) (slot : ℕ) (history : History) (k : ℕ)
        → AgreeBelow one other slot → length history ≤ slot
        → node_past list one history k ≡ node_past list other history k }
    ensures steps { (list : Medl) (one other : Script) (slot : ℕ) (history : History) (chosen : List Chosen)
        → AgreeBelow one other slot → length history < slot
        → step list one history chosen ≡ step list other history chosen }
    ensures worlds { (list : Medl) (one other : Script) (slot : ℕ) (numbers : Numbers) → AgreeBelow one other slot
        → length numbers ≤ slot → world list one numbers ≡ world list other numbers }
{}

/// A script with one event more, which begins in a slot or later, agrees with the script below that slot.
pub fn a_later_event_changes_nothing()
    ensures { (script : Script) (more : Event) (slot : ℕ) → slot ≤ begins_at more
        → AgreeBelow script (with_event script more) slot }
{}
