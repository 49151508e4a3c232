//! Laws over the definitions. The functions do nothing; their contracts are the laws.
ghost use Rattle.std.specs.Prelude.{◌≡◌, ◌∷◌, true, length, reverse};
ghost use Rattle.ttp_world.specs.declared.medl.Medl.{Medl};
ghost use Rattle.ttp_world.specs.declared.script.Script.{Script};
ghost use Rattle.ttp_world.specs.Legal.{IsLegal, is_legal_slot, never_fall, read_messages};
ghost use Rattle.ttp_world.specs.Medl.{IsValid};
ghost use Rattle.ttp_world.specs.Script.{IsValidScript, reads_in};
ghost use Rattle.ttp_world.specs.World.{SlotNumbers, Numbers, world};
ghost use Rattle.cluster_run.specs.Choosing.{AreBytesBefore};
ghost use Rattle.cluster_run.specs.NextSlots.{next_row};
ghost use Rattle.cluster_run.specs.Slots.{IsNext};
ghost use Rattle.cluster_run.specs.Standing.{ClusterView};
ghost use Rattle.cluster_run.specs.Texts.{TellsNext};

/// Numbers of a slot that are legal by themselves are legal after legal ones, where no read of the slot
/// got an older message than an earlier one of the same ring in it.
pub fn legal_slots()
    ensures { (list : Medl) (script : Script) (new : SlotNumbers) (numbers : Numbers) → IsLegal list script numbers
        → is_legal_slot list script (next_row list script new numbers) (world list script numbers) new ≡ true
        → never_fall (reverse (read_messages (reads_in script (length numbers)) new.read)) ≡ true
        → IsLegal list script (new ∷ numbers) }
{}

/// The report of a cluster's newest slot may be written, and its text is the slot's of the trace, where the
/// numbers are legal that the cluster stands for.
pub fn reports_tell_slots()
    ensures { (cluster : ClusterView) (numbers : Numbers) → IsValid cluster.list
        → IsValidScript cluster.list cluster.script → AreBytesBefore cluster.list cluster.script cluster.done
        → IsNext cluster numbers → IsLegal cluster.list cluster.script numbers
        → TellsNext cluster.list cluster.script numbers cluster.report }
{}
