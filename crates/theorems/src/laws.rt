//! The functions do nothing; their contracts are the laws.
ghost use Rattle.std.specs.Prelude.{◌≡◌, ℕ, ◌<◌, ◌≤◌, length};
ghost use Rattle.ttp_world.specs.declared.keep.Back.TheVariants as back;
ghost use Rattle.ttp_world.specs.declared.keep.Keep.TheVariants as keep;
ghost use Rattle.ttp_world.specs.declared.medl.Medl.{Medl};
ghost use Rattle.ttp_world.specs.declared.script.Script.{Script};
ghost use Rattle.ttp_world.specs.Hypothesis.{keeps};
ghost use Rattle.ttp_world.specs.Legal.{IsLegal, IsLegalRun};
ghost use Rattle.ttp_world.specs.Medl.{IsValid};
ghost use Rattle.ttp_world.specs.Returning.{returns};
ghost use Rattle.ttp_world.specs.Script.{IsValidScript};
ghost use Rattle.ttp_world.specs.World.{Numbers, world};
ghost use Rattle.mode_change.specs.ModeText.{mode_lines};
ghost use Rattle.two_faced.specs.declared.faced.Faced.TheVariants as faced;
ghost use Rattle.two_faced.specs.Faced.{faced_of};
ghost use Rattle.theorems.specs.KeptRun.{IsKeptRun, IsBackRun};
ghost use Rattle.theorems.specs.FacedRun.{IsFacedRun};
ghost use Rattle.theorems.specs.ModeText.{ShowsOneMode};
ghost use Rattle.theorems.specs.SomeRun.{SomeRun};

/// Every valid list and script have a run: there are legal message numbers for it. So what is said of all
/// legal numbers is said of some.
pub fn legal_runs()
    ensures { (list : Medl) (script : Script) → IsValid list → IsValidScript list script → SomeRun list script }
{}

/// A run whose script keeps the single-fault hypothesis, whatever its legal message numbers: after each slot
/// from the start on the four tests of safety hold, clocks of correct nodes lie within the bounds, and
/// correct nodes have judged the same frames and run one mode.
pub fn kept_runs()
    ensures { (list : Medl) (script : Script) (start : ℕ) (numbers : Numbers) → IsValid list
        → IsValidScript list script → keeps list script ≡ keep.Yes start → IsLegal list script numbers
        → length numbers ≤ script.slots → IsKeptRun list script start (world list script numbers) }
{}

/// A text of modes of a run whose script keeps the single-fault hypothesis: after each slot from the start on
/// the lines of any two nodes that are correct then show the same mode, and the same next one or none.
pub fn mode_texts()
    ensures { (list : Medl) (script : Script) (start : ℕ) (numbers : Numbers) (slot : ℕ) → IsValid list
        → IsValidScript list script → keeps list script ≡ keep.Yes start → IsLegalRun list script numbers
        → start ≤ slot → slot < script.slots → ShowsOneMode list script (mode_lines list script numbers) slot }
{}

/// A run whose armed nodes are guaranteed their places: after each slot from the start on the five tests of safety
/// with armed nodes hold.
pub fn back_runs()
    ensures { (list : Medl) (script : Script) (start : ℕ) (numbers : Numbers) → IsValid list
        → IsValidScript list script → returns list script ≡ back.Yes start → IsLegal list script numbers
        → length numbers ≤ script.slots → IsBackRun list script start (world list script numbers) }
{}

/// A run in which a node may be two-faced: after each slot from the start on all nodes that are on are active,
/// hold one membership, and have clocks within the bound.
pub fn faced_runs()
    ensures { (list : Medl) (script : Script) (node start : ℕ) (numbers : Numbers) → IsValid list
        → IsValidScript list script → faced_of list script node ≡ faced.Yes start → IsLegal list script numbers
        → length numbers ≤ script.slots → IsFacedRun list script start (world list script numbers) }
{}
