//! The laws of clocks by a plan. The functions do nothing; their contracts are the laws.
//!
//! They take what each node noted as a premise (`NotedByPlan` of `specs/NotedByPlan.antt`), slot by slot,
//! and give what an induction over the slots asks of clocks at the beginning of the next slot. Beside that
//! premise a caller needs a script that follows a good plan, and the list's bounds on clocks
//! (`FollowsWithin` of `fault_plan`).
//!
//! `proofs/RoundNotes.antt` counts the notes of a round by the plan, `BeganTogether.antt` begins with the
//! start, and `Company.antt` is the induction for sound nodes. For a jumped clock `Apart.antt` says
//! over plain numbers how far it can come from another one while at most one round ends;
//! `NearNotes.antt` and `RoundKnown.antt` show what its notes from before the jump tell, and
//! `JumpedClock.antt` puts the two together. Others cite `Bounds.antt` and `OutsideWindow.antt`.
//! `src/worked_jump.rt` is a run with drifts and a jump that meets the premises.
//!
//! That the premise holds is for others to show. Of clocks nothing is proved again that precision proves.
ghost use Rattle.std.specs.Prelude.{◌≡◌, ℕ, suc, ◌+◌, ◌<◌, ◌≤◌, Bool, true, false, List, [], length, neg_ℤ};
ghost use Rattle.std.specs.Prelude.{◌-ℤ◌, ◌≤ℤ◌, IsTrue};
ghost use Rattle.ttp_world.specs.declared.medl.Medl.{Medl};
ghost use Rattle.ttp_world.specs.declared.node.Entry.{Entry};
ghost use Rattle.ttp_world.specs.declared.script.Script.{Script};
ghost use Rattle.ttp_world.specs.Diary.{History};
ghost use Rattle.ttp_world.specs.Hypothesis.{ClusterStart, needed};
ghost use Rattle.ttp_world.specs.Reception.{is_within_window};
ghost use Rattle.precision.specs.Spread.{spread, spread_rejoining, needed_rejoining};
ghost use Rattle.precision.specs.Together.{BeganTogether, clock_at, measured};
ghost use Rattle.precision.specs.Company.{RanAsCompany};
ghost use Rattle.safety_laws.specs.Plan.{FaultPlan, enters};
ghost use Rattle.safety_laws.specs.Fates.{is_sound_after};
ghost use Rattle.safety_laws.specs.Kept.{FollowsPlan};
ghost use Rattle.safety_laws.specs.Jumps.{HasJumped};
ghost use Rattle.safety_laws.specs.Entries.{NoneEnters, IsNewestEntry};
ghost use Rattle.safety_laws.specs.NotedByPlan.{IsSoundIn, StartedByPlan, NotedByPlan, GoesOnByPlan};
ghost use Rattle.safety_laws.specs.NotedByPlan.{IsTight};

/// The nodes that are sound by a plan run as a company since the start. They began together in it
/// (`began`), and after each slot up to which they noted by the plan, those that are sound then have
/// run as a company, whose newest entry is that of the plan (`company`): in each round that began
/// after it they noted four frames or more. Where none entered, it is one to which none may come. A
/// group that ran as a company did so without some of its nodes (`smaller`).
pub fn runs_as_company()
    ensures smaller { (list : Medl) (script : Script) (may_grow : Bool) (less group : ℕ → Bool) (newest : ℕ)
        (history : History)
        → ((k : ℕ) → less k ≡ true → group k ≡ true) → RanAsCompany list script may_grow group newest history
        → RanAsCompany list script may_grow less newest history }
    ensures began { (list : Medl) (script : Script) (start : ClusterStart) (plan : FaultPlan) (row : List Entry)
        (history : History)
        → FollowsPlan list script start plan → StartedByPlan list script start plan row history
        → BeganTogether list script (is_sound_after plan 0) row history }
    ensures company { (list : Medl) (script : Script) (start : ClusterStart) (plan : FaultPlan) (may_grow : Bool)
        (slot : ℕ) (history : History)
        → FollowsPlan list script start plan → NotedByPlan list script start plan slot history
        → length history ≤ script.slots → (may_grow ≡ false → NoneEnters plan slot)
        → (newest : ℕ) × (IsNewestEntry plan slot newest
        × RanAsCompany list script may_grow (is_sound_after plan slot) (start.slot + newest) history) }
{}

/// At the beginning of each slot after the start, the clocks of any two nodes that are sound after it
/// and do not enter in it are no further apart than the spread of a company (`clocks`), and what one
/// measures of the other lies no further from 0 than is needed there (`deviations`), and so within the
/// window (`window`). Where the newest entry is more than a round before the slot's round, or no node
/// entered yet, it is the smaller spread (`tight_clocks`), and no further than is needed where none
/// returns (`tight_deviations`). This is where the sound nodes noted by the plan up to the slot before.
pub fn clocks_near()
    ensures clocks { (list : Medl) (script : Script) (start : ClusterStart) (plan : FaultPlan) (slot : ℕ)
        (history : History)
        → GoesOnByPlan list script start plan slot history
        → (j k : ℕ) → IsSoundIn list plan (suc slot) j → IsSoundIn list plan (suc slot) k
        → enters plan (suc slot) j ≡ false → enters plan (suc slot) k ≡ false
        → (clock_at list script history j -ℤ clock_at list script history k) ≤ℤ spread_rejoining list }
    ensures deviations { (list : Medl) (script : Script) (start : ClusterStart) (plan : FaultPlan) (slot : ℕ)
        (history : History)
        → GoesOnByPlan list script start plan slot history
        → (r p : ℕ) → IsSoundIn list plan (suc slot) r → IsSoundIn list plan (suc slot) p
        → enters plan (suc slot) r ≡ false → enters plan (suc slot) p ≡ false
        → (neg_ℤ (needed_rejoining list) ≤ℤ measured list script history r p)
        × (measured list script history r p ≤ℤ needed_rejoining list) }
    ensures window { (list : Medl) (script : Script) (start : ClusterStart) (plan : FaultPlan) (slot : ℕ)
        (history : History)
        → GoesOnByPlan list script start plan slot history
        → (r p : ℕ) → IsSoundIn list plan (suc slot) r → IsSoundIn list plan (suc slot) p
        → enters plan (suc slot) r ≡ false → enters plan (suc slot) p ≡ false
        → IsTrue (is_within_window list (measured list script history r p)) }
    ensures tight_clocks { (list : Medl) (script : Script) (start : ClusterStart) (plan : FaultPlan) (slot : ℕ)
        (history : History)
        → GoesOnByPlan list script start plan slot history → IsTight plan (suc slot)
        → (j k : ℕ) → IsSoundIn list plan (suc slot) j → IsSoundIn list plan (suc slot) k
        → (clock_at list script history j -ℤ clock_at list script history k) ≤ℤ spread list }
    ensures tight_deviations { (list : Medl) (script : Script) (start : ClusterStart) (plan : FaultPlan) (slot : ℕ)
        (history : History)
        → GoesOnByPlan list script start plan slot history → IsTight plan (suc slot)
        → (r p : ℕ) → IsSoundIn list plan (suc slot) r → IsSoundIn list plan (suc slot) p
        → (neg_ℤ (needed list) ≤ℤ measured list script history r p)
        × (measured list script history r p ≤ℤ needed list) }
{}

/// A node that was lost by a jump of its clock: in each slot from the jump up to the first of its own,
/// each sound node's window leaves its frame out (`frame`), and its own window leaves out the frame of
/// each sound node (`others`). For a jump goes four windows or more, and what else comes between two
/// clocks in a round, drifts and one correction of each, is less than three windows. This is where up
/// to the slot before the sound nodes noted by the plan, and this one noted nothing since its jump.
pub fn jumped_outside()
    ensures frame { (list : Medl) (script : Script) (start : ClusterStart) (plan : FaultPlan) (slot : ℕ)
        (history : History)
        → GoesOnByPlan list script start plan slot history
        → (x k since : ℕ) → x < length list.slots → HasJumped plan (suc slot) x since
        → IsSoundIn list plan (suc slot) k
        → is_within_window list (measured list script history k x) ≡ false }
    ensures others { (list : Medl) (script : Script) (start : ClusterStart) (plan : FaultPlan) (slot : ℕ)
        (history : History)
        → GoesOnByPlan list script start plan slot history
        → (x k since : ℕ) → x < length list.slots → HasJumped plan (suc slot) x since
        → IsSoundIn list plan (suc slot) k
        → is_within_window list (measured list script history x k) ≡ false }
{}
