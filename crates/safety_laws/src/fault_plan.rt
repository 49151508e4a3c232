//! Plans of faults, and what follows from them alone.
//!
//! A plan says of a run what an argument on safety asks of its faults: whose slot each slot is, which
//! nodes are sound when the cluster starts, and which of them is lost in which slot, by sending, by
//! receiving or by a jump of its clock. A lost node may return: from a slot on it listens again, and in
//! another it enters and is sound. Slots of a plan are counted from the start, those of a script from 0.
//! A plan knows no frames, no members of a node and no clocks. It is good where incidents lie two rounds
//! apart, each loses a sound node, no node is lost and no other returns near one that does, and after
//! each slot four nodes are measured that were sound in all of the last round (`specs/GoodPlan.antt`).
//!
//! [`laws::kept_by_plan`] takes the single-fault hypothesis apart, once and for all: a script that keeps
//! it has a good plan, whose sound nodes are the hypothesis's correct ones, and follows it (`FollowsPlan`
//! of `specs/Kept.antt`): who hears whom in a slot is what the plan says. None returns by it. All other
//! laws speak of good plans, so that another hypothesis only has to give one; `specs/Returned.antt` says
//! what its plan has to tell of the script. From a plan come the fate of each node (`specs/Fates.antt`),
//! what a slot is (`SlotKind.antt`), the members that sound nodes hold, and the ledger of a node, which
//! is what it can have counted since its own slot (`Ledger.antt`).
//!
//! A caller of the laws needs `IsGoodPlan`. `safe` cites `kept-plan` of `proofs/KeptPlan.antt`, and
//! the laws on slots, members and counts from `proofs/FateSteps.antt`, `SlotKinds.antt`, `Members.antt`
//! and `Ledgers.antt`.
//!
//! The module has no code that does anything: its functions are laws, and worked cases that the check
//! computes: in `src/fault_plan/worked_plan.rt` an incident of each kind, and a node that returns. It does not
//! say what a node does; that the controllers' members and counts are those of the plan is for the crates
//! above to show.
#![tactic(auto, unfolding(ttp_base::specs::NodeSet::with_node))]

pub mod laws;
mod worked_plan;
