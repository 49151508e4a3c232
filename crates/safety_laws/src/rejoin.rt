//! Safety under the hypothesis by which a node that is armed again is guaranteed its place.
//!
//! A node that left may be armed to listen again, and eight rules say when it is guaranteed its place (`returns`
//! of `ttp_world`'s specs). By the plan of such a script (`back_plan_of`) each time that a node becomes
//! faulty is a loss, and each arm line a return: the node listens from its slot on, and enters by the first
//! frame of another node that is not faulty and that carries a C-state. [`laws::returned_by_plan`] takes the
//! rules apart, once and for all: the plan is good, in the words of `fault_plan`, and the script follows it.
//! By such a plan safety_laws has the induction on members and clocks, and says which tests follow from
//! it: here they are put together, with no premise left.
//!
//! A caller of [`back_safe`] has a valid list and script whose test says `yes`, with the slot of the start;
//! what it says is of all legal message numbers. theorems cites it as `returned-safe` of
//! `proofs/Returned.antt`, and campaign_laws the plan as `returned-by_plan` of `proofs/ReturnsByPlan.antt`.
//! `law_of_nodes_that_are_armed_again` of ground_tests calls the law:
//!
//! ```text
//! safety_laws::rejoin::laws::stands();
//! ```
//!
//! `proofs/Walk.antt` says who is faulty from slot to slot, `proofs/Arms.antt` what is known of one arm
//! line, and `proofs/Standing.antt` is the induction: after each slot a node is not faulty and sound; or
//! lost since a slot, and not armed since; or armed less than four rounds ago, so that it listens until its
//! entry and is sound from then on. `proofs/BackHearing.antt` and `BackSlots.antt` say who hears whom,
//! `BackGood.antt` that the plan is good, `Offers.antt` by which frame a node enters, and
//! `ReturnedPlan.antt` that the plan is that of the test's faulty nodes. `src/rejoin/worked_case.rt` is a
//! script that arms a node, with its plan.
//!
//! The module has no code that does anything: its functions are laws. Of the theory it alone knows the eight
//! rules, and it proves nothing of frames, members or clocks itself.

ghost use Rattle.std.specs.Prelude.{◌≡◌, ◌<◌, ◌≤◌, length};
ghost use Rattle.ttp_world.specs.declared.keep.Back.TheVariants as back;
ghost use Rattle.ttp_world.specs.BackSafety.{IsBackSafe};
ghost use Rattle.ttp_world.specs.Legal.{IsLegal};
ghost use Rattle.ttp_world.specs.Medl.{IsValid};
ghost use Rattle.ttp_world.specs.Returning.{returns};
ghost use Rattle.ttp_world.specs.Script.{IsValidScript};
ghost use Rattle.ttp_world.specs.World.{Numbers, world};

pub mod laws;
mod worked_case;

use ttp_world::{Medl, Script};

/// What holds of a script whose test says that its armed nodes get their places again, and whose cluster
/// starts in slot `start`. After each slot from that one on, and for all legal message numbers, five
/// tests hold, of the nodes that this test calls correct. Those that are not in doubt hold one
/// membership; each that has started or sent in its stint is in it; none has left since it was armed
/// last; each node that became faulty two rounds ago, and was not armed since, has left and is held by
/// none; and each node that was armed four rounds ago is active, and holds the membership that all
/// of them hold, of which it is.
///
/// It does nothing, and takes no memory.
pub fn back_safe(list: &Medl, script: &Script, start: u32)
    requires valid { IsValid list.now }
    requires script { IsValidScript list.now script.now }
    requires kept { returns list.now script.now ≡ back.Yes start }
    ensures { (numbers : Numbers) → IsLegal list.now script.now numbers
        → start < length numbers → length numbers ≤ script.now.slots
        → IsBackSafe list.now script.now (world list.now script.now numbers) }
{}
