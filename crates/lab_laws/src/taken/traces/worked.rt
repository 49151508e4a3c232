//! A worked case: a run of two slots.
ghost use Rattle.std.specs.Prelude.{◌≡◌, true};
ghost use Rattle.std.specs.List.{concat};
ghost use Rattle.ttp_world.specs.Legal.{is_legal};
ghost use Rattle.ttp_world.specs.Trace.{trace_lines};
ghost use Rattle.lab_laws.specs.TakenTrace.{trace_of_run};
ghost use Rattle.lab_laws.specs.TwoSlots.{two_slot_list, two_slot_numbers, two_slot_script};
ghost use Rattle.lab_laws.specs.TwoSlots.{two_slot_text, two_slot_trace};

/// Its text, and the trace that it is: two nodes listen, one of them from the second slot on; a host writes,
/// and one reads its node's status and then the zeros in the ring of a node that has sent nothing yet. Two
/// nodes are too few to measure clocks by.
#[tactic(auto, unfolding(ttp_base::specs::NodeSet::with_node, ttp_base::specs::NodeSet::members_in, ttp_world::specs::Trace::digits))]
pub fn two_slots()
    ensures legal { is_legal two_slot_list two_slot_script two_slot_numbers ≡ true }
    ensures text { concat (trace_lines two_slot_list two_slot_script two_slot_numbers) ≡ two_slot_text }
    ensures trace { trace_of_run two_slot_list two_slot_script two_slot_numbers ≡ two_slot_trace }
{}
