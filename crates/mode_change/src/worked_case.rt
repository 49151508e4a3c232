//! A case that was worked out by hand. The function has no code: its contract is the case, and the check
//! computes it.
ghost use Rattle.std.specs.Prelude.{◌≡◌, codes, true};
ghost use Rattle.ttp_world.specs.Legal.{is_legal};
ghost use Rattle.mode_change.specs.WorkedCase.{two_modes, one_request, request_numbers, line_after_slot};

/// Node 0 starts in slot 8. In slot 9 node 1 sends zeros, which ask for nothing and are live in mode 0. Its
/// frame in slot 13 asks for mode 1, which all nodes keep as their next one, node 1 too. With slot 15 the
/// cycle ends, and they switch. In slot 17 the same message comes again, and is not live any more.
fn all_switch_at_the_cycles_end()
    ensures legal { is_legal two_modes one_request request_numbers ≡ true }
    ensures live { line_after_slot 9 0 ≡ codes "slot 9 node 0 mode 0 next - live yes\n" }
    ensures accepted { line_after_slot 13 0 ≡ codes "slot 13 node 0 mode 0 next 1 live yes\n" }
    ensures own { line_after_slot 13 1 ≡ codes "slot 13 node 1 mode 0 next 1 live -\n" }
    ensures switched { line_after_slot 15 0 ≡ codes "slot 15 node 0 mode 1 next - live -\n" }
    ensures dead { line_after_slot 17 0 ≡ codes "slot 17 node 0 mode 1 next 1 live no\n" }
{}
