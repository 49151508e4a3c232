//! The table of moves: what a verdict makes of an active node's members, counts and acknowledgement.
ghost use Rattle.std.specs.Prelude.{◌≡◌, [], ◌∷◌};
ghost use Rattle.ttp_world.specs.declared.node.Ack.TheVariants as ack;
ghost use Rattle.ttp_world.specs.declared.node.Phase.TheVariants as phase;
ghost use Rattle.ttp_world.specs.declared.node.Verdict.TheVariants as verdict;
ghost use Rattle.world_rows.specs.Moves.{holding, held_after, closed, first, doubt, without_3, with_3, moved};

/// What node 1 of six holds with a closed acknowledgement, in First, and in doubt about node 2, before
/// it judges node 3.
pub fn before_a_move()
    ensures closed { held_after (closed without_3) ≡ holding phase.Active (0 ∷ 1 ∷ 2 ∷ 5 ∷ []) 2 0 ack.Closed }
    ensures closed_with_3 { held_after (closed with_3) ≡ holding phase.Active (0 ∷ 1 ∷ 2 ∷ 3 ∷ 5 ∷ []) 2 0 ack.Closed }
    ensures first { held_after (first without_3) ≡ holding phase.Active (0 ∷ 1 ∷ 5 ∷ []) 1 0 ack.First }
    ensures first_with_3 { held_after (first with_3) ≡ holding phase.Active (0 ∷ 1 ∷ 3 ∷ 5 ∷ []) 1 0 ack.First }
    ensures doubt { held_after (doubt without_3) ≡ holding phase.Active (0 ∷ 1 ∷ 2 ∷ 5 ∷ []) 1 0 (ack.Doubt 2) }
    ensures doubt_with_3 { held_after (doubt with_3) ≡ holding phase.Active (0 ∷ 1 ∷ 2 ∷ 3 ∷ 5 ∷ []) 1 0 (ack.Doubt 2) }
{}

/// A clause for each cell: the acknowledgement, and the verdict on node 3. The sender comes in that
/// was out, or goes out that was in. In doubt about node 2, a correct frame puts node 2 out and counts
/// it as rejected, and a denial makes node 1 leave.
pub fn moves()
    ensures closed_correct { moved (closed without_3) verdict.Correct
        ≡ holding phase.Active (0 ∷ 1 ∷ 2 ∷ 3 ∷ 5 ∷ []) 3 0 ack.Closed }
    ensures first_correct { moved (first without_3) verdict.Correct
        ≡ holding phase.Active (0 ∷ 1 ∷ 3 ∷ 5 ∷ []) 2 0 ack.Closed }
    ensures first_tentative { moved (first without_3) verdict.Tentative
        ≡ holding phase.Active (0 ∷ 1 ∷ 3 ∷ 5 ∷ []) 1 0 (ack.Doubt 3) }
    ensures doubt_correct { moved (doubt without_3) verdict.Correct
        ≡ holding phase.Active (0 ∷ 1 ∷ 3 ∷ 5 ∷ []) 2 1 ack.Closed }
    ensures doubt_denied { moved (doubt without_3) verdict.Denied ≡ holding phase.Left [] 0 0 ack.Closed }
    ensures closed_incorrect { moved (closed with_3) verdict.Incorrect
        ≡ holding phase.Active (0 ∷ 1 ∷ 2 ∷ 5 ∷ []) 2 1 ack.Closed }
    ensures first_incorrect { moved (first with_3) verdict.Incorrect
        ≡ holding phase.Active (0 ∷ 1 ∷ 5 ∷ []) 1 1 ack.First }
    ensures doubt_incorrect { moved (doubt with_3) verdict.Incorrect
        ≡ holding phase.Active (0 ∷ 1 ∷ 2 ∷ 5 ∷ []) 1 1 (ack.Doubt 2) }
    ensures closed_invalid { moved (closed with_3) verdict.Invalid
        ≡ holding phase.Active (0 ∷ 1 ∷ 2 ∷ 5 ∷ []) 2 1 ack.Closed }
    ensures first_invalid { moved (first with_3) verdict.Invalid ≡ holding phase.Active (0 ∷ 1 ∷ 5 ∷ []) 1 1 ack.First }
    ensures doubt_invalid { moved (doubt with_3) verdict.Invalid
        ≡ holding phase.Active (0 ∷ 1 ∷ 2 ∷ 5 ∷ []) 1 1 (ack.Doubt 2) }
    ensures closed_null { moved (closed with_3) verdict.Null
        ≡ holding phase.Active (0 ∷ 1 ∷ 2 ∷ 5 ∷ []) 2 0 ack.Closed }
    ensures first_null { moved (first with_3) verdict.Null ≡ holding phase.Active (0 ∷ 1 ∷ 5 ∷ []) 1 0 ack.First }
    ensures doubt_null { moved (doubt with_3) verdict.Null
        ≡ holding phase.Active (0 ∷ 1 ∷ 2 ∷ 5 ∷ []) 1 0 (ack.Doubt 2) }
{}
