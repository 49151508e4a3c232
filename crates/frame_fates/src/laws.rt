//! The laws of runs that differ in payloads alone. The functions do nothing; their contracts are the laws.
ghost use Rattle.std.specs.Prelude.{◌≡◌, ℕ, ◌<◌, List, ◌∷◌, length};
ghost use Rattle.ttp_world.specs.declared.medl.Medl.{Medl};
ghost use Rattle.ttp_world.specs.declared.node.Entry.{Entry};
ghost use Rattle.ttp_world.specs.declared.script.Script.{Script};
ghost use Rattle.ttp_world.specs.Diary.{History};
ghost use Rattle.ttp_world.specs.Legal.{IsLegal};
ghost use Rattle.ttp_world.specs.Messages.{delivered_of, in_messages, newest_number, status_messages};
ghost use Rattle.ttp_world.specs.Script.{IsValidScript};
ghost use Rattle.ttp_world.specs.World.{Numbers, node_past, world};
ghost use Rattle.frame_fates.specs.Alike.{unnumbered_history, unnumbered_past, sender_delivered};
ghost use Rattle.frame_fates.specs.Runs.{IsRun, AreRuns, NameMessages};

/// Two runs of one list and valid script, of as many slots, whose frames carry any messages of the sizes that
/// the list gives. In each slot each node does the same in both, but for the number of the message in
/// its own frame (`entries`), so what is read of its past is the same (`pasts`), and its clock too
/// (`clocks`). It delivers payloads of the same senders (`deliveries`), so each ring of received messages
/// has as many in both (`received`), and what the node publishes as its status is the same (`status`).
pub fn runs_are_alike()
    ensures entries { (list : Medl) (script : Script) (one other : History) → AreRuns list script one other
        → unnumbered_history one ≡ unnumbered_history other }
    ensures pasts { (list : Medl) (script : Script) (one other : History) (k : ℕ) → AreRuns list script one other
        → k < length list.slots
        → unnumbered_past (node_past list script one k) ≡ unnumbered_past (node_past list script other k) }
    ensures clocks { (list : Medl) (script : Script) (one other : History) (k : ℕ) → AreRuns list script one other
        → k < length list.slots
        → (node_past list script one k).offset ≡ (node_past list script other k).offset }
    ensures deliveries { (list : Medl) (script : Script) (row row_too : List Entry) (one other : History) (k : ℕ)
        → AreRuns list script (row ∷ one) (row_too ∷ other)
        → sender_delivered (delivered_of list script one row k)
        ≡ sender_delivered (delivered_of list script other row_too k) }
    ensures received { (list : Medl) (script : Script) (one other : History) (k p : ℕ)
        → AreRuns list script one other
        → newest_number (in_messages list script one k p) ≡ newest_number (in_messages list script other k p) }
    ensures status { (list : Medl) (script : Script) (one other : History) (k : ℕ) → AreRuns list script one other
        → k < length list.slots
        → status_messages list script one k ≡ status_messages list script other k }
{}

/// The world's run is one of these by any numbers that name a message for each frame which carries one
/// (`named`), and so by legal numbers (`legal`).
pub fn runs_of_numbers()
    ensures named { (list : Medl) (script : Script) (numbers : Numbers) → IsValidScript list script
        → NameMessages list script numbers → IsRun list script (world list script numbers) }
    ensures legal { (list : Medl) (script : Script) (numbers : Numbers) → IsValidScript list script
        → IsLegal list script numbers → IsRun list script (world list script numbers) }
{}
