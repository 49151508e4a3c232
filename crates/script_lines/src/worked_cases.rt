//! A text that was worked out by hand from the format of a script. The function has no code: its contract is the case, and the
//! check computes it.
#![tactic(auto, unfolding(crate::specs::ScriptLines::event_words, crate::specs::ScriptLines::slots_line, crate::specs::ScriptLines::on_line, crate::specs::ScriptLines::drift_line, crate::specs::ScriptLines::script_lines, ttp_world::specs::Trace::digits))]

ghost use Rattle.std.specs.Prelude.{◌≡◌, [], ◌∷◌, pos, negsuc, true, false, Some, None, codes};
ghost use Rattle.ttp_world.specs.declared.script.Event.TheVariants as event;
ghost use Rattle.ttp_world.specs.declared.script.Fault.TheVariants as fault;
ghost use Rattle.ttp_world.specs.declared.script.Source.TheVariants as source;
ghost use Rattle.script_lines.specs.ScriptLines.{script_lines};

/// Three nodes, of which one is never on and the clock of one does not drift, and an event of each kind.
fn each_event()
    ensures { script_lines (record {
      slots = 120;
      on = Some 0 ∷ None ∷ Some 13 ∷ [];
      drift = pos 0 ∷ negsuc 4 ∷ pos 70 ∷ [];
      events =
          event.Error 0 (negsuc 0) 0 119
          ∷ event.Send 2 (record { a = true; b = true }) fault.Noise 30 31
          ∷ event.Receive 1 (record { a = true; b = false }) fault.Silence 9 10
          ∷ event.Flip 0 (record { a = false; b = true }) 8 100
          ∷ event.Jump 1 (pos 100) 44
          ∷ event.Arm 2 7
          ∷ event.Write 0 5 (0 ∷ 10 ∷ 255 ∷ [])
          ∷ event.Read 1 6 source.Status
          ∷ event.Read 2 6 (source.Node 0) ∷ [];
    }) ≡ codes "slots 120\n" ∷ codes "on 0 0\n" ∷ codes "on 2 13\n" ∷ codes "drift 1 -5\n" ∷ codes "drift 2 70\n"
        ∷ codes "error 0 -1 0 119\n" ∷ codes "send 2 AB noise 30 31\n" ∷ codes "receive 1 A silence 9 10\n"
        ∷ codes "flip 0 B 8 100\n" ∷ codes "jump 1 100 44\n" ∷ codes "arm 2 7\n" ∷ codes "write 0 5 000aff\n"
        ∷ codes "read 1 6 status\n" ∷ codes "read 2 6 0\n" ∷ [] }
{}
