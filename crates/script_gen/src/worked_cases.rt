//! Scripts that were worked out by hand, by a program of its own. The functions have no code: their contracts
//! are the cases, and the check computes them.
#![tactic(auto, unfolding(crate::specs::Draws::next_state, crate::specs::Draws::drawn, crate::specs::Generator::generated))]

ghost use Rattle.std.specs.Prelude.{◌≡◌, [], ◌∷◌, ◌^◌, ◌-◌, pos, negsuc, true, false, Some, None, map, replicate};
ghost use Rattle.ttp_world.specs.declared.keep.Keep.TheVariants as keep;
ghost use Rattle.ttp_world.specs.declared.script.Event.TheVariants as event;
ghost use Rattle.ttp_world.specs.declared.script.Fault.TheVariants as fault;
ghost use Rattle.ttp_world.specs.declared.script.Source.TheVariants as source;
ghost use Rattle.ttp_world.specs.Hypothesis.{keeps};
ghost use Rattle.script_gen.specs.Draws.{drawn};
ghost use Rattle.script_gen.specs.Generator.{both_channels, first_starter, start_slot_of, error_events};
ghost use Rattle.script_gen.specs.Generator.{fault_events, host_events_in, generated};
ghost use Rattle.script_gen.specs.WorkedCases.{four_exact, six_nodes, poll};

/// The first draws of some numbers.
fn first_draws()
    ensures of_0 { map (drawn 0) (0 ∷ 1 ∷ 2 ∷ 3 ∷ [])
        ≡ 167951807 ∷ 218396424 ∷ 1299921937 ∷ 861605236 ∷ [] }
    ensures of_1 { map (drawn 1) (0 ∷ 1 ∷ 2 ∷ 3 ∷ [])
        ≡ 908834774 ∷ 1093944153 ∷ 1392341196 ∷ 822192870 ∷ [] }
    ensures of_7 { map (drawn 7) (0 ∷ 1 ∷ 2 ∷ 3 ∷ [])
        ≡ 1059165278 ∷ 2052263231 ∷ 1946856753 ∷ 585718673 ∷ [] }
    ensures of_the_last { map (drawn (2 ^ 64 - 1)) (0 ∷ 1 ∷ 2 ∷ 3 ∷ [])
        ≡ 1574552488 ∷ 1490332343 ∷ 1207502677 ∷ 901017602 ∷ [] }
{}

/// Four nodes spare none for a fault, and their hosts only poll their status.
fn script_of_four_nodes()
    ensures script { generated four_exact 12 7 ≡ record {
      slots = 12;
      on = replicate 4 (Some 0);
      drift = replicate 4 (pos 0);
      events = event.Error 0 (pos 0) 0 11 ∷ event.Error 1 (pos 0) 0 11 ∷ event.Error 2 (pos 0) 0 11
          ∷ event.Error 3 (pos 0) 0 11 ∷ poll 1 0 ∷ poll 2 1 ∷ poll 3 2 ∷ poll 0 3 ∷ poll 1 4 ∷ poll 2 5 ∷ poll 3 6
          ∷ poll 0 7 ∷ poll 1 8 ∷ poll 2 9 ∷ poll 3 10 ∷ poll 0 11 ∷ [];
    } }
    ensures keeps { keeps four_exact (generated four_exact 12 7) ≡ keep.Yes 8 }
{}

/// Six nodes spare two. Node 1 starts in slot 13, so the faults lie in slots 25 and 39, whose senders are
/// nodes 1 and 3. The first draw is even and the second odd, so the frame of node 3 is lost to node 4.
fn faults_of_six_nodes()
    ensures start { start_slot_of (six_nodes 2 true) ≡ 13 }
    ensures errors { error_events (six_nodes 2 true) 60 5
        ≡ event.Error 0 (pos 0) 0 59 ∷ event.Error 1 (pos 4) 0 59 ∷ event.Error 2 (pos 5) 0 59
        ∷ event.Error 3 (pos 5) 0 59 ∷ event.Error 4 (negsuc 4) 0 59 ∷ event.Error 5 (negsuc 1) 0 59 ∷ [] }
    ensures faults { fault_events (six_nodes 2 true) 60 5
        ≡ event.Send 1 both_channels fault.Noise 25 25 ∷ event.Receive 4 both_channels fault.Noise 39 39 ∷ [] }
    ensures keeps { keeps (six_nodes 2 true) (generated (six_nodes 2 true) 60 5) ≡ keep.Yes 13 }
{}

/// A run that ends before the second fault, and before the first, and one that ends before the start.
fn short_runs()
    ensures one_fault { fault_events (six_nodes 2 true) 39 5 ≡ event.Send 1 both_channels fault.Noise 25 25 ∷ [] }
    ensures no_fault { fault_events (six_nodes 2 true) 25 5 ≡ [] }
    ensures no_start { keeps (six_nodes 2 true) (generated (six_nodes 2 true) 5 5) ≡ keep.Yes 13 }
{}

/// Node 4 sends payload in slot 10, so its host writes and the host of node 5 reads it. With one buffer no
/// host writes. In slot 11 nobody has payload.
fn what_hosts_do()
    ensures two_buffers { host_events_in (six_nodes 2 true) 10
        ≡ event.Write 4 10 (10 ∷ 10 ∷ 10 ∷ []) ∷ poll 5 10 ∷ event.Read 5 10 (source.Node 4) ∷ [] }
    ensures one_buffer { host_events_in (six_nodes 1 true) 10 ≡ poll 5 10 ∷ event.Read 5 10 (source.Node 4) ∷ [] }
    ensures no_payload { host_events_in (six_nodes 2 true) 11 ≡ poll 0 11 ∷ [] }
    ensures later { host_events_in (six_nodes 2 true) 258
        ≡ event.Write 0 258 (2 ∷ 2 ∷ []) ∷ poll 1 258 ∷ event.Read 1 258 (source.Node 0) ∷ [] }
{}

/// Where no node may start, faults lie as though node 0 did, and the hypothesis is not kept.
fn nobody_starts()
    ensures none { first_starter (six_nodes 2 false) ≡ None }
    ensures faults { fault_events (six_nodes 2 false) 60 5
        ≡ event.Send 0 both_channels fault.Noise 24 24 ∷ event.Receive 3 both_channels fault.Noise 38 38 ∷ [] }
    ensures keeps { keeps (six_nodes 2 false) (generated (six_nodes 2 false) 60 5) ≡ keep.No 4 0 }
{}
