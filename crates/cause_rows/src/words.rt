//! How entries with each word came about, by the whole line of one entry. It has all that the entry names, also what a
//! story leaves out.

ghost use Rattle.std.specs.Prelude.{◌≡◌, codes};
ghost use Rattle.cause_rows.specs.Clusters.{entry_line, bare_five, latent_loss, latent_numbers, late_nodes, late_numbers};
ghost use Rattle.cause_rows.specs.Clusters.{missed_frame, missed_numbers, deaf_starter, deaf_starter_numbers};

/// Nodes that are off, listen, join and start.
pub fn off_and_listening()
    ensures off { entry_line bare_five late_nodes late_numbers 5 4
        ≡ codes "slot 5 node 4 off peer - lines 6 entries - because it is switched on in slot 30\n" }
    ensures never { entry_line bare_five late_nodes late_numbers 5 3
        ≡ codes "slot 5 node 3 off peer - lines - entries - because it is never switched on\n" }
    ensures wait { entry_line bare_five late_nodes late_numbers 9 1
        ≡ codes "slot 9 node 1 wait peer - lines - entries - because no frame to join on since slot 0\n" }
    ensures start { entry_line bare_five late_nodes late_numbers 10 0
        ≡ codes "slot 10 node 0 start peer 0 lines 3 entries 9:1,9:2 because silence in 10 slots\n" }
    ensures join { entry_line bare_five late_nodes late_numbers 10 1
        ≡ codes "slot 10 node 1 join peer 0 lines - entries - because it takes over the C-state of node 0\n" }
{}

/// A node that left and is armed, and one that withdrew its cold start.
pub fn listening_again()
    ensures wait { entry_line bare_five deaf_starter deaf_starter_numbers 47 2
        ≡ codes "slot 47 node 2 wait peer - lines 10 entries 34:2,43:0,43:3 because no frame to join on since slot 40\n" }
    ensures retry { entry_line bare_five deaf_starter deaf_starter_numbers 26 0
        ≡ codes "slot 26 node 0 retry peer - lines - entries 21:0,22:0,23:0,24:0,25:0 because no frame accepted since its cold start in slot 21\n" }
    ensures start { entry_line bare_five deaf_starter deaf_starter_numbers 43 0
        ≡ codes "slot 43 node 0 start peer 0 lines 8 entries 37:0 because silence in 5 slots\n" }
{}

/// Frames of other nodes.
pub fn frames_of_others()
    ensures correct { entry_line bare_five latent_loss latent_numbers 21 0
        ≡ codes "slot 21 node 0 correct peer 1 lines - entries - because the frame that is due\n" }
    ensures null { entry_line bare_five latent_loss latent_numbers 22 3
        ≡ codes "slot 22 node 3 null peer 2 lines 8,10 entries - because A silence of line 8, B silence of line 10\n" }
    ensures incorrect { entry_line bare_five latent_loss latent_numbers 25 3
        ≡ codes "slot 25 node 3 incorrect peer 0 lines - entries 22:3 because node 0 holds node 2 and node 3 does not\n" }
    ensures invalid { entry_line bare_five deaf_starter deaf_starter_numbers 21 2
        ≡ codes "slot 21 node 2 invalid peer 1 lines - entries 21:0,21:1 because AB collision of nodes 0,1\n" }
    ensures tentative { entry_line bare_five missed_frame missed_numbers 23 2
        ≡ codes "slot 23 node 2 tentative peer 3 lines - entries 22:3 because node 3 does not hold node 2\n" }
    ensures settled { entry_line bare_five missed_frame missed_numbers 24 2
        ≡ codes "slot 24 node 2 correct peer 4 lines - entries 23:2 because node 4 holds node 2 and not node 3\n" }
{}

/// A node's own slots, and departures.
pub fn own_slots()
    ensures send { entry_line bare_five latent_loss latent_numbers 22 2
        ≡ codes "slot 22 node 2 send peer 2 lines - entries - because its own slot\n" }
    ensures denied { entry_line bare_five latent_loss latent_numbers 24 2
        ≡ codes "slot 24 node 2 denied peer 4 lines - entries 22:4,23:2 because node 4 holds node 3 and not node 2\n" }
    ensures gone { entry_line bare_five latent_loss latent_numbers 26 2
        ≡ codes "slot 26 node 2 gone peer - lines - entries 24:2 because it left in slot 24\n" }
    ensures clique { entry_line bare_five latent_loss latent_numbers 28 3
        ≡ codes "slot 28 node 3 clique peer 3 lines - entries 22:4,25:3,26:3,27:3 because accepted 2 and rejected 2 since slot 23, node 4 lacks 2 too\n" }
    ensures unacknowledged { entry_line bare_five latent_loss latent_numbers 29 4
        ≡ codes "slot 29 node 4 unacknowledged peer 4 lines - entries 25:4,26:4,27:4,28:4 because no frame accepted since its own in slot 24\n" }
{}
