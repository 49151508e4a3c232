//! A frame's fate does not depend on its payload: how a cluster goes on is the same whatever messages its
//! frames carry, if they are as long as the list says.
//!
//! The crate has no code that runs. The functions of [`laws`] do nothing, and their contracts are the laws,
//! over two runs of the world of one list and valid script (`specs/Runs.antt`). In each slot each node does
//! the same in both, but for the number of the message in its own frame ([`laws::runs_are_alike`]): so all
//! clocks, members, verdicts and senders of deliveries are the same. The world's run by legal numbers is
//! such a run ([`laws::runs_of_numbers`]).
//!
//! A frame whose bits a fault flips has a right or a wrong check word whatever its payload is, since
//! flipped bits are an exclusive or with a mask (`proofs/FlipMasks.antt`), and the check word is linear
//! (`laws::flipped` of `ttp_frame`). So each node takes such a frame alike in both runs
//! (`proofs/TakenAlike.antt`, `HeardAlike.antt`); `proofs/Unnumbered.antt` shows that no rule asks for the
//! number in a node's own entry, and `proofs/RunsAlike.antt` is the induction.
//!
//! Who has two runs by legal numbers makes them such runs by `legal-names` and `named-run` of
//! `proofs/NamedRuns.antt`, and takes from `proofs/RunsAlike.antt` what is the same, as two_faced and
//! trace_check do. `laws_of_payloads` of ground_tests calls the laws:
//!
//! ```text
//! frame_fates::laws::runs_are_alike();
//! frame_fates::laws::runs_of_numbers();
//! ```
//!
//! It says nothing of the payloads that are delivered, but who sent them.
#![tactic(auto)]

pub mod laws;
