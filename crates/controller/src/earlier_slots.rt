//! Runs of two scripts that say the same of all slots below one: they are the same there.
//!
//! What happens in a slot changes nothing of the slots before it. So whoever has taken a cluster through the
//! first slots of a script need not do it again for another script that says the same of them, as one that
//! has one fault more, from the next slot on.
//!
//! The module has no code that runs. The functions of [`laws`] do nothing, and their contracts are the laws,
//! over the world's histories. It says nothing of what hosts read, which changes no history. Which slots two
//! scripts say the same of is `AgreeBelow` of `specs/Agreement.antt`: that is what a caller has to know, and
//! for a script with one event more [`laws::a_later_event_changes_nothing`] gives it.
//!
//! `laws_of_two_scripts_that_say_the_same` of ground_tests calls both laws, and controller cites
//! `proofs/SameWorlds.antt` for what plants stand for:
//!
//! ```text
//! controller::earlier_slots::laws::histories_are_the_same();
//! controller::earlier_slots::laws::a_later_event_changes_nothing();
//! ```

pub mod laws;
