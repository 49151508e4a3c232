//! A case of one's own, as a pattern to copy: what the definitions say of a list, a script and
//! message numbers.
#![tactic(auto, unfolding(ttp_base::specs::NodeSet::with_node, ttp_base::specs::NodeSet::members_in, ttp_world::specs::Trace::digits))]

ghost use Rattle.std.specs.Prelude.{◌≡◌, codes, true};
ghost use Rattle.ttp_world.specs.declared.keep.Keep.TheVariants as keep;
ghost use Rattle.ttp_world.specs.Hypothesis.{keeps};
ghost use Rattle.ttp_world.specs.Legal.{is_legal};
ghost use Rattle.own_case.specs.Case.{list, script, numbers, newest_line};

/// The line of node 0 after slot 9, whether the numbers are legal, and the hypothesis test.
pub fn own_case()
    ensures line { newest_line list script numbers 0
        ≡ codes "slot 9 node 0 correct peer 1 msg 1 mem 0003 acc 2 rej 0 ack none clock 0\n" }
    ensures legal { is_legal list script numbers ≡ true }
    ensures keeps { keeps list script ≡ keep.Yes 8 }
{}
