//! Averages of single rounds, worked out by hand.
ghost use Rattle.std.specs.Prelude.{All};
ghost use Rattle.node_parts.specs.Notes.{IsDeviation};

use node_parts::fta_sync::{Measures, laws};

// Measures that noted these.
fn noted(deviations: &[i64]) -> Measures
    requires { All IsDeviation deviations.now }
{
    let mut measures = Measures::new();
    for deviation in deviations {
        measures.note(*deviation);
    }
    measures
}

fn corrects(deviations: &[i64], correction: i64) -> bool
    requires { All IsDeviation deviations.now }
{
    noted(deviations).correction() == correction
}

#[test]
fn middle_two_of_the_last_four_are_halved(rt: HostRuntime) {
    assert!(rt;
        corrects(&[-3, 4, 1, 20], 2)
            && corrects(&[-3, -4, -1, -20], -3)
            && corrects(&[-3, 4, 1], 0)
            && corrects(&[100, -3, 4, 1, 20], 2)
    );
}

// Whether measures are ready or not, and what they correct by.
fn stand_at(measures: &Measures, ready: bool, correction: i64) -> bool {
    measures.ready() == ready && measures.correction() == correction
}

#[test]
fn notes_of_a_round_are_forgotten(rt: HostRuntime) {
    let mut measures = noted(&[8, 8, 8, 8]);
    let are_noted = stand_at(&measures, true, 8);
    measures.clear();
    let are_clear = stand_at(&measures, false, 0);
    measures.note(8);
    assert!(rt; are_noted && are_clear && !measures.ready());
}

#[test]
fn law_asks_for_three_places_that_are_near() {
    laws::pull([-2, 7, -1, 0], [0, -7, 1, 2], 1, -2, 0, 2);
}
