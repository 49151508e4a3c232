//! What is wrong with a list, and where.

use list_errors::list_errors;
use list_places::{Place, list_places};
use std::alloc::Global;
use ttp_base::Memory;

// Six keys of the top are missing and one is unknown; there is one slot, without three of its keys and with an unknown one.
const FEW: &[u8] = b"version = 1\ndrfit = 2\n\n[[slot]]\nkinds = \"II\"\n  synch = true\n";

// The places of the errors of a text, as lines and columns, are these.
fn stand_at(alloc: Global, text: &[u8], due: &[(usize, usize)]) -> Result<bool, Memory> {
    let found = list_errors(alloc, text)?;
    let told = list_places(alloc, text, found.wrongs.as_slice())?;
    Ok(are_at(told.places.as_slice(), due))
}

fn are_at(places: &[Place], due: &[(usize, usize)]) -> bool {
    if places.len() != due.len() {
        return false;
    }
    for (place, (line, column)) in places.iter().zip(due.iter()) {
        if place.line != *line || place.column != *column {
            return false;
        }
    }
    true
}

#[test]
fn errors_stand_where_keys_are_written(rt: HostRuntime) {
    let due = [
        (1, 1),
        (1, 1),
        (1, 1),
        (1, 1),
        (1, 1),
        (1, 1),
        (4, 1),
        (4, 1),
        (4, 1),
        (4, 1),
        (2, 1),
        (6, 3),
    ];
    assert!(rt; matches!(stand_at(rt.alloc(), FEW, due.as_slice()), Ok(true)));
}

#[test]
fn a_lost_comma_has_a_place(rt: HostRuntime) {
    let text = b"a = 1\nslot = [{data = 0}\n    {data = 1}]\n";
    assert!(rt; matches!(stand_at(rt.alloc(), text, [(3, 5)].as_slice()), Ok(true)));
}
