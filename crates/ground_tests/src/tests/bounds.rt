//! The bounds of one list, worked out by hand.
ghost use Rattle.std.specs.Prelude.{IfOk};
ghost use Rattle.ttp_world.specs.Medl.{IsValid};

use super::lists::bare_nodes;
use precision::{needed, needed_rejoining, spread, spread_rejoining};
use std::alloc::Global;
use ttp_base::Memory;
use ttp_world::Medl;

// Four nodes, whose clocks drift by up to 1 in a slot and are read with errors of up to 2.
fn four_nodes(alloc: Global) -> Result<Medl, Memory>
    ensures { IfOk result IsValid }
{
    let Ok(mut list) = bare_nodes(alloc) else {
        return Err(Memory);
    };
    list.drift = 1;
    list.error = 2;
    list.window = 23;
    Ok(list)
}

// Whether the bounds of this list are these.
fn are_bounds(list: &Medl) -> bool
    requires { IsValid list.now }
{
    spread(list) == 21
        && needed(list) == 23
        && spread_rejoining(list) == 33
        && needed_rejoining(list) == 35
}

// Whether they are those of four nodes.
fn bounds_are_told(alloc: Global) -> bool {
    match &four_nodes(alloc) {
        Ok(list) => are_bounds(list),
        Err(_) => false,
    }
}

#[test]
fn bounds_of_four_nodes(rt: HostRuntime) {
    assert!(rt; bounds_are_told(rt.alloc()));
}
