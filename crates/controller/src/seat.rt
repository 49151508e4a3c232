//! A node's seat: its controller, and what a slot hands around with it.
ghost use Rattle.std.specs.Prelude.{◌≡◌, ℕ, length, slice_get, IfOk};
ghost use Rattle.controller.specs.declared.seat.Seat.{Seat as SeatValue};
ghost use Rattle.ttp_world.specs.Medl.{IsValid};
ghost use Rattle.controller.specs.PlantStands.{AllStandAtFirst, no_outcomes, outcomes_of};
ghost use Rattle.controller.specs.PlantWithin.{AreSeats, IsEnded, most_ahead};

use crate::controller::{Controller, Outcome};
use crate::hearing::take_away;
use std::alloc::Global;
use ttp_base::{List, Memory};
use ttp_world::{Delivered, Incidents, Medl, Payload, StatusWords, no_incidents};

/// A node of a cluster: its controller, and what a slot hands around with it.
#[derive(Drop)]
pub struct Seat {
    pub controller: Controller,
    /// What happens to the node in the newest slot that it has begun.
    pub incidents: Incidents,
    /// What the newest slot that it has ended left for its host.
    pub outcome: Outcome,
}

// Nothing is copied where nothing was delivered, since a payload is large.
fn copy_outcome(to: &mut Outcome, from: &Outcome)
    ensures { to.new ≡ from.now }
{
    match &from.delivered {
        Some(got) => {
            to.delivered = Some(Delivered {
                sender: got.sender,
                payload: Payload::of(got.payload.bytes()),
            });
        }
        None => take_away(&mut to.delivered),
    }
    to.status = from.status;
}

impl Seat {
    // Makes it a copy of another seat of the same list.
    fn copy_from(&mut self, other: &Seat)
        requires { other.now.controller.list ≡ self.old.controller.list }
        ensures { self.new ≡ other.now }
    {
        self.controller.copy_from(&other.controller);
        self.incidents = other.incidents;
        copy_outcome(&mut self.outcome, &other.outcome);
    }
}

/// Makes seats copies of others, each of the same list.
pub(crate) fn copy_seats(to: &mut [Seat], from: &[Seat])
    requires count { length to.old ≡ length from.now }
    requires lists { (k : ℕ) (one other : SeatValue) → slice_get to.old k ≡ Some one → slice_get from.now k ≡ Some other
        → other.controller.list ≡ one.controller.list }
    ensures { to.new ≡ from.now }
{
    for k in 0..to.len() {
        to[k].copy_from(&from[k]);
    }
}

/// The seats of a list's nodes before the first slot: each node is off, and nothing is left for any
/// host. `Memory` where memory was refused.
pub fn seats_of(alloc: Global, list: &Medl) -> Result<Vec<Seat>, Memory>
    requires { IsValid list.now }
    ensures count { IfOk result (λ seats. length seats.items ≡ length list.now.slots) }
    ensures seats { IfOk result (λ seats. AreSeats list.now IsEnded (most_ahead 0) 0 seats.items) }
    ensures stand { IfOk result (λ seats. AllStandAtFirst seats.items) }
    ensures outcomes { IfOk result (λ seats. outcomes_of seats.items ≡ no_outcomes list.now) }
{
    let mut seats = List::new(alloc);
    for k in 0..list.nodes() {
        seats.push(Seat {
            controller: Controller::new(alloc, list, k)?,
            incidents: no_incidents(),
            outcome: Outcome {
                delivered: None,
                status: StatusWords { words: [0; 4] },
            },
        })?;
    }
    Ok(seats.into_vec())
}
