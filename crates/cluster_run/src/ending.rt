//! The end of a slot: each controller takes what its node hears, and hands on what its host is to get.
ghost use Rattle.std.specs.Prelude.{◌≡◌};
ghost use Rattle.cluster_run.specs.Ending.{MayHandOn, delivered_to, handed_on, number_handed};
ghost use Rattle.cluster_run.specs.Ending.{IsPartReady, HasPartEnded};

use crate::nodes::Desk;
use controller::{Outcome, Seat, take_all};
use host_port::ControllerEnd;
use medium::Medium;
use ttp_base::Gate;
use ttp_world::{Delivered, Medl, Script};

/// What all parts of the nodes read as a slot ends.
#[derive(Clone, Copy)]
pub(crate) struct Common<'a> {
    pub(crate) list: &'a Medl,
    pub(crate) script: &'a Script,
    pub(crate) medium: &'a Medium,
}

// A controller delivers a payload, if there is one, and answers its number.
fn deliver<G: Gate>(end: &mut ControllerEnd, delivered: &Option<Delivered>, gate: &G) -> Option<u64>
    requires room { MayHandOn end.old delivered.now }
    ensures end { end.new ≡ delivered_to end.old delivered.now }
    ensures number { result ≡ number_handed end.old delivered.now }
{
    match delivered {
        Some(got) => Some(end.deliver(got, gate)),
        None => None,
    }
}

// A controller hands on what the slot left for its host.
fn hand_on<G: Gate>(desk: &mut Desk, outcome: &Outcome, gate: &G)
    requires room { MayHandOn desk.old.end outcome.now.delivered }
    ensures end { desk.new.end ≡ handed_on desk.old.end outcome.now }
    ensures number { desk.new.delivered ≡ number_handed desk.old.end outcome.now.delivered }
{
    desk.delivered = deliver(&mut desk.end, &outcome.delivered, gate);
    desk.end.publish(&outcome.status, gate);
}

/// The controllers of the nodes from a first one on end the slot, and then hand on what it left, one after another.
pub(crate) fn end_from<G: Gate>(
    first: u8,
    seats: &mut [Seat],
    desks: &mut [Desk],
    common: &Common,
    gate: &G,
)
    requires { IsPartReady common.now.list.now common.now.script.now common.now.medium.now first seats.old desks.old }
    ensures { HasPartEnded common.now.list.now common.now.script.now common.now.medium.now first seats.old seats.new
        desks.old desks.new }
{
    take_all(seats, common.medium, common.list, common.script, first);
    for j in 0..desks.len() {
        hand_on(&mut desks[j], &seats[j].outcome, gate);
    }
}
