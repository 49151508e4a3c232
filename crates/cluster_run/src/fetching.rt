//! What controllers fetch in a slot in which no host writes.
ghost use Rattle.std.specs.Prelude.{◌≡◌, ℕ, ◌<◌, ◌≤◌, length, get_or, OnOk, IsSome, true};
ghost use Rattle.ttp_world.specs.Medl.{IsValid, plan_at};
ghost use Rattle.ttp_world.specs.Outgoing.{nothing_chosen};
ghost use Rattle.ttp_world.specs.World.{BegunSlot, is_loaded};
ghost use Rattle.controller.specs.Passes.{HaveBegun};
ghost use Rattle.cluster_run.specs.Ends.{host_at};
ghost use Rattle.cluster_run.specs.Sending.{MayFetchAlone, MaySettleAfter, FetchesOne};

use crate::sending::{fetch_one, lend_one, settle_one};
use controller::{Seat, is_loaded};
use host_port::HostEnd;
use ttp_base::{Gate, Memory};
use ttp_world::{Chosen, Medl, PAYLOAD_LIMIT};

// A node's controller fetches, and chooses what it got. It stands apart, since room for a fetcher is made in it.
#[inline(never)]
fn fetch_loaded<G: Gate>(
    end: &mut HostEnd,
    loaded: bool,
    len: u8,
    chosen: &mut Chosen,
    gate: &G,
) -> Result<(), Memory>
    requires ring { loaded ≡ true → IsSome end.old }
    requires limit { len ≤ PAYLOAD_LIMIT }
    requires may { MaySettleAfter len loaded end.old }
    ensures fetches { OnOk result (FetchesOne len loaded end.old end.old end.new chosen.old chosen.new) }
{
    let mut fetcher = lend_one(end, loaded)?;
    fetch_one(&mut fetcher, gate);
    settle_one(end, fetcher, len, chosen);
    Ok(())
}

// Fetches the message of a node's frame and chooses it, if the frame carries one.
fn fetch_for<G: Gate>(
    end: &mut HostEnd,
    loaded: bool,
    len: u8,
    chosen: &mut Chosen,
    gate: &G,
) -> Result<(), Memory>
    requires limit { len ≤ PAYLOAD_LIMIT }
    requires may { (loaded ≡ true → IsSome end.old) × MaySettleAfter len loaded end.old }
    ensures fetches { OnOk result (FetchesOne len loaded end.old end.old end.new chosen.old chosen.new) }
{
    if !loaded {
        return Ok(());
    }
    fetch_loaded(end, loaded, len, chosen, gate)
}

/// Each controller whose node's frame carries a message fetches it, one after another.
pub(crate) fn fetch_each<G: Gate>(
    list: &Medl,
    ends: &mut [HostEnd],
    seats: &[Seat],
    chosen: &mut [Chosen],
    gate: &G,
) -> Result<(), Memory>
    requires list { IsValid list.now }
    requires count { length ends.old ≡ length list.now.slots }
    requires seats { length seats.now ≡ length ends.old }
    requires chosen_count { length chosen.old ≡ length ends.old }
    requires may { MayFetchAlone list.now seats.now ends.old }
    ensures ends_count { length ends.new ≡ length ends.old }
    ensures chosen_count { length chosen.new ≡ length chosen.old }
    ensures fetches { OnOk result ((s : BegunSlot) → HaveBegun s 0 seats.now → (k : ℕ) → k < length ends.old
        → FetchesOne (plan_at list.now k).payload (is_loaded s k) (host_at ends.old k) (host_at ends.old k)
        (host_at ends.new k) (get_or chosen.old k nothing_chosen) (get_or chosen.new k nothing_chosen)) }
{
    for k in 0..ends.len() {
        let loaded = is_loaded(&seats[k].controller);
        let len = list.slots.get(k).payload;
        fetch_for(&mut ends[k], loaded, len, &mut chosen[k], gate)?;
    }
    Ok(())
}
