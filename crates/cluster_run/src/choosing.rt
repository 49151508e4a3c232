//! Which messages the frames of a slot carry.
ghost use Rattle.std.specs.Prelude.{◌≡◌, [], IfOk};
ghost use Rattle.std.specs.List.{filter_map};
ghost use Rattle.ttp_world.specs.Script.{write_at, writes_in};
ghost use Rattle.cluster_run.specs.Choosing.{MayChoose, ChoosesAll};

use crate::current::CurrentSlot;
use crate::fetching::fetch_each;
use crate::sending::{lend_fetchers, settle_fetchers, write_and_fetch};
use crate::staff::Hired;
use controller::Seat;
use host_port::{HostEnd, WriteLine};
use std::mem;
use std::sync::Wait;
use ttp_base::{Gate, Memory};
use ttp_world::Chosen;

// Hosts write at these places of the script, and controllers fetch. The lines of the writes are handed out with the
// ends.
fn write_and_choose<'b, 'a, R: Wait, G: Gate>(
    rt: &R,
    staff: &mut Option<Hired<'b, 'a>>,
    at: &CurrentSlot<'a>,
    places: &'a [usize],
    ends: Vec<HostEnd>,
    seats: &[Seat],
    chosen: &mut [Chosen],
    gate: &G,
) -> Result<(Vec<HostEnd>, Vec<WriteLine>), Memory>
    requires places { filter_map (write_at at.now.script.now) places.now ≡ writes_in at.now.script.now at.now.slot }
    requires may { MayChoose at.now seats.now ends.items chosen.old }
    ensures { IfOk result (λ r. ChoosesAll at.now seats.now ends.items r.0.items chosen.new r.1.items) }
{
    let (ends, fetchers) = lend_fetchers(at.alloc, ends, seats)?;
    let lines = Vec::with_capacity(at.alloc, places.len())?;
    let (ends, lines, fetchers) = write_and_fetch(
        rt, staff, ends, fetchers, at.script, places, lines, gate,
    );
    let ends = settle_fetchers(at.list, ends, fetchers, chosen);
    Ok((ends, lines))
}

// No host writes in the slot. The lines, which are none, are handed out.
fn fetch_and_choose<'a, G: Gate>(
    at: &CurrentSlot<'a>,
    ends: &mut [HostEnd],
    seats: &[Seat],
    chosen: &mut [Chosen],
    gate: &G,
) -> Result<Vec<WriteLine>, Memory>
    requires quiet { writes_in at.now.script.now at.now.slot ≡ [] }
    requires may { MayChoose at.now seats.now ends.old chosen.old }
    ensures { IfOk result (λ lines. ChoosesAll at.now seats.now ends.old ends.new chosen.new lines.items) }
{
    fetch_each(at.list, ends, seats, chosen, gate)?;
    Ok(Vec::new(at.alloc))
}

/// Hosts write what they do in the slot, and each controller whose node's frame carries a message
/// fetches it. The lines of the writes are handed out. After `Memory` the ends may be gone.
pub(crate) fn choose<'b, 'a, R: Wait, G: Gate>(
    rt: &R,
    staff: &mut Option<Hired<'b, 'a>>,
    at: &CurrentSlot<'a>,
    ends: &mut Vec<HostEnd>,
    seats: &[Seat],
    chosen: &mut [Chosen],
    gate: &G,
) -> Result<Vec<WriteLine>, Memory>
    requires { MayChoose at.now seats.now ends.old.items chosen.old }
    ensures { IfOk result (λ lines. ChoosesAll at.now seats.now ends.old.items ends.new.items chosen.new lines.items) }
{
    let places = at.script.writes(at.slot);
    if places.is_empty() {
        let none = fetch_and_choose(at, ends.as_mut_slice(), seats, chosen, gate)?;
        return Ok(none);
    }
    // A job has the ends by value.
    let given = mem::replace(ends, Vec::new(at.alloc));
    let (given, lines) = write_and_choose(rt, staff, at, places, given, seats, chosen, gate)?;
    *ends = given;
    Ok(lines)
}
