//! How far apart clocks came in a run.
ghost use Rattle.std.specs.Prelude.{◌≡◌, ◌+◌, ◌<◌, IfOk, IfSome};
ghost use Rattle.ttp_world.specs.Legal.{IsLegalRun};
ghost use Rattle.ttp_world.specs.Medl.{IsValid};
ghost use Rattle.ttp_world.specs.Script.{IsValidScript};
ghost use Rattle.ttp_world.specs.World.{Numbers};
ghost use Rattle.two_faced.specs.Seen.{apart_after, seen_with_slot, seen_in, seen_of};
ghost use Rattle.two_faced.specs.Spans.{with_clock, IsNearClock, IsNearSpan};
ghost use Rattle.ttp_world.specs.ZerosWorld.{zeros_world};
ghost use Rattle.controller.specs.ZerosRun.{RunStandsAfter};

use controller::ZerosRun;
use hypothesis::start_of;
use std::alloc::Global;
use ttp_base::Memory;
use ttp_world::{Medl, Script};

/// How far apart clocks came, in microticks, and after which slot, counted from 0.
#[derive(Clone, Copy, PartialEq, Eq)]
pub struct Seen {
    pub value: i64,
    pub slot: u32,
}

// The least and the greatest of some clocks.
#[derive(Clone, Copy)]
struct Span {
    least: i64,
    greatest: i64,
}

// One clock more.
fn with_clock(span: Option<Span>, clock: i64) -> Span
    requires span { IfSome span IsNearSpan }
    requires clock { IsNearClock clock }
    ensures value { result ≡ with_clock span clock }
    ensures near { IsNearSpan result }
{
    match span {
        Some(span) => Span {
            least: span.least.min(clock),
            greatest: span.greatest.max(clock),
        },
        None => Span {
            least: clock,
            greatest: clock,
        },
    }
}

// How far the clocks of the nodes that are on are apart after a slot, but for a node's.
fn apart_after(run: &ZerosRun, list: &Medl, script: &Script, node: u8, slot: u32) -> i64
    requires valid { IsValid list.now }
    requires script { IsValidScript list.now script.now }
    requires slot { slot < script.now.slots }
    requires stands { RunStandsAfter run.now list.now script.now (slot + 1) }
    ensures { result ≡ apart_after list.now script.now node slot (zeros_world list.now script.now (slot + 1)) }
{
    let mut span = None;
    for k in 0..list.nodes() {
        if k != node && script.is_on(k, slot) {
            span = Some(with_clock(span, run.clock(list, k)));
        }
    }
    match span {
        Some(span) => span.greatest - span.least,
        None => 0,
    }
}

// Of what was seen and a later slot, from the start on the one that shows more.
fn seen_with_slot(start: u32, seen: Seen, later: Seen) -> Seen
    ensures { result ≡ seen_with_slot start seen later }
{
    if later.slot < start || later.value <= seen.value {
        seen
    } else {
        later
    }
}

// What is seen from the start on in a run that has not begun.
fn seen_in(run: ZerosRun, list: &Medl, script: &Script, node: u8, start: u32) -> Seen
    requires valid { IsValid list.now }
    requires script { IsValidScript list.now script.now }
    requires stands { RunStandsAfter run list.now script.now 0 }
    ensures { result ≡ seen_in list.now script.now node start (zeros_world list.now script.now script.now.slots) }
{
    let mut run = run;
    let mut seen = Seen {
        value: 0,
        slot: start,
    };
    for slot in 0..script.slots {
        run.step(list, script, slot);
        let value = apart_after(&run, list, script, node, slot);
        seen = seen_with_slot(start, seen, Seen { value, slot });
    }
    seen
}

/// The largest difference between the clocks of two nodes that are on and are not this one, after a
/// slot of the run from its start on, with the least such slot. Where the run ends before the start, or
/// two such nodes are never on together, it is 0 with the slot of the start.
///
/// It is the same for all legal message numbers, whatever hosts write and read. Where the script breaks
/// the rule on the start, the answer is 0 with slot 0. The cluster is run through its controllers, with
/// zeros for the payload of every frame: memory is taken before the first slot, and a slot costs its
/// nodes, whatever its number. `Memory` where memory was refused.
pub fn find_seen(alloc: Global, list: &Medl, script: &Script, node: u8) -> Result<Seen, Memory>
    requires valid { IsValid list.now }
    requires script { IsValidScript list.now script.now }
    ensures { IfOk result (λ seen. (numbers : Numbers) → IsLegalRun list.now script.now numbers
        → seen ≡ seen_of list.now script.now numbers node) }
{
    let run = ZerosRun::new(alloc, list)?;
    match start_of(list, script) {
        Some(start) => Ok(seen_in(run, list, script, node, start.slot)),
        None => Ok(Seen { value: 0, slot: 0 }),
    }
}
