//! The three passes of a slot over a cluster's nodes.
//!
//! In a slot all controllers begin; then all plan, and what they send is put on the medium; then each
//! takes what it hears. Between the first pass and the second [`is_loaded`] says for which nodes a
//! message is to be chosen.
//!
//! The first pass and the third go over any run of node numbers, so that threads can share them: each
//! thread has its own part of the seats, as `split_at_mut` gives them, and the number of its first
//! node, and all share the list, the script and, in the third pass, the medium. Each part is to be
//! passed once. The second pass goes over all seats, since the medium takes one frame after another.
//!
//! No pass takes memory.
ghost use Rattle.std.specs.Prelude.{◌≡◌, ℕ, ◌<◌, ◌≤◌, ◌+◌, List, length, All};
ghost use Rattle.ttp_world.specs.declared.node.Chosen.{Chosen as Choice};
ghost use Rattle.ttp_world.specs.declared.script.TheConstants.{SLOT_LIMIT, DRIFT_LIMIT};
ghost use Rattle.ttp_world.specs.Diary.{History};
ghost use Rattle.ttp_world.specs.Medl.{IsValid};
ghost use Rattle.ttp_world.specs.Script.{IsWithinSpan};
ghost use Rattle.ttp_world.specs.World.{BegunSlot, slot_after, is_loaded, frames_in};
ghost use Rattle.medium.specs.StandsFor.{ShowsCarried};
ghost use Rattle.ttp_world.specs.declared.script.Channel.TheVariants as ScriptChannel;
ghost use Rattle.controller.specs.KnownFrames.{AreKnownOf};
ghost use Rattle.controller.specs.Limits.{IsBegun, IsPlanned};
ghost use Rattle.controller.specs.Passes.{StandAfter, HasBegun, HaveBegun, HavePlanned, CarriesFrames, HaveEnded};
ghost use Rattle.controller.specs.Passes.{BeginsSlot, PlansSlot, SendsOne, EndsSlot, IsPlannedFrom};
ghost use Rattle.controller.specs.Passes.{ArePayloadsBefore, ArePayloadsFor, IsPayloadBefore, IsPayloadFor};
ghost use Rattle.controller.specs.Passes.{payload_handed};
ghost use Rattle.controller.specs.PlantWithin.{most_ahead, most_ahead_in, IsEnded, IsControllerOf, AreSeats};
ghost use Rattle.controller.specs.PlantWithin.{IsIncidentsOf, AreIncidents, IsFromWithin};

use crate::controller::{Controller, Intent};
use crate::known_frames::KnownFrames;
use crate::seat::Seat;
use medium::{Arrival, Medium, Outgoing, received};
use ttp_world::{Channel, Chosen, Medl, Script};

// A controller begins the slot. What happens to its node in it is written in place.
fn begin_one(seat: &mut Seat, list: &Medl, script: &Script, k: u8, slot: u32)
    requires node { k < length list.now.slots }
    requires on { length script.now.on ≡ length list.now.slots }
    requires slot { slot ≤ SLOT_LIMIT }
    requires controller { IsControllerOf list.now IsEnded (most_ahead slot) k seat.old.controller }
    ensures incidents { IsIncidentsOf script.now slot k seat.new.incidents }
    ensures controller { IsControllerOf list.now IsBegun (most_ahead_in slot) k seat.new.controller }
    ensures begins { BeginsSlot list.now script.now slot k seat.old.controller seat.new.controller }
    ensures payload { (chosen : Choice) → IsPayloadBefore script.now slot chosen k seat.old.controller
        → IsPayloadFor seat.new.controller chosen }
{
    let mut last = seat.controller.last_look_up();
    seat.incidents = script.incidents_after(k, slot, &mut last);
    seat.controller.begin(
        list,
        script.is_on(k, slot),
        seat.incidents.armed,
        seat.incidents.jump,
    );
    seat.controller.keep_look_up(last);
}

/// The first pass, over the seats of the nodes from `first` on: each begins the slot. What happens to
/// each node in the slot is looked up in the script, here alone, and kept in its seat.
///
/// It costs a look-up in the script for each node.
pub fn begin_all(seats: &mut [Seat], list: &Medl, script: &Script, first: u8, slot: u32)
    requires list { IsValid list.now }
    requires on { length script.now.on ≡ length list.now.slots }
    requires slot { slot ≤ SLOT_LIMIT }
    requires nodes { first + length seats.old ≤ length list.now.slots }
    requires seats { AreSeats list.now IsEnded (most_ahead slot) first seats.old }
    ensures count { length seats.new ≡ length seats.old }
    ensures incidents { AreIncidents script.now slot first seats.new }
    ensures seats { AreSeats list.now IsBegun (most_ahead_in slot) first seats.new }
    ensures begin { (history : History) → length history ≡ slot → StandAfter script.now history first seats.old
        → HaveBegun (slot_after list.now script.now history) first seats.new }
    ensures payloads { (chosen : List Choice) → ArePayloadsBefore script.now slot chosen first seats.old
        → ArePayloadsFor chosen first seats.new }
{
    for j in 0..seats.len() {
        begin_one(&mut seats[j], list, script, first + j as u8, slot);
    }
}

/// Whether a node's frame carries a message in the slot that its controller has begun.
pub fn is_loaded(controller: &Controller) -> bool
    ensures { (s : BegunSlot) (k : ℕ) → HasBegun s k controller.now → result ≡ is_loaded s k }
{
    matches!(controller.intent(), Intent::Loaded)
}

// The payload that goes into the frame of a node that will send this.
fn payload_for(intent: Intent, chosen: &Chosen) -> &[u8]
    ensures { result.now ≡ payload_handed intent chosen.now }
{
    match intent {
        Intent::Loaded => chosen.payload.bytes(),
        Intent::Quiet => &[],
        Intent::Bare => &[],
    }
}

// A controller plans its frame, by the message that is chosen for its node.
fn plan_one(controller: &mut Controller, list: &Medl, chosen: &Chosen) -> Option<Outgoing>
    requires list { list.now ≡ controller.old.list }
    requires turn { IsBegun controller.old.turn }
    requires payload { IsPayloadFor controller.old chosen.now }
    ensures planned { IsPlannedFrom controller.old controller.new }
    ensures plans { PlansSlot controller.old controller.new chosen.now result }
{
    let payload = payload_for(controller.intent(), chosen);
    controller.plan(list, chosen.number, payload)
}

// A controller plans, and its frame is put on the medium, if it sends one. It stands apart, since room for a
// frame is made in it.
#[inline(never)]
fn send_frame(
    seat: &mut Seat,
    medium: &mut Medium,
    list: &Medl,
    script: &Script,
    k: u8,
    chosen: &Chosen,
)
    requires node { k < length list.now.slots }
    requires controller { IsControllerOf list.now IsBegun (most_ahead_in medium.old.slot) k seat.old.controller }
    requires payload { IsPayloadFor seat.old.controller chosen.now }
    requires incidents { IsIncidentsOf script.now medium.old.slot k seat.old.incidents }
    ensures { SendsOne list.now script.now k chosen.now seat.old seat.new medium.old medium.new }
{
    if let Some(frame) = plan_one(&mut seat.controller, list, chosen) {
        medium.put(script, &seat.incidents, k, &frame, seat.controller.clock());
    }
}

// The same, by a shorter way for the many that send nothing.
fn send_one(
    seat: &mut Seat,
    medium: &mut Medium,
    list: &Medl,
    script: &Script,
    k: u8,
    chosen: &Chosen,
)
    requires node { k < length list.now.slots }
    requires controller { IsControllerOf list.now IsBegun (most_ahead_in medium.old.slot) k seat.old.controller }
    requires payload { IsPayloadFor seat.old.controller chosen.now }
    requires incidents { IsIncidentsOf script.now medium.old.slot k seat.old.incidents }
    ensures { SendsOne list.now script.now k chosen.now seat.old seat.new medium.old medium.new }
{
    match seat.controller.intent() {
        Intent::Quiet => seat.controller.plan_nothing(),
        Intent::Bare | Intent::Loaded => send_frame(seat, medium, list, script, k, chosen),
    }
}

/// The second pass, over all seats: each plans its frame, and those that are sent are put on the
/// medium. Where [`is_loaded`] says so, a node's message is to have as much payload as the list gives
/// the node; what is there for the others is not read.
///
/// It costs the making of each frame, with its check word, and what it costs to put it.
pub fn plan_all(
    seats: &mut [Seat],
    medium: &mut Medium,
    list: &Medl,
    script: &Script,
    slot: u32,
    chosen: &[Chosen],
)
    requires list { IsValid list.now }
    requires nodes { length seats.old ≡ length list.now.slots }
    requires seats { AreSeats list.now IsBegun (most_ahead_in slot) 0 seats.old }
    requires incidents { AreIncidents script.now slot 0 seats.old }
    requires count { length chosen.now ≡ length list.now.slots }
    requires chosen { ArePayloadsFor chosen.now 0 seats.old }
    ensures count { length seats.new ≡ length seats.old }
    ensures seats { AreSeats list.now IsPlanned (most_ahead_in slot) 0 seats.new }
    ensures incidents { AreIncidents script.now slot 0 seats.new }
    ensures slot { medium.new.slot ≡ slot }
    ensures medium { IsFromWithin medium.new script.now (most_ahead_in slot) }
    ensures plan { (history : History) → HaveBegun (slot_after list.now script.now history) 0 seats.old
        → HavePlanned (slot_after list.now script.now history) chosen.now 0 seats.new }
    ensures carries { (history : History) → length history ≡ slot
        → HaveBegun (slot_after list.now script.now history) 0 seats.old
        → CarriesFrames (slot_after list.now script.now history)
        (frames_in (slot_after list.now script.now history) chosen.now) medium.new }
{
    medium.begin(slot);
    for k in 0..seats.len() {
        send_one(&mut seats[k], medium, list, script, k as u8, &chosen[k]);
    }
}

// A controller takes what its node hears.
fn take_one(
    seat: &mut Seat,
    medium: &Medium,
    list: &Medl,
    script: &Script,
    k: u8,
    there_a: &Arrival,
    there_b: &Arrival,
    known: &mut KnownFrames,
)
    requires list { IsValid list.now }
    requires node { k < length list.now.slots }
    requires drifts { length script.now.drift ≡ length list.now.slots }
    requires drift { All (IsWithinSpan DRIFT_LIMIT) script.now.drift }
    requires slot { medium.now.slot < SLOT_LIMIT }
    requires medium { IsFromWithin medium.now script.now (most_ahead_in medium.now.slot) }
    requires incidents { IsIncidentsOf script.now medium.now.slot k seat.old.incidents }
    requires controller { IsControllerOf list.now IsPlanned (most_ahead_in medium.now.slot) k seat.old.controller }
    requires there_a { ShowsCarried medium.now ScriptChannel.A there_a.now }
    requires there_b { ShowsCarried medium.now ScriptChannel.B there_b.now }
    requires known { AreKnownOf list.now there_a.now there_b.now known.old }
    ensures keeps { known.new ≡ known.old }
    ensures controller { IsControllerOf list.now IsEnded (most_ahead (medium.now.slot + 1)) k seat.new.controller }
    ensures ends { EndsSlot list.now script.now medium.now k seat.old.controller seat.new.controller
        seat.new.outcome }
{
    let a = received(there_a, &seat.incidents, Channel::A);
    let b = received(there_b, &seat.incidents, Channel::B);
    seat.controller.take_known(
        list,
        a,
        b,
        known,
        seat.incidents.error,
        *script.drift.get(k as usize),
        &mut seat.outcome,
    );
}

/// The third pass, over the seats of the nodes from `first` on: each takes what its node hears, and
/// keeps what the slot leaves for its host.
///
/// It costs at most two check words for each channel that a node judges.
pub fn take_all(seats: &mut [Seat], medium: &Medium, list: &Medl, script: &Script, first: u8)
    requires list { IsValid list.now }
    requires nodes { first + length seats.old ≤ length list.now.slots }
    requires drifts { length script.now.drift ≡ length list.now.slots }
    requires drift { All (IsWithinSpan DRIFT_LIMIT) script.now.drift }
    requires slot { medium.now.slot < SLOT_LIMIT }
    requires medium { IsFromWithin medium.now script.now (most_ahead_in medium.now.slot) }
    requires incidents { AreIncidents script.now medium.now.slot first seats.old }
    requires seats { AreSeats list.now IsPlanned (most_ahead_in medium.now.slot) first seats.old }
    ensures count { length seats.new ≡ length seats.old }
    ensures seats { AreSeats list.now IsEnded (most_ahead (medium.now.slot + 1)) first seats.new }
    ensures end { (history : History) (chosen : List Choice)
        → HavePlanned (slot_after list.now script.now history) chosen first seats.old
        → CarriesFrames (slot_after list.now script.now history)
        (frames_in (slot_after list.now script.now history) chosen) medium.now
        → HaveEnded list.now script.now history chosen first seats.new }
{
    let a = medium.carried(Channel::A);
    let b = medium.carried(Channel::B);
    let mut known = KnownFrames::of(list, &a, &b);
    for j in 0..seats.len() {
        take_one(
            &mut seats[j],
            medium,
            list,
            script,
            first + j as u8,
            &a,
            &b,
            &mut known,
        );
    }
}
