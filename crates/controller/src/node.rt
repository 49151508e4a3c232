//! What a node keeps of its past, and what one more entry makes of it.
ghost use Rattle.std.specs.Prelude.{◌≡◌, ◌+◌, ◌*◌, ◌<◌, ◌+ℤ◌, length, min};
ghost use Rattle.ttp_world.specs.After.{past_after, limit_after, silent_slots_after, correction_after};
ghost use Rattle.ttp_world.specs.Act.{coming_place};
ghost use Rattle.ttp_world.specs.Clock.{is_corrected, join_deviation, slot_change};
ghost use Rattle.ttp_world.specs.Diary.{phase_after, cstate_at};
ghost use Rattle.ttp_world.specs.Medl.{IsValid};
ghost use Rattle.ttp_world.specs.Messages.{has_averaged};
ghost use Rattle.ttp_world.specs.Past.{state_of, no_past};
ghost use Rattle.node_parts.specs.Listening.{most_silent, is_silent};
ghost use Rattle.node_parts.specs.Notes.{IsDeviation};
ghost use Rattle.node_parts.specs.ClockStandsFor.{ClockStandsFor};
ghost use Rattle.controller.specs.Kept.{kept};
ghost use Rattle.controller.specs.Within.{IsPastWithin, IsEntryWithin, AreChangesWithin, IsChange};

mod acting;
mod stint;

use node_parts::acknowledgement::AckState;
use node_parts::cold_start::{Heard, Listener};
use node_parts::fta_sync::Measures;
use node_parts::members::Clique;
use node_parts::slot_clock::SlotClock;
use std::marker::Model;
use stint::next_clock;
use ttp_base::NodeSet;
use ttp_world::{CState, Entry, Medl, NodeState, Phase};

/// What comes to a node from outside in a slot, which contracts see as its surroundings.
#[derive(Clone, Copy)]
pub(crate) struct Outside {
    /// How far its clock jumps, and how far it drifts, in microticks.
    pub(crate) jump: i64,
    pub(crate) drift: i64,
    /// Whether both channels are silent to it.
    pub(crate) silent: bool,
}

impl Model for Outside {
    ghost use Rattle.ttp_world.specs.Diary.{SlotSurroundings};

    ghost Value = { SlotSurroundings };

    ghost view = { λ s. record { jump = s.jump; drift = s.drift; is_silent = s.silent } };

    ghost inverse = { λ s. record { jump = s.jump; drift = s.drift; silent = s.is_silent } };
}

/// What a node keeps of its past.
///
/// Contracts see it as all that the rules ask of that, as the definitions read it from a diary, with at
/// most 65535 silent slots and four notes. What belongs to a stint is empty where the node is not active.
#[derive(Drop)]
pub(crate) struct Node {
    // What it did in the newest slot.
    entry: Entry,
    // The place of that slot, with the members after it.
    cstate: CState,
    counts: Clique,
    ack: AckState,
    // Whether its newest own frame is a cold start.
    cold_start: bool,
    // How many silent slots it waits for, and how many there were.
    listener: Listener,
    // Its clock after that slot, in microticks.
    offset: i64,
    // The notes of that slot's round.
    measures: Measures,
}

impl Model for Node {
    ghost use Rattle.ttp_world.specs.Diary.{phase_after, joined_place};
    ghost use Rattle.ttp_world.specs.Past.{NodePast};

    ghost Value = { NodePast };

    ghost view = { λ n. record {
      phase = phase_after n.entry;
      entry = n.entry;
      place = joined_place n.cstate;
      members = n.cstate.members;
      accepted = n.counts.accepted;
      rejected = n.counts.rejected;
      ack = n.ack;
      cold_start = n.cold_start;
      limit = n.listener.limit;
      silent_slots = n.listener.silent_slots;
      offset = n.offset;
      notes = n.measures;
    } };
}

// What a node is after its newest entry.
fn phase_after(entry: Entry) -> Phase
    ensures { result ≡ phase_after entry }
{
    match entry {
        Entry::Off => Phase::Off,
        Entry::Waited | Entry::Retried => Phase::Listening,
        Entry::Left { .. } | Entry::Gone => Phase::Left,
        Entry::Started | Entry::Sent { .. } | Entry::Joined { .. } | Entry::Judged { .. } => {
            Phase::Active
        }
    }
}

// How many silent slots node k waits for, until it withdraws a cold start.
fn first_limit(list: &Medl, k: u8) -> u16
    requires { IsValid list.now }
    ensures { result ≡ 2 * length list.now.slots + k }
{
    2 * u16::from(list.nodes()) + u16::from(k)
}

// The listener with one more slot.
fn heard_after(listener: Listener, heard: Heard) -> Listener
    ensures limit { result.limit ≡ listener.limit }
    ensures silent { result.silent_slots
        ≡ min (silent_slots_after listener.silent_slots Entry.Waited (is_silent heard)) most_silent }
{
    let mut after = listener;
    after.hear(heard);
    after
}

// What node k waits for and how many slots were silent, after one more entry.
fn listener_after(listener: Listener, list: &Medl, k: u8, entry: &Entry, silent: bool) -> Listener
    requires { IsValid list.now }
    ensures limit { result.limit ≡ limit_after list.now k listener.limit entry.now }
    ensures silent { result.silent_slots ≡ min (silent_slots_after listener.silent_slots entry.now silent) most_silent }
{
    match entry {
        Entry::Retried => Listener::new(u16::from(list.nodes()) + u16::from(k)),
        Entry::Left { .. } | Entry::Gone => Listener::new(first_limit(list, k)),
        Entry::Waited if silent => heard_after(listener, Heard::Silent),
        _ => heard_after(listener, Heard::Other),
    }
}

// The deviation by which a node joins.
fn join_deviation(entry: Entry) -> i64
    ensures { result ≡ join_deviation entry }
{
    match entry {
        Entry::Joined { deviation, .. } => deviation,
        _ => 0,
    }
}

fn sum_of_changes(jump: i64, drift: i64, joined: i64, corrected: i64) -> i64
    requires jump { IsDeviation jump }
    requires drift { IsDeviation drift }
    requires joined { IsDeviation joined }
    requires corrected { IsDeviation corrected }
    ensures value { result ≡ jump +ℤ (drift +ℤ (joined +ℤ corrected)) }
    ensures within { IsChange result }
{
    jump + (drift + (joined + corrected))
}

impl Node {
    /// Node k before its first slot.
    pub(crate) fn new(list: &Medl, k: u8) -> Node
        requires valid { IsValid list.now }
        requires node { k < length list.now.slots }
        ensures value { result ≡ no_past list.now k }
        ensures within { IsPastWithin list.now k result }
    {
        Node {
            entry: Entry::Off,
            cstate: CState {
                time: 0,
                round: 0,
                slot: 0,
                members: NodeSet::empty(),
            },
            counts: Clique::none(),
            ack: AckState::new(),
            cold_start: false,
            listener: Listener::new(first_limit(list, k)),
            offset: 0,
            measures: Measures::new(),
        }
    }

    /// The same past once more.
    pub(crate) fn copy(&self) -> Node
        ensures { result ≡ self.now }
    {
        Node {
            entry: self.entry,
            cstate: self.cstate,
            counts: self.counts,
            ack: self.ack,
            cold_start: self.cold_start,
            listener: self.listener,
            offset: self.offset,
            measures: self.measures.copy(),
        }
    }

    pub(crate) fn phase(&self) -> Phase
        ensures { result ≡ self.now.phase }
    {
        phase_after(self.entry)
    }

    /// What is shown of the node.
    pub(crate) fn state(&self) -> NodeState
        ensures { result ≡ state_of self.now }
    {
        NodeState {
            phase: self.phase(),
            entry: self.entry,
            members: self.cstate.members,
            accepted: self.counts.accepted(),
            rejected: self.counts.rejected(),
            ack: self.ack.value(),
            offset: self.offset,
        }
    }

    /// The node's clock, in microticks ahead.
    pub(crate) fn offset(&self) -> i64
        ensures { result ≡ self.now.offset }
    {
        self.offset
    }

    /// The place of the newest slot, with the members after it.
    pub(crate) fn cstate(&self) -> CState
        ensures { result ≡ cstate_at self.now.place self.now.members }
    {
        self.cstate
    }

    /// The nodes that it holds for members.
    pub(crate) fn members(&self) -> NodeSet
        ensures { result ≡ self.now.members }
    {
        self.cstate.members
    }

    /// What it knows of its own newest frame.
    pub(crate) fn acknowledgement(&self) -> AckState
        ensures { result ≡ self.now.ack }
    {
        self.ack
    }

    /// The clock by slots at the coming slot.
    pub(crate) fn coming(&self, list: &Medl) -> SlotClock
        requires valid { IsValid list.now }
        requires round { self.now.place.round < list.now.rounds }
        requires slot { self.now.place.slot < length list.now.slots }
        ensures { ClockStandsFor result list.now (coming_place list.now self.now) }
    {
        next_clock(list, &self.cstate)
    }

    // Whether its clock was corrected in the newest slot: it is active, and the slot the last of a round.
    fn is_corrected(&self, list: &Medl) -> bool
        requires { IsValid list.now }
        ensures { result ≡ is_corrected list.now self.now.phase self.now.place }
    {
        let ends_round = u16::from(self.cstate.slot) + 1 == u16::from(list.nodes());
        self.phase() == Phase::Active && ends_round
    }

    /// Whether four deviations were averaged in the newest slot.
    pub(crate) fn has_averaged(&self, list: &Medl) -> bool
        requires { IsValid list.now }
        ensures { result ≡ has_averaged list.now self.now }
    {
        self.is_corrected(list) && self.measures.ready()
    }

    // By how much the newest slot corrects its clock.
    fn correction(&self, list: &Medl) -> i64
        requires { IsValid list.now }
        ensures value { result ≡ correction_after list.now self.now.place self.now.notes self.now.entry }
        ensures within { IsDeviation result }
    {
        if self.is_corrected(list) {
            self.measures.correction()
        } else {
            0
        }
    }

    // What the newest slot changes of its clock.
    fn clock_change(&self, list: &Medl, outside: &Outside) -> i64
        requires valid { IsValid list.now }
        requires changes { AreChangesWithin outside.now }
        requires joined { IsDeviation (join_deviation self.now.entry) }
        ensures value { result
            ≡ slot_change self.now.entry outside.now
            (correction_after list.now self.now.place self.now.notes self.now.entry) }
        ensures within { IsChange result }
    {
        match self.entry {
            Entry::Off => 0,
            entry => sum_of_changes(
                outside.jump,
                outside.drift,
                join_deviation(entry),
                self.correction(list),
            ),
        }
    }

    /// Takes one more entry of node k, with what came from outside in its slot.
    #[inline(always)]
    pub(crate) fn enter(&mut self, list: &Medl, k: u8, entry: &Entry, outside: &Outside)
        requires valid { IsValid list.now }
        requires node { k < length list.now.slots }
        requires within { IsPastWithin list.now k self.old }
        requires entry { IsEntryWithin list.now k self.old entry.now }
        requires offset { IsDeviation self.old.offset }
        requires changes { AreChangesWithin outside.now }
        ensures value { self.new ≡ kept (past_after list.now k self.old entry.now outside.now) }
        ensures within { IsPastWithin list.now k self.new }
    {
        self.enter_stint(list, k, entry);
        self.listener = listener_after(self.listener, list, k, entry, outside.silent);
        self.entry = *entry;
        self.offset += self.clock_change(list, outside);
    }
}
