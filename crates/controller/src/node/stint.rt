//! What one more entry makes of an active node's place, members, counts, acknowledgement and notes.
ghost use Rattle.std.specs.Prelude.{◌≡◌, ℕ, ℤ, Option, ◌<◌, ◌≤◌, ◌++◌, ◌==◌, false, [], take, length, IfSome};
ghost use Rattle.std.specs.Prelude.{Some, None, if◌then◌else◌};
ghost use Rattle.std.specs.Option.{option_to_list};
ghost use Rattle.ttp_world.specs.declared.node.Ack.TheVariants as ack;
ghost use Rattle.ttp_world.specs.Acknowledgement.{is_correct};
ghost use Rattle.ttp_world.specs.Diary.{no_place, joined_place, next_place};
ghost use Rattle.ttp_world.specs.Medl.{IsValid, plan_at};
ghost use Rattle.node_parts.specs.ClockStandsFor.{ClockStandsFor};
ghost use Rattle.node_parts.specs.Notes.{kept_notes, IsDeviation};
ghost use Rattle.controller.specs.Within.{IsPastWithin, IsCStateWithin, IsJudgedWithin, IsEntryWithin};
ghost use Rattle.controller.specs.Stint.{stint_after};

use crate::node::Node;
use node_parts::acknowledgement::AckState;
use node_parts::fta_sync::Measures;
use node_parts::members::{Clique, Membership};
use node_parts::slot_clock::SlotClock;
use ttp_base::NodeSet;
use ttp_world::{CState, Entry, Medl, Verdict};

/// The clock of the slot after the place of a C-state.
pub(crate) fn next_clock(list: &Medl, cstate: &CState) -> SlotClock
    requires valid { IsValid list.now }
    requires round { cstate.now.round < list.now.rounds }
    requires slot { cstate.now.slot < length list.now.slots }
    ensures { ClockStandsFor result list.now (next_place list.now (joined_place cstate.now)) }
{
    let mut clock = SlotClock::at(list, cstate);
    clock.next();
    clock
}

// Whether the frame of a slot is measured.
fn is_measured(list: &Medl, slot: u8) -> bool
    requires { slot < length list.now.slots }
    ensures { result ≡ (plan_at list.now slot).sync }
{
    list.slots.get(slot as usize).sync
}

// Notes the deviation of a slot, if there is one to note; the first slot of a round begins without notes.
fn note(measures: &mut Measures, list: &Medl, slot: u8, deviation: Option<i64>)
    requires slot { slot < length list.now.slots }
    requires deviation { IfSome deviation IsDeviation }
    requires few { length measures.old ≤ kept_notes }
    ensures { measures.new ≡ take kept_notes (
        (if (plan_at list.now slot).sync then option_to_list deviation else [])
        ++ (if slot == 0 then [] else measures.old)
        ) }
{
    if slot == 0 {
        measures.clear();
    }
    if let Some(deviation) = deviation
        && is_measured(list, slot)
    {
        measures.note(deviation);
    }
}

// The deviation that is noted of a frame with this verdict.
fn deviation_noted(verdict: Verdict, deviation: i64) -> Option<i64>
    ensures { result ≡ if is_correct verdict then Some deviation else None }
{
    match verdict {
        Verdict::Correct => Some(deviation),
        _ => None,
    }
}

impl Node {
    // Nothing of a stint is left.
    fn rest(&mut self)
        ensures { self.new ≡ record self.old {
          place = no_place;
          members = [];
          accepted = 0;
          rejected = 0;
          ack = ack.Closed;
          cold_start = false;
          notes = [];
        } }
    {
        self.cstate = CState {
            time: 0,
            round: 0,
            slot: 0,
            members: NodeSet::empty(),
        };
        self.counts = Clique::none();
        self.ack = AckState::new();
        self.cold_start = false;
        self.measures.clear();
    }

    // A stint begins with its own cold start.
    fn start(&mut self, list: &Medl, k: u8)
        requires valid { IsValid list.now }
        requires node { k < length list.now.slots }
        ensures { self.new ≡ stint_after list.now k self.old Entry.Started }
    {
        self.cstate = CState {
            time: 0,
            round: 0,
            slot: k,
            members: NodeSet::empty().with(k),
        };
        self.counts = Clique::fresh();
        self.ack.after_send();
        self.cold_start = true;
        self.measures.clear();
        note(&mut self.measures, list, k, Some(0));
    }

    // A stint begins with a C-state that it adopts.
    fn join(&mut self, list: &Medl, cstate: &CState)
        requires { IsCStateWithin list.now cstate.now }
        ensures { (k sender : ℕ) (deviation : ℤ)
            → self.new ≡ stint_after list.now k self.old (Entry.Joined sender cstate.now deviation) }
    {
        self.cstate = *cstate;
        self.counts = Clique::fresh();
        self.ack = AckState::new();
        self.cold_start = false;
        self.measures.clear();
        note(&mut self.measures, list, cstate.slot, Some(0));
    }

    // It sends its frame.
    fn send(&mut self, list: &Medl, k: u8)
        requires valid { IsValid list.now }
        requires node { k < length list.now.slots }
        requires within { IsPastWithin list.now k self.old }
        ensures { (message : Option ℕ) → self.new ≡ stint_after list.now k self.old (Entry.Sent message) }
    {
        let clock = next_clock(list, &self.cstate);
        let mut members = Membership::of(self.cstate.members);
        members.add(k);
        self.cstate = clock.cstate(members.set());
        self.counts = Clique::fresh();
        self.ack.after_send();
        self.cold_start = false;
        note(&mut self.measures, list, clock.sender(), Some(0));
    }

    // It judges the slot of another node.
    #[inline(always)]
    fn judge(&mut self, list: &Medl, k: u8, sender: u8, verdict: Verdict, deviation: i64)
        requires valid { IsValid list.now }
        requires node { k < length list.now.slots }
        requires within { IsPastWithin list.now k self.old }
        requires judged { IsJudgedWithin list.now k self.old sender verdict deviation }
        ensures { self.new ≡ stint_after list.now k self.old (Entry.Judged sender verdict deviation) }
    {
        let clock = next_clock(list, &self.cstate);
        let mut members = Membership::of(self.cstate.members);
        // Asked as late as may be, so that a compiler goes by the answer at once.
        let asked = self.ack.step(sender, verdict);
        members.apply(asked, sender);
        self.counts.count(asked);
        self.cstate = clock.cstate(members.set());
        note(
            &mut self.measures,
            list,
            sender,
            deviation_noted(verdict, deviation),
        );
    }

    /// What one more entry makes of its stint. A C-state that it joins by is adopted as it is.
    #[inline(always)]
    pub(crate) fn enter_stint(&mut self, list: &Medl, k: u8, entry: &Entry)
        requires valid { IsValid list.now }
        requires node { k < length list.now.slots }
        requires within { IsPastWithin list.now k self.old }
        requires entry { IsEntryWithin list.now k self.old entry.now }
        ensures { self.new ≡ stint_after list.now k self.old entry.now }
    {
        match entry {
            Entry::Started => self.start(list, k),
            Entry::Joined { cstate, .. } => self.join(list, cstate),
            Entry::Sent { .. } => self.send(list, k),
            Entry::Judged {
                sender,
                verdict,
                deviation,
            } => self.judge(list, k, *sender, *verdict, *deviation),
            _ => self.rest(),
        }
    }
}
