//! A controller: one node, slot by slot.
ghost use Rattle.std.specs.Prelude.{◌≡◌, ℕ, ◌&&◌, ◌<◌, ◌≤◌, ◌+◌, [], length, unsigned_abs, None, IsOk, IfOk};
ghost use Rattle.ttp_world.specs.Act.{act};
ghost use Rattle.ttp_world.specs.Medl.{IsValid};
ghost use Rattle.ttp_world.specs.World.{jump_taken};
ghost use Rattle.controller.specs.Hearing.{is_silent_arrival};
ghost use Rattle.controller.specs.KnownFrames.{AreKnownOf};
ghost use Rattle.controller.specs.Limits.{JumpFits, ArrivalFits, StaysNear, IsBegun, IsPlanned, view_clock};
ghost use Rattle.controller.specs.Limits.{intent_by, view_intent, payload_wanted};
ghost use Rattle.controller.specs.StandsFor.{ControllerStandsFor, IsSameNode, Begins, Plans, Ends, ShowsState};
ghost use Rattle.controller.specs.ControllerView.{Ended};

use crate::ending::ending_of;
use crate::hearing::Reading;
use crate::known_frames::KnownFrames;
use crate::node::{Node, Outside};
use crate::sending::{frame_of, intent_of, message_of};
use crate::status::status_words;
use crate::turn::Turn;
use medium::{Arrival, Outgoing};
use std::alloc::Global;
use std::marker::Model;
use std::snapshot::Snapshot;
use ttp_base::Memory;
use ttp_world::{Act, Delivered, LastLookUp, Medl, NodeState, StatusWords};

/// What a node's next plan sends.
#[derive(Clone, Copy)]
pub enum Intent {
    /// Nothing.
    Quiet,
    /// A frame without payload.
    Bare,
    /// A frame with payload.
    Loaded,
}

/// What a slot leaves for a node's host.
#[derive(Drop)]
pub struct Outcome {
    /// The payload of a correct frame.
    pub delivered: Option<Delivered>,
    /// The status of the node after the slot.
    pub status: StatusWords,
}

// By how much the clock of a node jumps that does this.
fn jump_taken(act: Act, jump: i64) -> i64
    ensures { result ≡ jump_taken act jump }
{
    match act {
        Act::Off => 0,
        _ => jump,
    }
}

// Whether nothing came on either channel.
fn are_silent(a: &Arrival, b: &Arrival) -> bool
    ensures { result ≡ (is_silent_arrival a.now && is_silent_arrival b.now) }
{
    matches!((a, b), (Arrival::Silence, Arrival::Silence))
}

/// The controller of one node.
///
/// It keeps a packed state and no diary, and *stands for* a diary of its node: what it keeps is what
/// the definitions read of that diary. In each slot `begin`, `plan` and `take` are called once, in
/// this order; after them it stands for the diary with one entry more. It keeps no list either: each
/// call is handed the one that the controller was made with.
#[derive(Drop)]
pub struct Controller {
    // The list that it was made with. Proofs alone read it, and it takes no bytes.
    given: Snapshot<Medl>,
    number: u8,
    node: Node,
    slots: u64,
    turn: Turn,
    // What the next plan sends.
    intent: Intent,
    // Where what happens to the node was looked up last.
    last: LastLookUp,
}

impl Model for Controller {
    ghost use Rattle.controller.specs.ControllerView.{ControllerView};
    ghost use Rattle.controller.specs.ControllerWithin.{IsControllerWithin};

    ghost Value = { ControllerView };

    ghost view = { λ c. record {
      list = c.given.value;
      node = c.number;
      past = c.node;
      slots = c.slots;
      turn = c.turn;
    } };

    ghost invariant = { λ c. IsControllerWithin c.given.value c.number c.node c.turn c.intent };
}

impl Controller {
    /// The controller of a node that is off, before the first slot. It takes no memory, and is never
    /// refused.
    pub fn new(_alloc: Global, list: &Medl, node: u8) -> Result<Controller, Memory>
        requires valid { IsValid list.now }
        requires node { node < length list.now.slots }
        ensures made { IsOk result }
        ensures list { IfOk result (λ c. c.list ≡ list.now) }
        ensures node { IfOk result (λ c. c.node ≡ node) }
        ensures stands { IfOk result (λ c. ControllerStandsFor c [] []) }
    {
        Ok(Controller {
            given: Snapshot::of(list),
            number: node,
            node: Node::new(list, node),
            slots: 0,
            turn: Turn::Ended,
            intent: Intent::Quiet,
            last: LastLookUp::none(),
        })
    }

    // Where what happens to the node was looked up last. The passes keep it here, and nothing rests on it.
    pub(crate) fn last_look_up(&self) -> LastLookUp {
        self.last
    }

    pub(crate) fn keep_look_up(&mut self, last: LastLookUp)
        ensures { self.new ≡ self.old }
    {
        self.last = last;
    }

    /// The beginning of a slot, in which the node is to be on or not, is armed to listen again or
    /// not, and its clock jumps by so many microticks. A node that is on stays on.
    pub fn begin(&mut self, list: &Medl, on: bool, armed: bool, jump: i64)
        requires list { list.now ≡ self.old.list }
        requires turn { self.old.turn ≡ Ended }
        requires clock { JumpFits self.old.past.offset jump }
        ensures same { IsSameNode self.old self.new }
        ensures begins { Begins self.old self.new on armed jump }
        ensures sends { view_intent self.new
            ≡ intent_by self.old.list self.old.past (act self.old.list self.old.node on armed self.old.past) }
        ensures clock { unsigned_abs (view_clock self.new) ≤ unsigned_abs self.old.past.offset + unsigned_abs jump }
        ensures turn { IsBegun self.new.turn }
    {
        let act = self.node.act(list, self.number, on, armed);
        self.intent = intent_of(list, self.number, &self.node, act);
        self.turn = Turn::Begun {
            act,
            jump: jump_taken(act, jump),
        };
    }

    /// Whether this slot's `plan` sends nothing, a frame without payload, or one with payload. It is
    /// Quiet where no slot has begun, or its plan was made.
    pub fn intent(&self) -> Intent
        ensures { result ≡ view_intent self.now }
    {
        self.intent
    }

    /// The node's clock in this slot, in microticks, with the slot's jump.
    pub fn clock(&self) -> i64
        ensures { result ≡ view_clock self.now }
    {
        match self.turn {
            Turn::Ended => self.node.offset(),
            Turn::Begun { jump, .. } => self.node.offset() + jump,
            Turn::Planned { jump, .. } => self.node.offset() + jump,
        }
    }

    /// The frame that the node sends in this slot, if it sends one: with the message of this number
    /// and payload, where the intent is Loaded. The payload is empty otherwise.
    pub fn plan(&mut self, list: &Medl, message: u64, payload: &[u8]) -> Option<Outgoing>
        requires list { list.now ≡ self.old.list }
        requires turn { IsBegun self.old.turn }
        requires payload { length payload.now ≡ payload_wanted self.old }
        ensures same { IsSameNode self.old self.new }
        ensures clock { view_clock self.new ≡ view_clock self.old }
        ensures plans { Plans self.old self.new message payload.now result }
        ensures turn { IsPlanned self.new.turn }
    {
        match self.turn {
            Turn::Begun { act, jump } => {
                let message = message_of(self.intent, message);
                self.turn = Turn::Planned { act, jump, message };
                self.intent = Intent::Quiet;
                frame_of(list, self.number, &self.node, act, payload)
            }
            Turn::Ended | Turn::Planned { .. } => None,
        }
    }

    /// The same, where the node sends nothing.
    pub(crate) fn plan_nothing(&mut self)
        requires turn { IsBegun self.old.turn }
        requires quiet { view_intent self.old ≡ Intent.Quiet }
        ensures same { IsSameNode self.old self.new }
        ensures clock { view_clock self.new ≡ view_clock self.old }
        ensures plans { (number : ℕ) → Plans self.old self.new number [] None }
        ensures turn { IsPlanned self.new.turn }
    {
        if let Turn::Begun { act, jump } = self.turn {
            self.turn = Turn::Planned {
                act,
                jump,
                message: None,
            };
        }
    }

    /// The end of the slot, by what came on both channels. The reading error is that of the node as
    /// a receiver in this slot, and the drift that of its clock, in microticks. A node that sent,
    /// left or retried in this slot hears nothing. What the slot leaves for the node's host is
    /// written over what the slot before it left.
    pub fn take(
        &mut self,
        list: &Medl,
        a: &Arrival,
        b: &Arrival,
        error: i64,
        drift: i64,
        outcome: &mut Outcome,
    )
        requires list { list.now ≡ self.old.list }
        requires turn { IsPlanned self.old.turn }
        requires a { ArrivalFits self.old.list (view_clock self.old) a.now error drift }
        requires b { ArrivalFits self.old.list (view_clock self.old) b.now error drift }
        ensures same { IsSameNode self.old self.new }
        ensures ends { Ends self.old self.new outcome.new a.now b.now error drift }
        ensures clock { StaysNear self.new.past.offset self.old a.now b.now error drift }
        ensures turn { self.new.turn ≡ Ended }
    {
        let mut known = KnownFrames::of(list, a, b);
        self.take_known(list, a, b, &mut known, error, drift, outcome);
    }

    /// The same, where some is known of the frames that came.
    pub(crate) fn take_known(
        &mut self,
        list: &Medl,
        a: &Arrival,
        b: &Arrival,
        known: &mut KnownFrames,
        error: i64,
        drift: i64,
        outcome: &mut Outcome,
    )
        requires list { list.now ≡ self.old.list }
        requires turn { IsPlanned self.old.turn }
        requires a { ArrivalFits self.old.list (view_clock self.old) a.now error drift }
        requires b { ArrivalFits self.old.list (view_clock self.old) b.now error drift }
        requires known { AreKnownOf list.now a.now b.now known.old }
        ensures keeps { known.new ≡ known.old }
        ensures same { IsSameNode self.old self.new }
        ensures ends { Ends self.old self.new outcome.new a.now b.now error drift }
        ensures clock { StaysNear self.new.past.offset self.old a.now b.now error drift }
        ensures turn { self.new.turn ≡ Ended }
    {
        // Nodes mostly judge, so that is compiled by itself: of 24 nodes a run takes 5% fewer instructions for it.
        match self.turn {
            Turn::Planned {
                act: Act::Judge,
                jump,
                message,
            } => self.end(
                list,
                Act::Judge,
                jump,
                message,
                a,
                b,
                known,
                error,
                drift,
                outcome,
            ),
            Turn::Planned { act, jump, message } => {
                self.end(list, act, jump, message, a, b, known, error, drift, outcome);
            }
            Turn::Ended | Turn::Begun { .. } => {}
        }
    }

    // The end of a slot in which the node does this, and its clock jumped and its frame carried a
    // message so.
    #[inline(always)]
    fn end(
        &mut self,
        list: &Medl,
        act: Act,
        jump: i64,
        message: Option<u64>,
        a: &Arrival,
        b: &Arrival,
        known: &mut KnownFrames,
        error: i64,
        drift: i64,
        outcome: &mut Outcome,
    )
        requires list { list.now ≡ self.old.list }
        requires turn { self.old.turn ≡ Turn.Planned act jump message }
        requires a { ArrivalFits self.old.list (view_clock self.old) a.now error drift }
        requires b { ArrivalFits self.old.list (view_clock self.old) b.now error drift }
        requires known { AreKnownOf list.now a.now b.now known.old }
        ensures keeps { known.new ≡ known.old }
        ensures same { IsSameNode self.old self.new }
        ensures ends { Ends self.old self.new outcome.new a.now b.now error drift }
        ensures clock { StaysNear self.new.past.offset self.old a.now b.now error drift }
        ensures turn { self.new.turn ≡ Ended }
    {
        let own = self.node.offset() + jump;
        let entry = ending_of(
            list,
            self.number,
            &self.node,
            act,
            message,
            &Reading { own, error },
            a,
            b,
            known,
            &mut outcome.delivered,
        );
        let outside = Outside {
            jump,
            drift,
            silent: are_silent(a, b),
        };
        self.node.enter(list, self.number, &entry, &outside);
        let delivers = outcome.delivered.is_some();
        outcome.status = status_words(list, self.number, self.slots, &self.node, delivers);
        self.slots = self.slots.saturating_add(1);
        self.turn = Turn::Ended;
    }

    /// Makes it a copy of another controller of the same list, at the same turn of a slot.
    pub(crate) fn copy_from(&mut self, other: &Controller)
        requires { other.now.list ≡ self.old.list }
        ensures { self.new ≡ other.now }
    {
        self.number = other.number;
        self.node = other.node.copy();
        self.slots = other.slots;
        self.turn = other.turn;
        self.intent = other.intent;
        self.last = other.last;
    }

    /// What is shown of the node after the newest slot.
    pub fn state(&self) -> NodeState
        ensures shows { ShowsState self.now result }
        ensures clock { result.offset ≡ self.now.past.offset }
    {
        self.node.state()
    }
}
