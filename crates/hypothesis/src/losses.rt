//! What a slot makes of the faulty nodes: clocks that jump, and frames that are lost.
ghost use Rattle.std.specs.Prelude.{◌≡◌, ℕ, ◌+◌, ◌<◌, ◌≤◌, ◌++◌, max, nat_lt, if◌then◌else◌, true, false, List, []};
ghost use Rattle.std.specs.Prelude.{length, filter, All, None, is_some};
ghost use Rattle.std.specs.List.{list_any};
ghost use Rattle.ttp_base.specs.NodeSet.{most_nodes};
ghost use Rattle.ttp_world.specs.Hypothesis.{Harmless, nodes_made, is_breaking, is_other, others_in, jumps_now, loses};
ghost use Rattle.ttp_world.specs.Hypothesis.{loss_among, sender_loss, expected_sender, loss_in, jumpers_in};
ghost use Rattle.ttp_world.specs.Medl.{IsValid};
ghost use Rattle.ttp_world.specs.Returning.{disturbance_broken};
ghost use Rattle.ttp_world.specs.Script.{incidents_of, has_jump, jump_in, IsValidScript};
ghost use Rattle.ttp_world.specs.declared.medl.Medl.{Medl};
ghost use Rattle.ttp_world.specs.declared.script.Script.{Script};
ghost use Rattle.hypothesis.specs.Jumps.{is_jump_within};
ghost use Rattle.hypothesis.specs.SlotIncidents.{AreIncidentsIn, IsOfKinds, AreKeptIn, may_lose};
ghost use Rattle.hypothesis.specs.Standing.{told_start, told_loss, IsOfNodes, HaveSameNodes};

use crate::incidents::{KeptIncidents, SlotIncidents};
use crate::start::{Start, is_ever_on};
use ttp_base::NodeSet;
use ttp_world::{Channels, Event, Incidents, Medl, Script};

/// What it means that some of those that are due to hear a frame lost it.
#[derive(Clone, Copy)]
pub(crate) enum SlotLoss {
    /// Nobody did.
    Harmless,
    /// This node is faulty.
    Makes { node: u8 },
    /// Losses of more than one fault.
    Breaks,
}

/// Whether a frame is lost on both channels, where this happens to its sender and that to its receiver.
pub fn is_lost(sending: &Incidents, hearing: &Incidents) -> bool
    ensures { (script : Script) (sender slot receiver : ℕ) → sending.now ≡ incidents_of script sender slot
        → hearing.now ≡ incidents_of script receiver slot → result ≡ loses script sender slot receiver }
{
    let is_lost_on_a = (sending.send_silence.a || sending.send_noise.a)
        || (hearing.receive_silence.a || hearing.receive_noise.a);
    let is_lost_on_b = (sending.send_silence.b || sending.send_noise.b)
        || (hearing.receive_silence.b || hearing.receive_noise.b);
    is_lost_on_a && is_lost_on_b
}

// Whether a node is due to hear a sender's frame in a slot, where these nodes are faulty.
fn is_other(script: &Script, faulty: NodeSet, sender: u8, slot: u32, node: u8) -> bool
    requires on { node < length script.now.on }
    requires node { node < most_nodes }
    ensures { result ≡ is_other script.now faulty sender slot node }
{
    script.is_on(node, slot) && !faulty.has(node) && node != sender
}

// Those that are due to hear a sender's frame in a slot, where these nodes are faulty.
fn others_in(list: &Medl, script: &Script, faulty: NodeSet, sender: u8, slot: u32) -> NodeSet
    requires valid { IsValid list.now }
    requires script { IsValidScript list.now script.now }
    ensures { result ≡ others_in list.now script.now faulty sender slot }
{
    let mut others = NodeSet::empty();
    for node in 0..list.nodes() {
        if is_other(script, faulty, sender, slot, node) {
            others = others.with(node);
        }
    }
    others
}

// Those of them that lose it. What happens to a node is asked first, since mostly nothing does.
fn losers_in(
    list: &Medl,
    script: &Script,
    incidents: &SlotIncidents,
    faulty: NodeSet,
    sender: u8,
    slot: u32,
) -> NodeSet
    requires valid { IsValid list.now }
    requires script { IsValidScript list.now script.now }
    requires sender { sender < length list.now.slots }
    requires incidents { AreIncidentsIn list.now script.now slot incidents.now }
    ensures nodes { All (λ k. k < most_nodes) result }
    ensures lost { result ≡ filter (loses script.now sender slot) (others_in list.now script.now faulty sender slot) }
{
    let sending = &incidents.nodes[sender as usize].incidents;
    let mut lost = NodeSet::empty();
    for node in 0..list.nodes() {
        if is_lost(sending, &incidents.nodes[node as usize].incidents)
            && is_other(script, faulty, sender, slot, node)
        {
            lost = lost.with(node);
        }
    }
    lost
}

// What it means that these of the others lost a sender's frame.
fn loss_among(sender: u8, others: NodeSet, lost: NodeSet) -> SlotLoss
    requires sender { sender < most_nodes }
    requires lost { All (λ k. k < most_nodes) lost }
    ensures value { told_loss result ≡ loss_among sender others lost }
    ensures node { IsOfNodes result }
{
    match lost.first() {
        None => SlotLoss::Harmless,
        Some(_) if lost.count() == others.count() => SlotLoss::Makes { node: sender },
        Some(node) if lost.count() == 1 => SlotLoss::Makes { node },
        Some(_) => SlotLoss::Breaks,
    }
}

// The loss of a sender's frame, where these nodes are faulty.
fn sender_loss(
    list: &Medl,
    script: &Script,
    incidents: &SlotIncidents,
    faulty: NodeSet,
    slot: u32,
    sender: u8,
) -> SlotLoss
    requires valid { IsValid list.now }
    requires script { IsValidScript list.now script.now }
    requires sender { sender < length list.now.slots }
    requires incidents { AreIncidentsIn list.now script.now slot incidents.now }
    ensures value { told_loss result ≡ sender_loss list.now script.now faulty slot sender }
    ensures node { IsOfNodes result }
{
    if !is_ever_on(script, sender) || faulty.has(sender) {
        return SlotLoss::Harmless;
    }
    let lost = losers_in(list, script, incidents, faulty, sender, slot);
    if lost.first().is_none() {
        return SlotLoss::Harmless;
    }
    loss_among(sender, others_in(list, script, faulty, sender, slot), lost)
}

/// Which jumps a script may have.
#[derive(Clone, Copy)]
pub(crate) enum Jumps {
    /// Far ones alone, each its node's first.
    Far,
    Any,
}

// Whether the clock of a node to which this happens jumps, where each jump goes far: so the sum of a slot's
// is not 0.
fn has_far_jump(incidents: &Incidents) -> bool
    ensures { (list : Medl) (script : Script) (k slot : ℕ) → IsValid list → disturbance_broken list script ≡ None
        → incidents.now ≡ incidents_of script k slot → result ≡ has_jump script k slot }
{
    incidents.jump != 0
}

// Whether an event is a jump of a node's clock in a slot.
fn is_jump(event: &Event, node: u8, slot: u32) -> bool
    ensures { result ≡ is_some (jump_in node slot event.now) }
{
    match event {
        Event::Jump {
            node: k,
            slot: at,
            ..
        } => *k == node && *at == slot,
        _ => false,
    }
}

// Whether one of these events is.
fn has_jump_among(events: &[Event], node: u8, slot: u32) -> bool
    ensures { result ≡ list_any (λ e. is_some (jump_in node slot e)) events.now }
{
    for event in events {
        if is_jump(event, node, slot) {
            return true;
        }
    }
    false
}

// Whether the clock of a node to which this happens in a slot jumps. Where any jumps may stand, all events
// are gone over.
fn has_jump(script: &Script, jumps: Jumps, incidents: &Incidents, slot: u32, node: u8) -> bool
    ensures { (list : Medl) → IsValid list → (jumps ≡ Jumps.Far → disturbance_broken list script.now ≡ None)
        → incidents.now ≡ incidents_of script.now node slot → result ≡ has_jump script.now node slot }
{
    match jumps {
        Jumps::Far => has_far_jump(incidents),
        Jumps::Any => has_jump_among(script.events.as_slice(), node, slot),
    }
}

// Whether a node becomes faulty in a slot since its clock jumps, where these are faulty before it.
fn jumps_now(
    script: &Script,
    jumps: Jumps,
    incidents: &Incidents,
    faulty: NodeSet,
    slot: u32,
    node: u8,
) -> bool
    requires on { node < length script.now.on }
    requires node { node < most_nodes }
    ensures { (list : Medl) → IsValid list → (jumps ≡ Jumps.Far → disturbance_broken list script.now ≡ None)
        → incidents.now ≡ incidents_of script.now node slot → result ≡ jumps_now script.now faulty slot node }
{
    has_jump(script, jumps, incidents, slot, node) && script.is_on(node, slot) && !faulty.has(node)
}

// Whether an event is a jump in a slot, or in one of those after it and before another.
fn is_jump_within(event: &Event, from: u32, until: u32) -> bool
    ensures { result ≡ is_jump_within from until event.now }
{
    match event {
        Event::Jump { slot: at, .. } => *at == from || (from <= *at && *at < until),
        _ => false,
    }
}

// Whether one of these events is.
fn has_jump_within(events: &[Event], from: u32, until: u32) -> bool
    ensures { result ≡ list_any (is_jump_within from until) events.now }
{
    for event in events {
        if is_jump_within(event, from, until) {
            return true;
        }
    }
    false
}

/// Whether a clock may jump in the slots from one on in which these things happen. Where any jumps may
/// stand, all events are gone over.
pub(crate) fn may_jump(script: &Script, jumps: Jumps, incidents: &SlotIncidents, slot: u32) -> bool
    ensures { (list : Medl) (t k : ℕ) → IsValid list
        → (jumps ≡ Jumps.Far → disturbance_broken list script.now ≡ None) → result ≡ false → slot ≤ t
        → t < max incidents.now.until (slot + 1) → IsOfKinds incidents.now.kinds (incidents_of script.now k t)
        → has_jump script.now k t ≡ false }
{
    match jumps {
        Jumps::Far => incidents.kinds.jump,
        Jumps::Any => has_jump_within(script.events.as_slice(), slot, incidents.until),
    }
}

/// The nodes that become faulty in a slot since their clocks jump, where these are faulty before it.
pub(crate) fn jumpers_in(
    list: &Medl,
    script: &Script,
    jumps: Jumps,
    incidents: &SlotIncidents,
    faulty: NodeSet,
    slot: u32,
) -> NodeSet
    requires valid { IsValid list.now }
    requires script { IsValidScript list.now script.now }
    requires inside { jumps ≡ Jumps.Far → disturbance_broken list.now script.now ≡ None }
    requires incidents { AreIncidentsIn list.now script.now slot incidents.now }
    ensures { result ≡ jumpers_in list.now script.now faulty slot }
{
    let mut jumpers = NodeSet::empty();
    for node in 0..list.nodes() {
        let happens = &incidents.nodes[node as usize].incidents;
        if jumps_now(script, jumps, happens, faulty, slot, node) {
            jumpers = jumpers.with(node);
        }
    }
    jumpers
}

/// The nodes of both sets.
pub(crate) fn united(first: NodeSet, second: NodeSet) -> NodeSet
    ensures { HaveSameNodes result (first ++ second) }
{
    if first.first().is_none() {
        return second;
    }
    let mut all = second;
    for node in 0..24u8 {
        if first.has(node) {
            all = all.with(node);
        }
    }
    all
}

/// The node that is due to send in a slot from the start on, where slots are counted from 0. Before
/// it, the one that starts. A few steps.
pub fn expected_sender(list: &Medl, start: Start, slot: u32) -> u8
    requires { IsValid list.now }
    ensures value { result ≡ expected_sender list.now (told_start start) slot }
    ensures bound { result < length list.now.slots }
{
    let count = u64::from(list.nodes());
    ((u64::from(start.node) + u64::from(slot.saturating_sub(start.slot))) % count) as u8
}

// Whether a node may lose a frame, where this happens to its sender, and these are the channels on which nodes
// hear nothing.
fn may_lose(sending: &Incidents, unheard: Channels) -> bool
    ensures { result ≡ may_lose sending.now unheard }
{
    let may_lose_on_a = (sending.send_silence.a || sending.send_noise.a) || unheard.a;
    let may_lose_on_b = (sending.send_silence.b || sending.send_noise.b) || unheard.b;
    may_lose_on_a && may_lose_on_b
}

/// Whether nothing that is kept makes a node faulty in a slot. A few steps.
pub(crate) fn is_calm(list: &Medl, start: Start, kept: &KeptIncidents, slot: u32) -> bool
    requires { IsValid list.now }
    ensures { (script : Script) (faulty : List ℕ) → AreKeptIn list.now script slot kept.now → result ≡ true
        → (loss_in list.now script (told_start start) faulty slot ≡ Harmless)
        × (jumpers_in list.now script faulty slot ≡ []) }
{
    if kept.jump {
        return false;
    }
    if slot < start.slot {
        return true;
    }
    let sender = expected_sender(list, start, slot);
    !may_lose(
        &kept.incidents.nodes[sender as usize].incidents,
        kept.incidents.kinds.unheard,
    )
}

/// The loss in a slot, where these nodes are faulty once their clocks have jumped. Before the start
/// nothing is asked.
pub(crate) fn loss_in(
    list: &Medl,
    script: &Script,
    start: Start,
    incidents: &SlotIncidents,
    fallen: NodeSet,
    slot: u32,
) -> SlotLoss
    requires valid { IsValid list.now }
    requires script { IsValidScript list.now script.now }
    requires incidents { AreIncidentsIn list.now script.now slot incidents.now }
    ensures node { IsOfNodes result }
    ensures value { told_loss result ≡ (if nat_lt slot start.slot then Harmless
        else sender_loss list.now script.now fallen slot (expected_sender list.now (told_start start) slot)) }
{
    if slot < start.slot {
        SlotLoss::Harmless
    } else {
        sender_loss(
            list,
            script,
            incidents,
            fallen,
            slot,
            expected_sender(list, start, slot),
        )
    }
}

/// The nodes that a loss makes faulty: one or none.
pub(crate) fn nodes_made(loss: SlotLoss) -> NodeSet
    requires { IsOfNodes loss }
    ensures { result ≡ nodes_made (told_loss loss) }
{
    match loss {
        SlotLoss::Makes { node } => NodeSet::empty().with(node),
        SlotLoss::Harmless | SlotLoss::Breaks => NodeSet::empty(),
    }
}

/// Whether the losses are those of more than one fault.
pub(crate) fn is_breaking(loss: SlotLoss) -> bool
    ensures { result ≡ is_breaking (told_loss loss) }
{
    match loss {
        SlotLoss::Breaks => true,
        SlotLoss::Harmless | SlotLoss::Makes { .. } => false,
    }
}
