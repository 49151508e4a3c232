//! The faults that are tried in a slot.
ghost use Rattle.std.specs.Prelude.{◌≡◌, ◌<◌, ◌≤◌, ◌++◌, ◌∷◌, [], map, pos, neg_ℤ, ◌≤ℤ◌, length, IfOk, OnOk};
ghost use Rattle.std.specs.List.{list_any};
ghost use Rattle.ttp_world.specs.Medium.{is_sending};
ghost use Rattle.ttp_world.specs.Medl.{IsValid};
ghost use Rattle.ttp_world.specs.declared.script.Event.TheVariants as event;
ghost use Rattle.campaign.specs.Tried.{is_denied, is_hearing, is_timed, losses_between, losses_of, sized, jump_sizes};
ghost use Rattle.campaign.specs.Tried.{faults_of, faults_in};
ghost use Rattle.single_faults.specs.Lost.{loss_kind};

use std::alloc::Global;
use ttp_base::{List, Memory};
use ttp_world::{Channels, Entry, Event, Fault, JUMP_LIMIT, Medl, Reason, Script};

/// What a loss befalls: what a node sends, or what it hears.
#[derive(Clone, Copy, PartialEq, Eq)]
pub(crate) enum Lost {
    Sent,
    Heard,
}

const BOTH: Channels = Channels { a: true, b: true };

const ONLY_A: Channels = Channels { a: true, b: false };

const ONLY_B: Channels = Channels { a: false, b: true };

// Whether a node sends.
fn is_sending(entry: &Entry) -> bool
    ensures { result ≡ is_sending entry.now }
{
    matches!(entry, Entry::Started | Entry::Sent { .. })
}

// Whether a node was denied by the sender that it heard.
fn is_denied(reason: Reason) -> bool
    ensures { result ≡ is_denied reason }
{
    match reason {
        Reason::Denied => true,
        Reason::Unacknowledged | Reason::Clique => false,
    }
}

// Whether a node hears what is sent.
fn is_hearing(entry: &Entry) -> bool
    ensures { result ≡ is_hearing entry.now }
{
    match entry {
        Entry::Waited | Entry::Joined { .. } | Entry::Judged { .. } => true,
        Entry::Left { reason, .. } => is_denied(*reason),
        _ => false,
    }
}

/// Whether a node's clock is held against those of others, or they hold theirs against it.
pub fn is_timed(entry: &Entry) -> bool
    ensures { result ≡ is_timed entry.now }
{
    match entry {
        Entry::Sent { .. } | Entry::Judged { .. } => true,
        Entry::Left { reason, .. } => is_denied(*reason),
        _ => false,
    }
}

// Whether some node sends.
fn has_frame(row: &[Entry]) -> bool
    ensures { result ≡ list_any is_sending row.now }
{
    for entry in row {
        if is_sending(entry) {
            return true;
        }
    }
    false
}

fn loss(lost: Lost, node: u8, channels: Channels, fault: Fault, from: u32, to: u32) -> Event
    ensures { result ≡ loss_kind lost node channels fault from to }
{
    match lost {
        Lost::Sent => Event::Send {
            node,
            channels,
            fault,
            from,
            to,
        },
        Lost::Heard => Event::Receive {
            node,
            channels,
            fault,
            from,
            to,
        },
    }
}

// Adds the losses of one kind in these slots.
fn push_losses(
    all: &mut List<Event>,
    lost: Lost,
    node: u8,
    from: u32,
    to: u32,
) -> Result<(), Memory>
    ensures { OnOk result (all.new ≡ all.old ++ losses_between (loss_kind lost node) from to) }
{
    all.push(loss(lost, node, BOTH, Fault::Silence, from, to))?;
    all.push(loss(lost, node, BOTH, Fault::Noise, from, to))?;
    all.push(loss(lost, node, ONLY_A, Fault::Silence, from, to))?;
    all.push(loss(lost, node, ONLY_A, Fault::Noise, from, to))?;
    all.push(loss(lost, node, ONLY_B, Fault::Silence, from, to))?;
    all.push(loss(lost, node, ONLY_B, Fault::Noise, from, to))
}

// Adds the losses of a node in a slot.
fn push_losses_of(
    all: &mut List<Event>,
    script: &Script,
    row: &[Entry],
    slot: u32,
    node: u8,
) -> Result<(), Memory>
    requires slots { 1 ≤ script.now.slots }
    requires node { node < length row.now }
    ensures { OnOk result (all.new ≡ all.old ++ losses_of script.now row.now slot node) }
{
    let entry = &row[usize::from(node)];
    let last = script.slots - 1;
    if is_sending(entry) {
        push_losses(all, Lost::Sent, node, slot, slot)?;
        return push_losses(all, Lost::Sent, node, slot, last);
    }
    if is_hearing(entry) && has_frame(row) {
        push_losses(all, Lost::Heard, node, slot, slot)?;
        return push_losses(all, Lost::Heard, node, slot, last);
    }
    Ok(())
}

// So many microticks, or the most that a line may say.
fn sized(value: i64) -> i64
    requires { pos 0 ≤ℤ value }
    ensures value { result ≡ sized value }
    ensures some { pos 0 ≤ℤ result }
{
    value.min(i64::from(JUMP_LIMIT))
}

fn push_jump(all: &mut List<Event>, node: u8, value: i64, slot: u32) -> Result<(), Memory>
    ensures { OnOk result (all.new ≡ all.old ++ event.Jump node value slot ∷ []) }
{
    all.push(Event::Jump { node, value, slot })
}

// Adds the jumps by so many microticks, either way.
fn push_both_ways(all: &mut List<Event>, node: u8, value: i64, slot: u32) -> Result<(), Memory>
    requires { pos 0 ≤ℤ value }
    ensures { OnOk result (all.new ≡ all.old ++ event.Jump node value slot ∷ event.Jump node (neg_ℤ value) slot ∷ []) }
{
    push_jump(all, node, value, slot)?;
    push_jump(all, node, -value, slot)
}

// Adds the jumps of a node in a slot.
fn push_jumps(all: &mut List<Event>, list: &Medl, node: u8, slot: u32) -> Result<(), Memory>
    requires { IsValid list.now }
    ensures { OnOk result (all.new ≡ all.old ++ map (λ z. event.Jump node z slot) (jump_sizes list.now)) }
{
    push_both_ways(all, node, sized(list.window * 4), slot)?;
    push_both_ways(all, node, sized(list.window), slot)
}

// Adds the faults of a node in a slot.
fn push_faults(
    all: &mut List<Event>,
    list: &Medl,
    script: &Script,
    row: &[Entry],
    slot: u32,
    node: u8,
) -> Result<(), Memory>
    requires valid { IsValid list.now }
    requires slots { 1 ≤ script.now.slots }
    requires node { node < length row.now }
    ensures { OnOk result (all.new ≡ all.old ++ faults_of list.now script.now row.now slot node) }
{
    push_losses_of(all, script, row, slot, node)?;
    if is_timed(&row[usize::from(node)]) {
        return push_jumps(all, list, node, slot);
    }
    Ok(())
}

/// The faults that are tried in a slot of a script, by what each node did in that slot of its run: at most
/// 16 for each node, in the order of the nodes.
///
/// # Errors
///
/// Where memory was refused.
pub fn faults_in(
    alloc: Global,
    list: &Medl,
    script: &Script,
    row: &[Entry],
    slot: u32,
) -> Result<List<Event>, Memory>
    requires valid { IsValid list.now }
    requires slots { 1 ≤ script.now.slots }
    requires row { length row.now ≡ length list.now.slots }
    ensures { IfOk result (λ faults. faults ≡ faults_in list.now script.now row.now slot) }
{
    let mut all = List::new(alloc);
    for node in 0..list.nodes() {
        push_faults(&mut all, list, script, row, slot, node)?;
    }
    Ok(all)
}
