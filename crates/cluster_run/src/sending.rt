//! What hosts write, beside what their controllers fetch.
ghost use Rattle.std.specs.Prelude.{◌≡◌, ℕ, ◌<◌, ◌≤◌, length, get_or, slice_set, vec_capacity};
ghost use Rattle.std.specs.Prelude.{None, IsSome, IfOk, true};
ghost use Rattle.std.specs.Option.{ForSome};
ghost use Rattle.ttp_world.specs.Script.{host_write};
ghost use Rattle.ttp_world.specs.Words.{words_of_payload, word_count};
ghost use Rattle.ttp_world.specs.World.{BegunSlot};
ghost use Rattle.controller.specs.Passes.{HaveBegun};
ghost use Rattle.line_text.specs.HostLines.{AreBytes, bytes_in};
ghost use Rattle.ttp_world.specs.Medl.{IsValid, plan_at};
ghost use Rattle.ttp_world.specs.Outgoing.{nothing_chosen};
ghost use Rattle.host_port.specs.Writing.{written, Takes, HasRoom};
ghost use Rattle.cluster_run.specs.Ends.{host_at};
ghost use Rattle.cluster_run.specs.Jobs.{MayWriteAt, HaveWrittenAt};
ghost use Rattle.cluster_run.specs.Sending.{fetcher_lent, AreLent, MayLend, host_write_line, WritesBytes};
ghost use Rattle.cluster_run.specs.Sending.{Fetches, MayFetch, MayFetchAll, FetchAll, MaySettle};
ghost use Rattle.cluster_run.specs.Sending.{SettlesFetch};

use crate::beside::do_both;
use crate::jobs::Job;
use crate::staff::Hired;
use controller::{Seat, is_loaded};
use host_port::{Fetcher, HostEnd, WriteLine};
use std::alloc::Global;
use std::sync::Wait;
use ttp_base::{Gate, Memory};
use ttp_world::{Chosen, Medl, PAYLOAD_LIMIT, Payload, Script, Written};

/// A fetcher for a node whose frame carries a message.
pub(crate) fn lend_one(end: &mut HostEnd, loaded: bool) -> Result<Option<Fetcher>, Memory>
    requires ring { loaded ≡ true → IsSome end.old }
    ensures fetcher { IfOk result (λ fetcher. fetcher ≡ fetcher_lent loaded end.old) }
    ensures end { end.new ≡ end.old }
{
    if loaded {
        return Ok(Some(end.lend_fetch()?));
    }
    Ok(None)
}

/// A fetcher for each node whose frame carries a message in the slot that has begun. The ends are handed out with them.
pub(crate) fn lend_fetchers(
    alloc: Global,
    mut ends: Vec<HostEnd>,
    seats: &[Seat],
) -> Result<(Vec<HostEnd>, Vec<Option<Fetcher>>), Memory>
    requires seats { length seats.now ≡ length ends.items }
    requires rings { MayLend seats.now ends.items }
    ensures ends { IfOk result (λ r. r.0.items ≡ ends.items) }
    ensures fetchers { IfOk result (λ r. (s : BegunSlot) → HaveBegun s 0 seats.now → AreLent s ends.items r.1.items) }
{
    let mut fetchers = Vec::with_capacity(alloc, ends.len())?;
    for k in 0..ends.len() {
        let loaded = is_loaded(&seats[k].controller);
        fetchers.push_reserved(lend_one(&mut ends[k], loaded)?);
    }
    Ok((ends, fetchers))
}

// What a slice of bytes holds is bytes. The call does nothing, and tells its caller so.
fn tell_bytes(_bytes: &[u8])
    requires { AreBytes _bytes.now }
    ensures { AreBytes _bytes.now }
{}

// A host writes a message.
fn write_one<G: Gate>(ends: &mut [HostEnd], write: &Written<'_>, gate: &G) -> WriteLine
    requires takes { Takes (host_at ends.old write.now.host) (length write.now.payload.now) }
    requires room { HasRoom (host_at ends.old write.now.host) }
    ensures ends { ends.new ≡ slice_set ends.old write.now.host
        (written (host_at ends.old write.now.host) (words_of_payload write.now.payload.now)) }
    ensures line { result ≡ host_write_line ends.old write.now.host 0 }
    ensures bytes { WritesBytes (host_write write.now) }
{
    let k = usize::from(write.host);
    let payload = write.payload.bytes();
    tell_bytes(payload);
    let number = ends[k].write(payload, gate);
    WriteLine {
        host: write.host,
        number,
    }
}

/// All that hosts write at these places of the script, one after another, each with its line.
pub(crate) fn write_all<G: Gate>(
    mut ends: Vec<HostEnd>,
    script: &Script,
    places: &[usize],
    mut lines: Vec<WriteLine>,
    gate: &G,
) -> (Vec<HostEnd>, Vec<WriteLine>)
    requires { MayWriteAt script.now places.now ends.items lines.items (vec_capacity lines) }
    ensures { HaveWrittenAt script.now places.now ends.items result.0.items result.1.items }
{
    for place in places {
        if let Some(write) = script.write(*place) {
            lines.push_reserved(write_one(ends.as_mut_slice(), &write, gate));
        }
    }
    (ends, lines)
}

/// One attempt to fetch, if there is a fetcher.
pub(crate) fn fetch_one<G: Gate>(fetcher: &mut Option<Fetcher>, gate: &G)
    requires fetcher { MayFetch fetcher.old }
    ensures fetches { Fetches fetcher.old fetcher.new }
{
    if let Some(fetcher) = fetcher {
        fetcher.fetch(gate);
    }
}

/// One attempt by each fetcher.
pub(crate) fn fetch_all<G: Gate>(
    mut fetchers: Vec<Option<Fetcher>>,
    gate: &G,
) -> Vec<Option<Fetcher>>
    requires { MayFetchAll fetchers.items }
    ensures { FetchAll fetchers.items result.items }
{
    for k in 0..fetchers.len() {
        fetch_one(&mut fetchers[k], gate);
    }
    fetchers
}

// Whether there is a fetcher.
fn has_any(fetchers: &[Option<Fetcher>]) -> bool {
    fetchers.iter().any(|fetcher| fetcher.is_some())
}

/// Hosts write, and controllers fetch. Where none fetches, nothing is given to a worker.
pub(crate) fn write_and_fetch<'b, 'a, R: Wait, G: Gate>(
    rt: &R,
    staff: &mut Option<Hired<'b, 'a>>,
    ends: Vec<HostEnd>,
    fetchers: Vec<Option<Fetcher>>,
    script: &'a Script,
    places: &'a [usize],
    lines: Vec<WriteLine>,
    gate: &G,
) -> (Vec<HostEnd>, Vec<WriteLine>, Vec<Option<Fetcher>>)
    requires writes { MayWriteAt script.now places.now ends.items lines.items (vec_capacity lines) }
    requires fetchers { MayFetchAll fetchers.items }
    ensures written { HaveWrittenAt script.now places.now ends.items result.0.items result.1.items }
    ensures fetches { FetchAll fetchers.items result.2.items }
{
    if !has_any(fetchers.as_slice()) {
        let (ends, lines) = write_all(ends, script, places, lines, gate);
        return (ends, lines, fetch_all(fetchers, gate));
    }
    let write = Job::Write {
        script,
        places,
        ends,
        lines,
    };
    let (write, fetch) = do_both(rt, staff, write, Job::Fetch(fetchers), gate);
    match fetch {
        Job::Fetch(fetchers) => match write {
            Job::Write { ends, lines, .. } => (ends, lines, fetchers),
            _ => unreachable!(),
        },
        _ => unreachable!(),
    }
}

// The payload of so many bytes that has these words.
fn payload_of(words: &[u64], len: u8) -> Payload
    requires limit { len ≤ PAYLOAD_LIMIT }
    requires words { length words.now ≡ word_count len }
    ensures { result ≡ bytes_in len words.now }
{
    let mut bytes = [0; PAYLOAD_LIMIT];
    for i in 0..words.len() {
        bytes[8 * i..8 * i + 8].copy_from_slice(&words[i].to_be_bytes());
    }
    Payload::of(&bytes[..usize::from(len)])
}

/// Takes a node's fetcher back, and chooses the message that it got.
pub(crate) fn settle_one(end: &mut HostEnd, fetcher: Option<Fetcher>, len: u8, chosen: &mut Chosen)
    requires limit { len ≤ PAYLOAD_LIMIT }
    requires fetcher { ForSome fetcher (MaySettle end.old len) }
    ensures { SettlesFetch len fetcher end.old end.new chosen.old chosen.new }
{
    if let Some(fetcher) = fetcher {
        if let Some(pair) = end.settle_fetch(fetcher) {
            chosen.number = pair.number();
            chosen.payload = payload_of(pair.words(), len);
        }
    }
}

/// Takes all fetchers back, and chooses for each node the message that its fetcher got. The ends are handed out.
pub(crate) fn settle_fetchers(
    list: &Medl,
    mut ends: Vec<HostEnd>,
    mut fetchers: Vec<Option<Fetcher>>,
    chosen: &mut [Chosen],
) -> Vec<HostEnd>
    requires list { IsValid list.now }
    requires count { length ends.items ≡ length list.now.slots }
    requires chosen_count { length chosen.old ≡ length ends.items }
    requires fetchers_count { length fetchers.items ≡ length ends.items }
    requires fetchers { (k : ℕ) → k < length ends.items
        → ForSome (get_or fetchers.items k None) (MaySettle (host_at ends.items k) (plan_at list.now k).payload) }
    ensures ends_count { length result.items ≡ length ends.items }
    ensures chosen_count { length chosen.new ≡ length chosen.old }
    ensures settles { (k : ℕ) → k < length ends.items → SettlesFetch (plan_at list.now k).payload
        (get_or fetchers.items k None) (host_at ends.items k) (host_at result.items k)
        (get_or chosen.old k nothing_chosen) (get_or chosen.new k nothing_chosen) }
{
    for k in 0..ends.len() {
        let len = list.slots.get(k).payload;
        let fetcher = fetchers[k].take();
        settle_one(&mut ends[k], fetcher, len, &mut chosen[k]);
    }
    ends
}
