//! A port of four nodes, used from one thread and from two.

ghost use Rattle.std.specs.Prelude.{◌≡◌, ◌≤◌, [], ◌∷◌, ◌++◌, length, IsTrue, IsSome, IfOk, IfSome, OnOk};
ghost use Rattle.ttp_world.specs.declared.script.Event.TheVariants as event;
ghost use Rattle.ttp_world.specs.declared.script.Source.TheVariants as source;
ghost use Rattle.ttp_world.specs.Medl.{plan_at};
ghost use Rattle.host_port.specs.Rings.{at_source, IsControllerEndOf, IsHostEndOf};
ghost use Rattle.host_port.specs.Writing.{HasRoom, Takes};
ghost use Rattle.host_port.specs.Fetching.{IsFetcherOf};
ghost use Rattle.host_port.specs.Reading.{AreReadersOf, IsLeft};

use host_port::{ControllerEnd, Fetcher, HostEnd, HostReaders, Pair, Port, ReadLine, Try};
use medl_text::read_medl;
use std::alloc::Global;
use std::sync::Wait;
use std::thread::{Threads, join};
use ttp_base::{List, Memory, OpenGate};
use ttp_world::{Delivered, Event, Events, Medl, Payload, Script, Source, StatusWords};

// Four nodes that send nine bytes each, with one buffer to four.
const LISTS: &[&[u8]] = &[
    b"version = 1\nrounds = 1\nschedule = 0\nbuffers = 1\ndrift = 0\nerror = 0\nwindow = 1\n
[[slot]]\nkinds = \"N\"\ndata = 9\nsync = true\nstart = true\n
[[slot]]\nkinds = \"N\"\ndata = 9\nsync = true\nstart = true\n
[[slot]]\nkinds = \"N\"\ndata = 9\nsync = true\nstart = true\n
[[slot]]\nkinds = \"N\"\ndata = 9\nsync = true\nstart = true\n",
    b"version = 1\nrounds = 1\nschedule = 0\nbuffers = 2\ndrift = 0\nerror = 0\nwindow = 1\n
[[slot]]\nkinds = \"N\"\ndata = 9\nsync = true\nstart = true\n
[[slot]]\nkinds = \"N\"\ndata = 9\nsync = true\nstart = true\n
[[slot]]\nkinds = \"N\"\ndata = 9\nsync = true\nstart = true\n
[[slot]]\nkinds = \"N\"\ndata = 9\nsync = true\nstart = true\n",
    b"version = 1\nrounds = 1\nschedule = 0\nbuffers = 3\ndrift = 0\nerror = 0\nwindow = 1\n
[[slot]]\nkinds = \"N\"\ndata = 9\nsync = true\nstart = true\n
[[slot]]\nkinds = \"N\"\ndata = 9\nsync = true\nstart = true\n
[[slot]]\nkinds = \"N\"\ndata = 9\nsync = true\nstart = true\n
[[slot]]\nkinds = \"N\"\ndata = 9\nsync = true\nstart = true\n",
    b"version = 1\nrounds = 1\nschedule = 0\nbuffers = 4\ndrift = 0\nerror = 0\nwindow = 1\n
[[slot]]\nkinds = \"N\"\ndata = 9\nsync = true\nstart = true\n
[[slot]]\nkinds = \"N\"\ndata = 9\nsync = true\nstart = true\n
[[slot]]\nkinds = \"N\"\ndata = 9\nsync = true\nstart = true\n
[[slot]]\nkinds = \"N\"\ndata = 9\nsync = true\nstart = true\n",
];

// Whether four nodes or more have slots, and the first two send nine bytes.
fn sends_nine(list: &Medl) -> bool
    ensures slots { IsTrue result → 4 ≤ length list.now.slots }
    ensures first { IsTrue result → (plan_at list.now 0).payload ≡ 9 }
    ensures second { IsTrue result → (plan_at list.now 1).payload ≡ 9 }
{
    let slots = &list.slots;
    slots.len() >= 4 && slots.get(0).payload == 9 && slots.get(1).payload == 9
}

// The port of node 0 of such a list, with both its ends.
fn new_port(alloc: Global, text: &[u8]) -> Option<(Port, ControllerEnd, HostEnd)>
    ensures node { IfSome result (λ r. r.0.node ≡ 0) }
    ensures ends { IfSome result (λ r. IsControllerEndOf r.0 r.1 × IsHostEndOf r.0 r.2) }
    ensures status { IfSome result (λ r. HasRoom (at_source r.1 source.Status)) }
    ensures sender { IfSome result (λ r. let writer = at_source r.1 (source.Node 1) in Takes writer 9 × HasRoom writer) }
    ensures own { IfSome result (λ r. Takes r.2 9 × HasRoom r.2) }
{
    let Ok(list) = read_medl(alloc, text) else {
        return None;
    };
    if !sends_nine(&list) {
        return None;
    }
    match Port::new(alloc, &list, 0) {
        Ok(port) => Some(port),
        Err(_) => None,
    }
}

// A read of a node's host in the first slot.
fn add_read(events: &mut List<Event>, node: u8, source: Source) -> Result<(), Memory>
    ensures { OnOk result (events.new ≡ events.old ++ event.Read node 0 source ∷ []) }
{
    events.push(Event::Read {
        node,
        slot: 0,
        source,
    })
}

// A script of one slot, in which the host of node 0 reads node 1 and its status.
fn script_of(alloc: Global) -> Result<Script, Memory>
    ensures { IfOk result (λ script. script.events ≡ event.Read 0 0 (source.Node 1)
        ∷ event.Read 2 0 source.Status ∷ event.Read 0 0 source.Status ∷ []) }
{
    let mut events = List::new(alloc);
    add_read(&mut events, 0, Source::Node(1))?;
    add_read(&mut events, 2, Source::Status)?;
    add_read(&mut events, 0, Source::Status)?;
    Ok(Script {
        slots: 1,
        on: List::new(alloc),
        drift: List::new(alloc),
        events: Events::index(alloc, events)?,
    })
}

// The port with its controller's end, and the readers of the slot.
fn read_port(alloc: Global, list: &[u8]) -> Option<(Port, ControllerEnd, HostReaders)>
    ensures end { IfSome result (λ r. IsControllerEndOf r.0 r.1) }
    ensures readers { IfSome result (λ r. AreReadersOf r.0 r.2) }
    ensures status { IfSome result (λ r. HasRoom (at_source r.1 source.Status)) }
    ensures sender { IfSome result (λ r. let writer = at_source r.1 (source.Node 1) in Takes writer 9 × HasRoom writer) }
    ensures read_status { IfSome result (λ r. IsLeft (at_source r.2.readers source.Status)) }
    ensures read_sender { IfSome result (λ r. IsLeft (at_source r.2.readers (source.Node 1))) }
{
    let Ok(script) = script_of(alloc) else {
        return None;
    };
    let Some((port, mut end, _)) = new_port(alloc, list) else {
        return None;
    };
    match port.lend_reads(&mut end, &script, 0) {
        Ok(readers) => Some((port, end, readers)),
        Err(_) => None,
    }
}

// A message of node 1.
fn message() -> Delivered
    ensures sender { result.sender ≡ 1 }
    ensures payload { length result.payload ≡ 9 }
{
    Delivered {
        sender: 1,
        payload: Payload::of(&[1, 2, 3, 4, 5, 6, 7, 8, 9]),
    }
}

// A controller's turn: it delivers a message and publishes its status.
fn take(port: &Port, mut end: ControllerEnd) -> ControllerEnd
    requires own { IsControllerEndOf port.now end }
    requires status { HasRoom (at_source end source.Status) }
    requires sender { Takes (at_source end (source.Node 1)) 9 × HasRoom (at_source end (source.Node 1)) }
    ensures { IsControllerEndOf port.now result }
{
    let gate = OpenGate::new();
    port.deliver(&mut end, &message(), &gate);
    let words = [10, 20, 30, 40];
    port.publish(&mut end, &StatusWords { words }, &gate);
    end
}

// A host's reads of a slot.
fn read_both<R: Wait>(rt: &R, port: &Port, mut readers: HostReaders) -> HostReaders
    requires own { AreReadersOf port.now readers }
    requires status { IsLeft (at_source readers.readers source.Status) }
    requires sender { IsLeft (at_source readers.readers (source.Node 1)) }
    ensures { AreReadersOf port.now result }
{
    let gate = OpenGate::new();
    port.host_read(rt, &mut readers, Source::Node(1), &gate);
    port.host_read(rt, &mut readers, Source::Status, &gate);
    readers
}

// Whether host 0 read message 1 of a source, with these words.
fn is_first(line: &ReadLine, source: Source, words: &[u64]) -> bool {
    line.host == 0 && line.source == source && line.pair.number() == 1 && line.pair.words() == words
}

// Whether the host read the message of node 1, and then the status.
fn are_firsts(lines: &List<ReadLine>) -> bool {
    // The first byte is the most significant one, and zeros are behind the last.
    let words = [0x0102_0304_0506_0708, 0x0900_0000_0000_0000];
    lines.len() == 2
        && is_first(lines.get(0), Source::Node(1), &words)
        && is_first(lines.get(1), Source::Status, &[10, 20, 30, 40])
}

// Whether message 0 or 1 of a source was read.
fn is_early(line: &ReadLine, source: Source) -> bool {
    line.source == source && line.pair.number() <= 1
}

// Whether the host read a message of node 1, and then a status.
fn are_early(lines: &List<ReadLine>) -> bool {
    lines.len() == 2
        && is_early(lines.get(0), Source::Node(1))
        && is_early(lines.get(1), Source::Status)
}

// Whether the host reads what its controller wrote before.
fn reads_after<R: Wait>(rt: &R, alloc: Global) -> bool {
    let Some((port, end, readers)) = read_port(alloc, LISTS[1]) else {
        return false;
    };
    let mut end = take(&port, end);
    let readers = read_both(rt, &port, readers);
    match port.settle_reads(&mut end, readers) {
        Ok(lines) => are_firsts(&lines),
        Err(_) => false,
    }
}

#[test]
fn a_host_reads_what_its_controller_wrote(rt: HostRuntime) {
    assert!(rt; reads_after(&rt, rt.alloc()));
}

// Whether a host that reads beside its controller's turn reads early messages or the first ones.
fn reads_beside<R: Threads + Wait + Sync>(rt: &R, alloc: Global, list: &[u8]) -> bool {
    let Some((port, end, readers)) = read_port(alloc, list) else {
        return false;
    };
    let (mut end, readers) = join(rt, || take(&port, end), || read_both(rt, &port, readers));
    match port.settle_reads(&mut end, readers) {
        Ok(lines) => are_early(&lines),
        Err(_) => false,
    }
}

#[test]
fn a_host_reads_beside_its_controller(rt: HostRuntime) {
    for list in LISTS {
        assert!(rt; reads_beside(&rt, rt.alloc(), list));
    }
}

// A host writes.
fn write_one(port: &Port, mut end: HostEnd) -> (u64, HostEnd)
    requires own { IsHostEndOf port.now end }
    requires outgoing { Takes end 9 × HasRoom end }
    ensures { IsHostEndOf port.now result.1 }
{
    let payload = [1, 2, 3, 4, 5, 6, 7, 8, 9];
    let number = port.host_write(&mut end, &payload, &OpenGate::new());
    (number, end)
}

// A controller fetches.
fn fetch_one(port: &Port, mut fetcher: Fetcher) -> (Try, Fetcher)
    requires own { IsFetcherOf port.now fetcher }
    requires room { 1 ≤ fetcher.spare }
    ensures { IsFetcherOf port.now result.1 }
{
    let answer = port.fetch(&mut fetcher, &OpenGate::new());
    (answer, fetcher)
}

// Whether a pair is the message before the host's, or that, and an attempt was answered so.
fn is_message(pair: &Pair, answer: Try) -> bool {
    let number = pair.number();
    if number > 1 || answer != (Try::Got { number }) {
        return false;
    }
    match pair.words().first() {
        Some(word) => *word
            == if number == 0 {
                0
            } else {
                0x0102_0304_0506_0708
            },
        None => false,
    }
}

// Two fetchers of a port, of which the second one has room.
fn lend_both(port: &Port, end: &mut HostEnd) -> Option<(Fetcher, Fetcher)>
    requires own { IsHostEndOf port.now end.old }
    requires ring { IsSome end.old }
    ensures end { end.new ≡ end.old }
    ensures fetchers { IfSome result (λ r. IsFetcherOf port.now r.0 × IsFetcherOf port.now r.1) }
    ensures room { IfSome result (λ r. 1 ≤ r.1.spare) }
{
    let Ok(unused) = port.lend_fetch(end) else {
        return None;
    };
    match port.lend_fetch(end) {
        Ok(fetcher) => Some((unused, fetcher)),
        Err(_) => None,
    }
}

// Whether a fetcher that is not used gets nothing, and another one a message.
fn are_settled(
    port: &Port,
    mut end: HostEnd,
    unused: Fetcher,
    fetcher: Fetcher,
    answer: Try,
) -> bool
    requires end { IsHostEndOf port.now end }
    requires fetchers { IsFetcherOf port.now unused × IsFetcherOf port.now fetcher }
{
    let is_nothing = matches!(port.settle_fetch(&mut end, unused), Ok(None));
    match port.settle_fetch(&mut end, fetcher) {
        Ok(Some(pair)) => is_message(&pair, answer) && is_nothing,
        _ => false,
    }
}

// Whether a controller that fetches beside its host's write gets a message, and a fetcher that is not used nothing.
fn fetches_beside<R: Threads + Sync>(rt: &R, alloc: Global) -> bool {
    let Some((port, _controller, mut end)) = new_port(alloc, LISTS[1]) else {
        return false;
    };
    let Some((unused, fetcher)) = lend_both(&port, &mut end) else {
        return false;
    };
    let ((written, end), (answer, fetcher)) = join(
        rt,
        || write_one(&port, end),
        || fetch_one(&port, fetcher),
    );
    are_settled(&port, end, unused, fetcher, answer) && written == 1
}

#[test]
fn a_controller_fetches_beside_its_host(rt: HostRuntime) {
    for _ in 0..20u8 {
        assert!(rt; fetches_beside(&rt, rt.alloc()));
    }
}
