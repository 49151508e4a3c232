//! The calls in one thread, each answer of an attempt with threads that are held at a place, and many
//! steps of a writer and three readers at once.

mod scenes;

ghost use Rattle.std.specs.Prelude.{◌≡◌, ◌<◌, ◌≤◌, IfSome};

use nbw_ring::{Pair, Reader, Ring, Try, Writer};
use std::alloc::Global;
use std::sync::Wait;
use std::sync::atomic::AtomicU64;
use std::sync::atomic::Ordering::SeqCst;
use std::thread::{Threads, join};
use ttp_base::{Gate, OpenGate};

// No message of a test has a greater number.
const MOST: u64 = 1 << 40;

// The steps of each thread of a stress test.
const STEPS: usize = 100_000;

// Word k of a message.
fn word_of(number: u64, k: usize) -> u64 {
    if number == 0 {
        0
    } else {
        number.wrapping_mul(64).wrapping_add(k as u64)
    }
}

// Writes the next message.
fn write_next<G: Gate>(ring: &Ring, writer: &mut Writer, width: usize, gate: &G)
    requires { (writer.old.ring ≡ ring.now) × (width ≡ ring.now.shape.width) }
    ensures { writer.new.ring ≡ ring.now }
{
    let number = writer.number();
    let mut words = [0u64; 32];
    for k in 0..32 {
        words[k] = word_of(number.wrapping_add(1), k);
    }
    if number < MOST && width <= 32 {
        ring.write(writer, &words[..width], gate);
    }
}

// Writes so many messages.
fn write_many(ring: &Ring, mut writer: Writer, width: usize, count: usize) -> Writer
    requires { (writer.ring ≡ ring.now) × (width ≡ ring.now.shape.width) }
    ensures { result.ring ≡ ring.now }
{
    for _ in 0..count {
        write_next(ring, &mut writer, width, &OpenGate::new());
    }
    writer
}

// Makes so many attempts, as far as there is room.
fn attempt_many(ring: &Ring, mut reader: Reader, count: usize) -> Reader
    requires { reader.ring ≡ ring.now }
    ensures { result.ring ≡ ring.now }
{
    for _ in 0..count {
        if reader.spare() == 0 {
            break;
        }
        ring.try_read(&mut reader, &OpenGate::new());
    }
    reader
}

// Whether numbers don't fall, and pairs are what was written.
fn are_right(pairs: &[Pair], width: usize) -> bool {
    let mut right = true;
    let mut floor = 0;
    for pair in pairs {
        right = right && floor <= pair.number() && pair.words().len() == width;
        floor = pair.number();
        for (k, word) in pair.words().iter().enumerate() {
            right = right && *word == word_of(floor, k);
        }
    }
    right
}

// Settles a reader, and says whether what it got is right.
fn is_right(ring: &Ring, writer: &mut Writer, reader: Reader, width: usize) -> bool
    requires { (writer.old.ring ≡ ring.now) × (reader.ring ≡ ring.now) }
    ensures { writer.new.ring ≡ ring.now }
{
    match ring.settle(writer, reader) {
        Ok(receipts) => are_right(receipts.into_pairs().as_slice(), width),
        Err(_) => false,
    }
}

// A ring whose writer wrote so many messages, and a reader with room for so many.
fn lent(
    alloc: Global,
    width: usize,
    buffers: usize,
    count: usize,
    reads: usize,
) -> Option<(Ring, Writer, Reader)>
    requires width { (0 < width) × (width ≤ 32) }
    requires buffers { (0 < buffers) × (buffers ≤ 16) }
    ensures own { IfSome result (λ r. (r.1.ring ≡ r.0) × (r.2.ring ≡ r.0)) }
    ensures width { IfSome result (λ r. r.0.shape.width ≡ width) }
    ensures room { IfSome result (λ r. r.2.spare ≡ reads) }
{
    let Ok((ring, writer)) = Ring::new(alloc, width, buffers) else {
        return None;
    };
    let mut writer = write_many(&ring, writer, width, count);
    match ring.lend(&mut writer, reads) {
        Ok(reader) => Some((ring, writer, reader)),
        Err(_) => None,
    }
}

// Whether a last reader gets the newest message.
fn is_newest_read(ring: &Ring, writer: &mut Writer, width: usize) -> bool
    requires { writer.old.ring ≡ ring.now }
{
    let Ok(mut last) = ring.lend(writer, 1) else {
        return false;
    };
    let number = writer.number();
    let answer = ring.try_read(&mut last, &OpenGate::new());
    is_right(ring, writer, last, width) && answer == (Try::Got { number })
}

// Keeps the places that were passed, as decimal digits, the first one first.
#[derive(Drop)]
struct PassedPlaces {
    digits: AtomicU64,
}

impl Gate for PassedPlaces {
    fn pass(&self, place: u32) {
        let before = self.digits.load(SeqCst);
        let digits = before.wrapping_mul(10).wrapping_add(place as u64);
        self.digits.store(digits, SeqCst);
    }
}

// Whether a reader with room for four gets the newest of four messages, and then the one that is written next, twice;
// and whether each call passes its places.
fn reads_each<R: Wait>(rt: &R, ring: &Ring, writer: &mut Writer, reader: &mut Reader) -> bool
    requires writer { (writer.old.ring ≡ ring.now) × (3 ≡ ring.now.shape.width) }
    requires reader { (reader.old.ring ≡ ring.now) × (1 ≤ reader.old.spare) }
    ensures { (writer.new.ring ≡ ring.now) × (reader.new.ring ≡ ring.now) }
{
    let places = PassedPlaces {
        digits: AtomicU64::new(0),
    };
    let before = (writer.number(), reader.spare());
    let newest = ring.read(rt, reader, &places);
    let by_read = places.digits.swap(0, SeqCst);
    write_next(ring, writer, 3, &places);
    let by_write = places.digits.swap(0, SeqCst);
    if reader.spare() != 3 {
        return false;
    }
    let answer = ring.try_read(reader, &places);
    let by_attempt = places.digits.swap(0, SeqCst);
    if reader.spare() != 2 {
        return false;
    }
    let is_next = answer == (Try::Got { number: 5 })
        && reader.words() == [320, 321, 322].as_slice();
    let again = ring.read(rt, reader, &places);
    let by_last = places.digits.swap(0, SeqCst);
    is_next
        && before == (4, 4)
        && [newest, again] == [4, 5]
        && [by_read, by_write, by_attempt, by_last] == [45556, 12223, 45556, 45556]
}

fn is_pair(pair: &Pair, number: u64, words: &[u64]) -> bool {
    pair.number() == number && pair.words() == words
}

// Whether it then has these messages.
fn has_each(ring: &Ring, writer: &mut Writer, reader: Reader) -> bool
    requires { (writer.old.ring ≡ ring.now) × (reader.ring ≡ ring.now) }
{
    let Ok(receipts) = ring.settle(writer, reader) else {
        return false;
    };
    let pairs = receipts.into_pairs();
    pairs.len() == 3
        && is_pair(pairs.get(0), 4, &[256, 257, 258])
        && is_pair(pairs.get(1), 5, &[320, 321, 322])
        && is_pair(pairs.get(2), 5, &[320, 321, 322])
}

fn is_read<R: Wait>(rt: &R, alloc: Global) -> bool {
    let Some((ring, mut writer, mut reader)) = lent(alloc, 3, 2, 4, 4) else {
        return false;
    };
    let is_each_read = reads_each(rt, &ring, &mut writer, &mut reader);
    has_each(&ring, &mut writer, reader) && is_each_read
}

#[test]
fn messages_are_written_and_read_past_a_gate(rt: HostRuntime) {
    assert!(rt; is_read(&rt, rt.alloc()));
}

// Two readers more, with room for so many messages.
fn lend_two(ring: &Ring, writer: &mut Writer, reads: usize) -> Option<(Reader, Reader)>
    requires { writer.old.ring ≡ ring.now }
    ensures writer { writer.new.ring ≡ ring.now }
    ensures readers { IfSome result (λ r. (r.0.ring ≡ ring.now) × (r.1.ring ≡ ring.now)) }
{
    let Ok(one) = ring.lend(writer, reads) else {
        return None;
    };
    match ring.lend(writer, reads) {
        Ok(two) => Some((one, two)),
        Err(_) => None,
    }
}

// Two readers at once.
fn read_both<R: Threads + Sync>(
    rt: &R,
    ring: &Ring,
    one: Reader,
    two: Reader,
    count: usize,
) -> (Reader, Reader)
    requires { (one.ring ≡ ring.now) × (two.ring ≡ ring.now) }
    ensures { (result.0.ring ≡ ring.now) × (result.1.ring ≡ ring.now) }
{
    join(
        rt,
        || attempt_many(ring, one, count),
        || attempt_many(ring, two, count),
    )
}

// A writer and a reader at once.
fn write_and_read<R: Threads + Sync>(
    rt: &R,
    ring: &Ring,
    writer: Writer,
    reader: Reader,
    width: usize,
    count: usize,
) -> (Writer, Reader)
    requires { (writer.ring ≡ ring.now) × (reader.ring ≡ ring.now) × (width ≡ ring.now.shape.width) }
    ensures { (result.0.ring ≡ ring.now) × (result.1.ring ≡ ring.now) }
{
    join(
        rt,
        || write_many(ring, writer, width, count),
        || attempt_many(ring, reader, count),
    )
}

// Whether a writer and three readers in threads get what was written, and a last reader the newest.
fn is_stable<R: Threads + Sync>(rt: &R, alloc: Global, width: usize, buffers: usize) -> bool
    requires width { (0 < width) × (width ≤ 32) }
    requires buffers { (0 < buffers) × (buffers ≤ 16) }
{
    let count = STEPS / (width + 2);
    let Some((ring, mut writer, three)) = lent(alloc, width, buffers, 0, count) else {
        return false;
    };
    let Some((one, two)) = lend_two(&ring, &mut writer, count) else {
        return false;
    };
    let ((one, two), (mut writer, three)) = join(
        rt,
        || -> (Reader, Reader)
            requires { (one.ring ≡ ring) × (two.ring ≡ ring) }
            ensures { (result.0.ring ≡ ring) × (result.1.ring ≡ ring) }
        { read_both(rt, &ring, one, two, count) },
        || -> (Writer, Reader)
            requires { (writer.ring ≡ ring) × (three.ring ≡ ring) × (width ≡ ring.shape.width) }
            ensures { (result.0.ring ≡ ring) × (result.1.ring ≡ ring) }
        { write_and_read(rt, &ring, writer, three, width, count) },
    );
    let are_right = is_right(&ring, &mut writer, one, width)
        & is_right(&ring, &mut writer, two, width)
        & is_right(&ring, &mut writer, three, width);
    is_newest_read(&ring, &mut writer, width) && are_right
}

#[test]
fn readers_get_what_was_written(rt: HostRuntime) {
    for buffers in [1, 2, 4, 16] {
        for width in [1, 4, 32] {
            assert!(rt; is_stable(&rt, rt.alloc(), width, buffers));
        }
    }
}
