//! Attempts to read beside a writer, with threads that are held at a place. Each step on a word comes behind its place:
//! while a thread is held at a place, another one finds that the step was not made yet.
ghost use Rattle.std.specs.Prelude.{◌≡◌, ◌<◌, ◌≤◌};

use super::{is_right, lent, write_next};
use nbw_ring::{Reader, Ring, Try, Writer};
use std::alloc::Global;
use std::hint::spin_loop;
use std::sync::atomic::Ordering::SeqCst;
use std::sync::atomic::{AtomicBool, AtomicU64};
use std::thread::{Threads, join};
use ttp_base::{Gate, OpenGate};

// A hold lasts no longer.
const TURNS: u32 = 10_000_000;

// Waits until the flag is up, for a while.
fn hold(flag: &AtomicBool) {
    for _ in 0..TURNS {
        if flag.load(SeqCst) {
            return;
        }
        spin_loop();
    }
}

// A scene of a ring with number 3: how many buffers it has, where reader and writer are held, what an attempt answers,
// and how many words it loads.
#[derive(Clone, Copy)]
struct Case {
    buffers: usize,
    reader_place: u32,
    writer_place: u32,
    answer: Try,
    loads: u64,
}

// Holds the reader at a place until the writer is where it is to be, and the writer at a place until
// the reader is done. Place 0 is none.
#[derive(Drop)]
struct Scene {
    reader_place: u32,
    writer_place: u32,
    reader_there: AtomicBool,
    writer_there: AtomicBool,
    reader_done: AtomicBool,
    word_loads: AtomicU64,
}

impl Gate for Scene {
    fn pass(&self, place: u32) {
        if place == 5 {
            self.word_loads.fetch_add(1, SeqCst);
        }
        if place == self.reader_place {
            self.reader_there.store(true, SeqCst);
            hold(&self.writer_there);
        }
        if place == self.writer_place {
            self.writer_there.store(true, SeqCst);
            hold(&self.reader_done);
        }
    }
}

// The reader's part of a scene.
fn attempt(ring: &Ring, mut reader: Reader, scene: &Scene) -> (Try, Reader)
    requires { (reader.ring ≡ ring.now) × (1 ≤ reader.spare) }
    ensures { result.1.ring ≡ ring.now }
{
    if scene.reader_place == 0 {
        hold(&scene.writer_there);
    }
    let answer = ring.try_read(&mut reader, scene);
    scene.reader_done.store(true, SeqCst);
    (answer, reader)
}

// The writer's part: once the reader is held, a message, and then one in which the writer is held.
fn write_beside(ring: &Ring, mut writer: Writer, scene: &Scene) -> Writer
    requires { (writer.ring ≡ ring.now) × (4 ≡ ring.now.shape.width) }
    ensures { result.ring ≡ ring.now }
{
    if scene.reader_place != 0 {
        hold(&scene.reader_there);
        write_next(ring, &mut writer, 4, &OpenGate::new());
    }
    if scene.writer_place != 0 {
        write_next(ring, &mut writer, 4, scene);
    }
    scene.writer_there.store(true, SeqCst);
    writer
}

// What an attempt answers in a scene of a ring with number 3, how many words it loads, and whether the pairs that were
// got are right.
fn played<R: Threads + Sync>(
    rt: &R,
    alloc: Global,
    buffers: usize,
    reader_place: u32,
    writer_place: u32,
) -> Option<(Try, u64, bool)>
    requires { (0 < buffers) × (buffers ≤ 16) }
{
    let Some((ring, writer, reader)) = lent(alloc, 4, buffers, 3, 1) else {
        return None;
    };
    let scene = Scene {
        reader_place,
        writer_place,
        reader_there: AtomicBool::new(false),
        writer_there: AtomicBool::new(false),
        reader_done: AtomicBool::new(false),
        word_loads: AtomicU64::new(0),
    };
    let ((answer, reader), mut writer) = join(
        rt,
        || attempt(&ring, reader, &scene),
        || write_beside(&ring, writer, &scene),
    );
    let is_right = is_right(&ring, &mut writer, reader, 4);
    Some((answer, scene.word_loads.load(SeqCst), is_right))
}

fn is_played<R: Threads + Sync>(rt: &R, alloc: Global, case: &Case) -> bool {
    let buffers = case.buffers;
    if buffers == 0 || buffers > 16 {
        return false;
    }
    match played(rt, alloc, buffers, case.reader_place, case.writer_place) {
        Some((answer, loads, is_right)) => {
            answer == case.answer && loads == case.loads && is_right
        }
        None => false,
    }
}

fn are_played<R: Threads + Sync>(rt: &R, alloc: Global, cases: &[Case]) -> bool {
    for case in cases {
        if !is_played(rt, alloc, case) {
            return false;
        }
    }
    true
}

const OPEN: Case = Case {
    buffers: 1,
    reader_place: 0,
    writer_place: 2,
    answer: Try::Overrun {
        number: 3,
        begin: 7,
        end: 7,
    },
    loads: 0,
};

// One message more leaves the buffer of message 3 as it is, and the next one begins to take it. A ring of one buffer
// is not read while it is written.
const LAST_LOADS: &[Case] = &[
    Case {
        buffers: 2,
        reader_place: 6,
        writer_place: 0,
        answer: Try::Got { number: 3 },
        loads: 4,
    },
    Case {
        buffers: 2,
        reader_place: 6,
        writer_place: 2,
        answer: Try::Overrun {
            number: 3,
            begin: 6,
            end: 9,
        },
        loads: 4,
    },
    OPEN,
];

#[test]
fn the_last_load_decides(rt: HostRuntime) {
    assert!(rt; are_played(&rt, rt.alloc(), LAST_LOADS));
}

// A writer that is held before it begins leaves message 3 to be read, and one that is held at its first word, or
// before it ends, has a write open. A reader that is held before its first load gets what is written meanwhile, and
// one that is held before its last load is overrun by it.
const STEPS_HELD: &[Case] = &[
    Case {
        buffers: 1,
        reader_place: 0,
        writer_place: 1,
        answer: Try::Got { number: 3 },
        loads: 4,
    },
    OPEN,
    Case {
        writer_place: 3,
        ..OPEN
    },
    Case {
        buffers: 2,
        reader_place: 4,
        writer_place: 0,
        answer: Try::Got { number: 4 },
        loads: 4,
    },
    Case {
        buffers: 1,
        reader_place: 6,
        writer_place: 0,
        answer: Try::Overrun {
            number: 3,
            begin: 6,
            end: 8,
        },
        loads: 4,
    },
];

#[test]
fn each_step_comes_behind_its_place(rt: HostRuntime) {
    assert!(rt; are_played(&rt, rt.alloc(), STEPS_HELD));
}
