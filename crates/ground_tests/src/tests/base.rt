//! The public calls of ttp_base once each, and what no clause says of the real outside.

use std::alloc::Global;
use std::io::{self, BufWriter, Read, Write};
use ttp_base::{
    FileLibrary, Gate, Library, Line, List, LoadError, MemoryLibrary, MemorySink, NodeSet,
    OpenGate, Sink, StreamSink, front_of,
};

fn is_grown(list: &List<u32>) -> bool {
    list.len() == 2 && *list.get(1) == 9 && list.as_slice() == [7, 9].as_slice()
}

// Whether the items are the same in a vector, and in a list of it.
fn stays_grown(list: List<u32>) -> bool {
    let items = list.into_vec();
    let is_same = items.as_slice() == [7, 9].as_slice();
    let list = List::from_vec(items);
    is_same & (list.as_slice() == [7, 9].as_slice())
}

// Whether a list begins empty, grows, and stays as it is in a vector.
fn grows(alloc: Global) -> bool {
    let mut list = List::new(alloc);
    let is_pushed = list.len() == 0 && list.push(7).is_ok() && list.push(9).is_ok();
    let is_right = is_pushed && is_grown(&list);
    stays_grown(list) && is_right
}

#[test]
fn a_list_grows(rt: HostRuntime) {
    assert!(rt; grows(rt.alloc()));
}

fn has_two(set: NodeSet) -> bool {
    set.has(2)
        && !set.has(5)
        && set.count() == 2
        && set.first() == Some(2)
        && set.bits() == 0x80_0004
}

// Whether a set is told from one without nodes.
fn is_told(set: NodeSet, none: NodeSet) -> bool {
    let copy = set;
    none.first().is_none() && copy == set && copy != none
}

#[test]
fn a_set_of_nodes(rt: HostRuntime) {
    let none = NodeSet::empty();
    let set = none.with(23).with(5).with(2).without(5);
    assert!(rt; has_two(set) && is_told(set, none));
}

#[tactic(auto, using(ttp_base::proofs::Room::room))]
fn line_of_each_kind() -> Line {
    let mut line = Line::new();
    line.put_text("slot ");
    line.put_number(20_000);
    line.put_text(" clock ");
    line.put_signed(-15);
    line.put_text(" mem ");
    line.put_hex(0x1b, 4);
    line.put_text(" ");
    line.put_hex_bytes(&[0x5d, 0x6d, 0xcb]);
    line
}

fn is_line_of_each_kind(line: &Line) -> bool {
    line.bytes() == b"slot 20000 clock -15 mem 001b 5d6dcb".as_slice() && line.room() == 604
}

#[test]
fn a_line_takes_each_kind_of_text(rt: HostRuntime) {
    let line = line_of_each_kind();
    assert!(rt; is_line_of_each_kind(&line) && Line::new().room() == 640);
}

#[tactic(auto, using(ttp_base::proofs::Room::room))]
fn is_cut_and_goes_on() -> bool {
    let mut line = Line::new();
    line.put_text("slot 12 node ");
    if line.len() != 13 {
        return false;
    }
    line.put_number(3);
    line.cut(13);
    line.put_bytes(b"40");
    line.bytes() == b"slot 12 node 40".as_slice()
}

#[test]
fn a_line_is_cut_and_goes_on(rt: HostRuntime) {
    assert!(rt; is_cut_and_goes_on());
}

#[test]
#[tactic(auto, using(ttp_base::proofs::Room::room))]
fn the_ends_of_the_hexadecimal_range(rt: HostRuntime) {
    let mut line = Line::new();
    line.put_hex(u64::MAX, 16);
    line.put_hex(0, 1);
    assert!(rt; line.bytes() == b"ffffffffffffffff0".as_slice());
}

// Whether what a library gave is due.
fn is_due(loaded: Result<Vec<u8>, LoadError>, due: Result<&[u8], LoadError>) -> bool {
    match loaded {
        Ok(bytes) => due == Ok(bytes.as_slice()),
        Err(error) => due == Err(error),
    }
}

// A name, a limit, and what comes: the first `limit + 1` bytes. Nothing is held under the last name.
const LOADS: &[(&str, u32, Result<&[u8], LoadError>)] = &[
    ("a", 3, Ok(b"thre")),
    ("a", 3, Err(LoadError::Failed)),
    ("a", 9, Ok(b"three")),
    ("b", 9, Err(LoadError::Failed)),
];

fn gives_each(alloc: Global, library: &mut MemoryLibrary) -> bool {
    for (name, limit, due) in LOADS {
        if !is_due(library.load(alloc, name, *limit as usize), *due) {
            return false;
        }
    }
    library.faults() == 2
}

// Whether a library of two texts under one name, whose second call is to fail, gives what is due.
fn loads_from_memory(alloc: Global) -> bool {
    let Ok(fail) = vec![in alloc; 2u32] else {
        return false;
    };
    let mut library = MemoryLibrary::new(alloc, List::from_vec(fail));
    let is_held = library.add("a", b"one").is_ok() && library.add("a", b"three").is_ok();
    is_held && gives_each(alloc, &mut library)
}

#[test]
fn a_library_in_memory(rt: HostRuntime) {
    assert!(rt; loads_from_memory(rt.alloc()));
}

// Each piece, and whether it is taken: the second call is to fail, and then one byte is left.
const PIECES: &[(&[u8], bool)] = &[
    (b"ab", true),
    (b"cd", false),
    (b"efg", true),
    (b"hi", false),
    (b"j", true),
];

// Whether each piece is taken or refused as it is due to be.
fn takes_pieces(sink: &mut MemorySink) -> bool {
    for (piece, is_taken) in PIECES {
        if sink.write(piece).is_ok() != *is_taken {
            return false;
        }
    }
    sink.bytes() == b"abefgj".as_slice() && sink.faults() == 2
}

fn takes_to_memory(alloc: Global) -> bool {
    let Ok(fail) = vec![in alloc; 2u32] else {
        return false;
    };
    match &mut MemorySink::new(alloc, 6, List::from_vec(fail)) {
        Ok(sink) => takes_pieces(sink),
        Err(_) => false,
    }
}

#[test]
fn a_sink_in_memory(rt: HostRuntime) {
    assert!(rt; takes_to_memory(rt.alloc()));
}

// The file is the program of the tests itself, which begins as each program of 64 bits does. A limit is four
// bytes, and what comes is one byte past the limit, and no more.
#[test]
fn a_file_as_it_lies(rt: HostRuntime) {
    let loaded = FileLibrary::new(&rt).load(rt.alloc(), "/proc/self/exe", 4);
    assert!(rt; is_due(loaded, Ok(b"\x7fELF\x02")));
}

// A source with so many bytes left, which gives at most so many at once, is interrupted at first, and may fail
// where so many are left. It tells no errors, and counts its calls.
#[derive(Drop)]
struct PieceReader {
    left: usize,
    most: usize,
    interrupts: u32,
    fails: Option<(usize, io::ErrorKind)>,
    calls: u32,
}

impl Read for PieceReader {
    fn read(&mut self, buf: &mut [u8]) -> io::Result<usize> {
        self.calls = self.calls.saturating_add(1);
        if self.interrupts > 0 {
            self.interrupts -= 1;
            return Err(io::Error::from(io::ErrorKind::Interrupted));
        }
        if let Some((left, kind)) = self.fails
            && self.left <= left
        {
            return Err(io::Error::from(kind));
        }
        let count = self.most.min(buf.len()).min(self.left);
        self.left -= count;
        Ok(count)
    }
}

// How many bytes there are and are asked for, how many come at once, interruptions, and where it
// fails; how many come or why none do, how many are left, and the number of calls.
type FrontCase = (
    usize,
    usize,
    usize,
    u32,
    Option<(usize, io::ErrorKind)>,
    Result<usize, LoadError>,
    usize,
    u32,
);

const BLOCKED: Option<(usize, io::ErrorKind)> = Some((4, io::ErrorKind::WouldBlock));

const BROKEN: Option<(usize, io::ErrorKind)> = Some((4, io::ErrorKind::BrokenPipe));

const REFUSED: Option<(usize, io::ErrorKind)> = Some((4, io::ErrorKind::OutOfMemory));

const FRONT_CASES: &[FrontCase] = &[
    (10, 5, 3, 0, None, Ok(5), 5, 2),
    (10, 20, 3, 0, None, Ok(10), 0, 5),
    (10, 5, 1, 5000, None, Ok(5), 5, 5005),
    (10, 0, 3, 0, None, Ok(0), 10, 0),
    (10, 8, 3, 0, BROKEN, Err(LoadError::Failed), 4, 3),
    (10, 8, 3, 0, BLOCKED, Err(LoadError::Failed), 4, 3),
    (10, 8, 3, 0, REFUSED, Err(LoadError::Memory), 4, 3),
    (10, 6, 3, 0, BROKEN, Ok(6), 4, 2),
    (100_000, 200_000, 50_000, 0, None, Ok(100_000), 0, 26),
    (100_000, 70_000, 4096, 0, None, Ok(70_000), 30_000, 18),
];

fn gives_front(alloc: Global, case: &FrontCase) -> bool {
    let (length, count, most, interrupts, fails, expected, left, calls) = *case;
    let mut reader = PieceReader {
        left: length,
        most,
        interrupts,
        fails,
        calls: 0,
    };
    let given = match front_of(alloc, Ok(&mut reader), count) {
        Ok(bytes) => Ok(bytes.len()),
        Err(error) => Err(error),
    };
    given == expected && reader.left == left && reader.calls == calls
}

fn gives_each_front(alloc: Global) -> bool {
    for case in FRONT_CASES {
        if !gives_front(alloc, case) {
            return false;
        }
    }
    true
}

#[test]
fn the_front_of_what_a_reader_gives(rt: HostRuntime) {
    assert!(rt; gives_each_front(rt.alloc()));
}

// A writer to which these bytes are due, that takes at most so many at once and so many in all, and is interrupted
// at first. It counts its calls.
#[derive(Drop)]
struct Slow {
    due: &'static [u8],
    calls: u32,
    most: usize,
    room: usize,
    interrupts: u32,
}

impl Write for Slow {
    fn write(&mut self, buf: &[u8]) -> io::Result<usize> {
        self.calls = self.calls.saturating_add(1);
        if self.interrupts > 0 {
            self.interrupts -= 1;
            return Err(io::Error::from(io::ErrorKind::Interrupted));
        }
        let count = buf.len().min(self.most).min(self.room);
        let Some(due) = self.due.strip_prefix(&buf[..count]) else {
            return Err(io::Error::from(io::ErrorKind::InvalidData));
        };
        self.due = due;
        self.room -= count;
        Ok(count)
    }

    fn flush(&mut self) -> io::Result<()> {
        Ok(())
    }
}

// The most bytes at once, the room, interrupted writes and the piece; whether it is taken, how many
// of its bytes are, and the number of calls.
type StreamCase = (usize, usize, u32, &'static [u8], bool, usize, u32);

const LONG: &[u8] = &[b'x'; 640];

const STREAM_CASES: &[StreamCase] = &[
    (2, 99, 0, b"abcde", true, 5, 3),
    (9, 99, 2, b"abcde", true, 5, 3),
    (9, 99, 1000, b"abcde", true, 5, 1001),
    (999, 999, 0, LONG, true, 640, 1),
    (999, 999, 5000, LONG, true, 640, 5001),
    (9, 99, 0, b"", true, 0, 1),
    (0, 99, 0, b"abcde", false, 0, 1),
    (2, 3, 0, b"abcde", false, 3, 3),
];

fn is_given(case: &StreamCase) -> bool {
    let (most, room, interrupts, piece, is_taken, count, calls) = *case;
    let mut slow = Slow {
        due: piece,
        calls: 0,
        most,
        room,
        interrupts,
    };
    let written = StreamSink::new(&mut slow).write(piece).is_ok();
    written == is_taken && piece.get(count..) == Some(slow.due) && slow.calls == calls
}

fn gives_each_piece() -> bool {
    for case in STREAM_CASES {
        if !is_given(case) {
            return false;
        }
    }
    true
}

#[test]
fn a_stream_gives_each_piece_whole(rt: HostRuntime) {
    assert!(rt; gives_each_piece());
}

// Whether a writer has all of four pieces, which go through a buffer of 8 bytes, at the end of the stream.
fn hands_on_all(alloc: Global) -> bool {
    let mut slow = Slow {
        due: b"line\nline\nline\nline\n",
        calls: 0,
        most: 99,
        room: 99,
        interrupts: 0,
    };
    let Ok(buffer) = BufWriter::with_capacity(alloc, 8, &mut slow) else {
        return false;
    };
    let mut sink = StreamSink::new(buffer);
    let mut is_taken = true;
    for _ in 0..4u8 {
        is_taken &= sink.write(b"line\n").is_ok();
    }
    is_taken & sink.into_writer().flush().is_ok() && slow.due.is_empty()
}

#[test]
fn a_buffered_stream_hands_on_all_at_its_end(rt: HostRuntime) {
    assert!(rt; hands_on_all(rt.alloc()));
}

#[test]
fn an_open_gate_lets_each_step_pass() {
    let gate = OpenGate::new();
    for place in 1..7u32 {
        gate.pass(place);
    }
}
