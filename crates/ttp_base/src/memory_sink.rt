//! A sink in memory.
ghost use Rattle.std.specs.Prelude.{◌≡◌, ◌⊎◌, ◌+◌, ◌<◌, ◌≤◌, ◌↔◌, [], ◌∷◌, length, min, vec_len, vec_capacity};
ghost use Rattle.std.specs.Prelude.{is_ok, if◌then◌else◌, IsTrue, IsErr, IfOk, OnOk, OnErr};
ghost use Rattle.ttp_base.specs.Outside.{Wrote, CutShort, comes_up, count_end};

use crate::calls::is_next_to_fail;
use crate::fault::{Failed, Memory};
use crate::list::List;
use crate::pieces::{Piece, Pieces};
use crate::sink::Sink;
use std::alloc::Global;

/// Keeps what is written, in a room that is taken when it is made. So a write takes no memory.
///
/// Chosen calls of [`Sink::write`] fail, which shows a program's answer to a failing outside. Where none
/// is chosen, it is sure to take what its room has place for.
#[derive(Drop)]
pub struct MemorySink {
    bytes: Vec<u8>,
    room: usize,
    fail: List<u32>,
    calls: u64,
    pieces: Pieces,
    faults: u64,
    ghost fits: { vec_len bytes ≤ room },
    ghost reserved: { room ≤ vec_capacity bytes },
}

impl MemorySink {
    ghost use Rattle.ttp_base.specs.MemorySink.{sink_bytes, sink_room, sink_fail, sink_calls};
    ghost use Rattle.ttp_base.specs.MemorySink.{sink_faults, sink_output};

    /// An empty sink with room for `room` bytes; `Memory` where that was refused. The numbers in
    /// `fail` are those of the calls of [`Sink::write`] that are to fail, counted from 1.
    pub fn new(alloc: Global, room: usize, fail: List<u32>) -> Result<MemorySink, Memory>
        ensures empty { IfOk result (λ sink. sink_bytes sink ≡ []) }
        ensures room { IfOk result (λ sink. sink_room sink ≡ room) }
        ensures fail { IfOk result (λ sink. (sink_fail sink ≡ fail) × (sink_calls sink ≡ 0)) }
        ensures nothing { IfOk result (λ sink. ((sink_output sink).pieces ≡ []) × (sink_faults sink ≡ 0)) }
    {
        match Vec::with_capacity(alloc, room) {
            Ok(bytes) => Ok(MemorySink {
                bytes,
                room,
                fail,
                calls: 0,
                pieces: Pieces::nothing(),
                faults: 0,
            }),
            Err(_) => Err(Memory),
        }
    }

    /// What was written.
    pub fn bytes(&self) -> &[u8]
        ensures { result.now ≡ sink_bytes self.now }
    {
        self.bytes.as_slice()
    }

    /// How many writes failed so far, at most 2^64 - 1.
    pub fn faults(&self) -> u64
        ensures { result ≡ sink_faults self.now }
    {
        self.faults
    }
}

impl Sink for MemorySink {
    ghost use Rattle.ttp_base.specs.MemorySink.{sink_bytes, sink_room, sink_fail, sink_calls};
    ghost use Rattle.ttp_base.specs.MemorySink.{sink_faults, sink_output};

    ghost output = { sink_output };

    /// Fails exactly where the call's number is to fail or the piece doesn't fit the rest of the
    /// room, and then writes nothing.
    fn write(&mut self, piece: &[u8]) -> Result<(), Failed>
        ensures ok { OnOk result (Wrote (sink_output self.old) (sink_output self.new) (piece.now ∷ [])) }
        ensures failed { OnErr result (CutShort (sink_output self.old) (sink_output self.new) (piece.now ∷ [])) }

        ensures number { sink_calls self.new ≡ min (sink_calls self.old + 1) count_end }
        ensures exact { IsErr result ↔ (IsTrue (comes_up (sink_fail self.old) (sink_calls self.new))
            ⊎ (sink_room self.old < length (sink_bytes self.old) + length piece.now)) }
        ensures nothing { OnErr result (sink_bytes self.new ≡ sink_bytes self.old) }
        // It counts each fault once, and nothing else.
        ensures counted { sink_faults self.new
            ≡ (if is_ok result then sink_faults self.old else min (sink_faults self.old + 1) count_end) }
        ensures keeps { (sink_fail self.new ≡ sink_fail self.old) × (sink_room self.new ≡ sink_room self.old) }
    {
        let is_to_fail = is_next_to_fail(&self.fail, &mut self.calls);
        if is_to_fail || piece.len() > self.room - self.bytes.len() {
            self.faults = self.faults.saturating_add(1);
            return Err(Failed);
        }
        match self.bytes.extend_from_slice(piece) {
            Ok(()) => {
                self.pieces = Pieces::and(&self.pieces, &Piece { bytes: piece });
                Ok(())
            }
            Err(_) => unreachable!(),
        }
    }
}
