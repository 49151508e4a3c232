//! Waveforms.

use super::small::{TRACE, WAVE};
use std::alloc::Global;
use ttp_base::{List, MemorySink};
use wave_text::put_wave;
use whole_trace::read_whole;

// Whether the trace has this waveform.
fn has_wave(alloc: Global, text: &[u8], wave: &[u8]) -> bool {
    let Ok(trace) = read_whole(text) else {
        return false;
    };
    let Ok(mut sink) = MemorySink::new(alloc, 4000, List::new(alloc)) else {
        return false;
    };
    let written = put_wave(alloc, &trace, &mut sink);
    written.is_ok() && sink.bytes() == wave
}

#[test]
fn a_small_trace(rt: HostRuntime) {
    assert!(rt; has_wave(rt.alloc(), TRACE.as_bytes(), WAVE.as_bytes()));
}
