//! The command `wave TRACE`.
ghost use Rattle.std.specs.Prelude.{Some};
ghost use Rattle.commands.specs.Outcome.{Follows, ShowsEnding};
ghost use Rattle.commands.specs.Plan.{outside};
ghost use Rattle.commands.specs.Texts.{alone};
ghost use Rattle.lab_top.specs.Forms.{viewed_ending, lab_plan_of};
ghost use Rattle.lab_top.specs.Texts.{ttplab};
ghost use Rattle.lab_top.specs.Views.{wave_view, viewed};
ghost use Rattle.lab_top.specs.Words.{wave};

use crate::refusal::{refuse_trace, trace_from};
use commands::load_trace;
use std::alloc::Global;
use ttp_base::{Library, Sink};
use wave_text::{WaveFault, put_wave};

// The waveform of a text, if it is a trace.
fn show_wave<K: Sink>(alloc: Global, text: &[u8], out: &mut K) -> u8
    ensures { ShowsEnding ttplab (viewed_ending wave_view (viewed wave_view text.now)) (K.output out.old)
        (K.output out.new)
        (alone result) }
{
    match trace_from(text) {
        Ok(trace) => match put_wave(alloc, &trace, out) {
            Ok(()) => 0,
            Err(WaveFault::Failed) => 6,
            Err(WaveFault::Memory) => 7,
        },
        Err(fault) => refuse_trace(out, fault),
    }
}

/// The waveform of the trace of this name.
pub(crate) fn wave<L: Library, K: Sink>(
    alloc: Global,
    trace: &str,
    library: &mut L,
    out: &mut K,
) -> u8
    ensures { Follows ttplab (lab_plan_of (Some (wave trace.now))) (outside (L.files library.old) (K.output out.old))
        (outside (L.files library.new) (K.output out.new)) (alone result) }
{
    match load_trace(alloc, trace, library, out) {
        Ok(text) => show_wave(alloc, text.as_slice(), out),
        Err(status) => status,
    }
}
