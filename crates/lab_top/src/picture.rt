//! The command `picture TRACE [FIRST LAST]`.
ghost use Rattle.std.specs.Prelude.{◌≡◌, Some, IfOk, IsTrue};
ghost use Rattle.commands.specs.Outcome.{Follows, ShowsEnding};
ghost use Rattle.commands.specs.Plan.{outside};
ghost use Rattle.commands.specs.Texts.{alone};
ghost use Rattle.lab_top.specs.Forms.{viewed_ending, lab_plan_of};
ghost use Rattle.lab_top.specs.Texts.{ttplab};
ghost use Rattle.lab_top.specs.Views.{picture_view, has_slots, viewed};
ghost use Rattle.lab_top.specs.Words.{picture};

use crate::refusal::{TextFault, refuse_trace, trace_from};
use commands::load_trace;
use picture_text::{Span, put_picture};
use std::alloc::Global;
use ttp_base::{Library, Sink};
use whole_trace::Whole;

// The trace that a text is, if it has the slots that are asked for.
fn with_slots_asked<'a>(asked: Option<Span>, text: &'a [u8]) -> Result<Whole<'a>, TextFault>
    ensures value { result ≡ viewed (picture_view asked) text.now }
    ensures slots { IfOk result (λ trace. IsTrue (has_slots trace asked)) }
{
    let trace = match trace_from(text) {
        Ok(trace) => trace,
        Err(fault) => return Err(fault),
    };
    let slots = trace.head().slots;
    match asked {
        Some(span) if span.last < span.first || slots <= span.first => Err(TextFault::Slots {
            last: slots - 1,
        }),
        _ => Ok(trace),
    }
}

// The picture of a text, if it is a trace with the slots that are asked for.
fn show_picture<K: Sink>(text: &[u8], asked: Option<Span>, out: &mut K) -> u8
    ensures { ShowsEnding ttplab (viewed_ending (picture_view asked) (viewed (picture_view asked) text.now))
        (K.output out.old)
        (K.output out.new) (alone result) }
{
    match with_slots_asked(asked, text) {
        Ok(trace) => match put_picture(&trace, asked, out) {
            Ok(()) => 0,
            Err(_) => 6,
        },
        Err(fault) => refuse_trace(out, fault),
    }
}

/// The picture of the trace of this name, of the slots that are asked for, or else of those that are chosen.
pub(crate) fn picture<L: Library, K: Sink>(
    alloc: Global,
    trace: &str,
    asked: Option<Span>,
    library: &mut L,
    out: &mut K,
) -> u8
    ensures { Follows ttplab (lab_plan_of (Some (picture trace.now asked)))
        (outside (L.files library.old) (K.output out.old)) (outside (L.files library.new) (K.output out.new))
        (alone result) }
{
    match load_trace(alloc, trace, library, out) {
        Ok(text) => show_picture(text.as_slice(), asked, out),
        Err(status) => status,
    }
}
