//! What a text is read as, and the line that refuses one that can't be shown.
ghost use Rattle.std.specs.Prelude.{◌≡◌, ◌+◌, ◌≤◌, ◌++◌, nat_lt, codes, length, IfOk};
ghost use Rattle.commands.specs.Lines.{HasSaid};
ghost use Rattle.commands.specs.Read.{trace_limit};
ghost use Rattle.lab_top.specs.Refusals.{text_fault, text_fault_line, refused_text, value_from};
ghost use Rattle.whole_campaign.specs.Whole.{campaign_in};
ghost use Rattle.whole_campaign.specs.Readable.{IsReadable};
ghost use Rattle.whole_trace.specs.Whole.{whole_in};

use commands::{TRACE_LIMIT, say};
use ttp_base::{Line, Sink};
use whole_campaign::{Campaign, read_campaign};
use whole_trace::{Whole, read_whole};

/// Why a text is not shown.
#[derive(Clone, Copy, PartialEq, Eq)]
pub(crate) enum TextFault {
    /// It has more bytes than such a text may have.
    TooLarge,
    /// It is none: the line of this number, counted from 1, is not the one that is due, or it is missing.
    Line { number: u64 },
    /// It is a trace that lacks the slots that were asked for; this is its last one.
    Slots { last: u32 },
    /// It is a campaign that tries no fault in the slots that were asked for.
    NoSlot,
}

// Adds what is wrong.
#[tactic(auto, using(ttp_base::proofs::Room::room))]
fn put_fault(line: &mut Line, fault: TextFault)
    requires { length line.old + 40 ≤ 640 }
    ensures text { line.new ≡ line.old ++ text_fault fault }
    ensures short { length line.new ≤ length line.old + 40 }
{
    match fault {
        TextFault::TooLarge => line.put_text("too large"),
        TextFault::Line { number } => {
            line.put_text("line ");
            line.put_number(number);
        }
        TextFault::Slots { last } => {
            line.put_text("slots 0 to ");
            line.put_number(u64::from(last));
        }
        TextFault::NoSlot => line.put_text("no slot to show"),
    }
}

// The line on what is wrong with a trace.
#[tactic(auto, unfolding(crate::specs::Refusals::text_fault_line))]
fn trace_fault_line(fault: TextFault) -> Line
    ensures { result ≡ text_fault_line (codes "trace") fault }
{
    let mut line = Line::new();
    line.put_text("trace: ");
    put_fault(&mut line, fault);
    line.put_text("\n");
    line
}

// The line on what is wrong with a campaign.
#[tactic(auto, unfolding(crate::specs::Refusals::text_fault_line))]
fn campaign_fault_line(fault: TextFault) -> Line
    ensures { result ≡ text_fault_line (codes "campaign") fault }
{
    let mut line = Line::new();
    line.put_text("campaign: ");
    put_fault(&mut line, fault);
    line.put_text("\n");
    line
}

/// Says why a trace is not shown, with status 4, or 6 where the line could not be written. Takes no memory.
pub(crate) fn refuse_trace<K: Sink>(out: &mut K, fault: TextFault) -> u8
    ensures { HasSaid (refused_text (codes "trace") fault) (K.output out.old) (K.output out.new) result }
{
    say(out, trace_fault_line(fault).bytes(), 4)
}

/// Says why a campaign is not shown, with status 4, or 6 where the line could not be written. Takes no memory.
pub(crate) fn refuse_campaign<K: Sink>(out: &mut K, fault: TextFault) -> u8
    ensures { HasSaid (refused_text (codes "campaign") fault) (K.output out.old) (K.output out.new) result }
{
    say(out, campaign_fault_line(fault).bytes(), 4)
}

// Whether a text has more bytes than one that is shown.
fn is_too_large(text: &[u8]) -> bool
    ensures { result ≡ nat_lt trace_limit (length text.now) }
{
    text.len() > TRACE_LIMIT
}

/// The trace that a text is, unless it is too large or none.
#[tactic(auto, unfolding(crate::specs::Refusals::value_from))]
pub(crate) fn trace_from<'a>(text: &'a [u8]) -> Result<Whole<'a>, TextFault>
    ensures { result ≡ value_from whole_in text.now }
{
    if is_too_large(text) {
        return Err(TextFault::TooLarge);
    }
    match read_whole(text) {
        Ok(trace) => Ok(trace),
        Err(number) => Err(TextFault::Line { number }),
    }
}

/// The campaign that a text is, unless it is too large or none. A chart can be made of it.
#[tactic(auto, unfolding(crate::specs::Refusals::value_from))]
pub(crate) fn campaign_from<'a>(text: &'a [u8]) -> Result<Campaign<'a>, TextFault>
    ensures value { result ≡ value_from campaign_in text.now }
    ensures readable { IfOk result IsReadable }
{
    if is_too_large(text) {
        return Err(TextFault::TooLarge);
    }
    match read_campaign(text) {
        Ok(campaign) => Ok(campaign),
        Err(number) => Err(TextFault::Line { number }),
    }
}
