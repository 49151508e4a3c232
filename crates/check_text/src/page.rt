//! Lines that are formed and written one after another.
ghost use Rattle.std.specs.Prelude.{◌≡◌, ◌<◌, ◌∷◌, [], ℕ, None, OnOk, IfErr, length, List as Items};
ghost use Rattle.ttp_base.specs.Outside.{Output, WroteLines};
ghost use Rattle.ttp_base.specs.Text.{Lines, lines_of};
ghost use Rattle.fault_runs.specs.Ends.{LeftFewerBy};
ghost use Rattle.check_text.specs.Page.{PutsOn, pieces_of};

use check_words::Text;
use fault_runs::CampaignFault;
use line_text::cut_line;
use std::alloc::Global;
use ttp_base::{Memory, Sink};

/// The line that is formed, in a text that is used again, and why the writing ended, if it did.
///
/// Behind its end nothing more is written, so that what writes several lines goes on as if it had written them, and one place
/// tells of it.
#[derive(Drop)]
pub(crate) struct Page {
    pub(crate) line: Text,
    pub(crate) ended: Option<CampaignFault>,
}

// The first line of a text that has some bytes, with its line feed if it has one, and what follows it.
fn cut_piece(text: &[u8]) -> (&[u8], &[u8])
    requires { 0 < length text.now }
    ensures cut { lines_of text.now ≡ result.0.now ∷ lines_of result.1.now }
    ensures shorter { length result.1.now < length text.now }
{
    cut_line(text)
}

// Writes a line, as one piece where no name in it has a line feed.
#[tactic(auto, using(crate::proofs::Pages::puts))]
fn write_line<K: Sink>(line: &[u8], out: &mut K) -> Option<CampaignFault>
    ensures { PutsOn None (K.output out.old) result (K.output out.new) (line.now ∷ []) }
{
    let mut rest = line;
    while !rest.is_empty() {
        let (piece, behind) = cut_piece(rest);
        match out.write(piece) {
            Ok(()) => rest = behind,
            Err(_) => return Some(CampaignFault::Failed),
        }
    }
    None
}

// Writes a line that was to be formed, if it was.
#[tactic(auto, using(crate::proofs::Pages::puts))]
fn write_formed<K: Sink>(
    formed: Result<(), Memory>,
    line: &[u8],
    out: &mut K,
) -> Option<CampaignFault>
    ensures { (due : Items ℕ) → 0 < length due → OnOk formed (line.now ≡ due)
        → PutsOn None (K.output out.old) result (K.output out.new) (due ∷ []) }
{
    match formed {
        Ok(()) => write_line(line, out),
        Err(_) => Some(CampaignFault::Memory),
    }
}

impl Page {
    pub(crate) fn new(alloc: Global) -> Page
        ensures { result.ended ≡ None }
    {
        Page {
            line: Text::new(alloc),
            ended: None,
        }
    }

    /// Writes the line, which was to be formed, unless the writing has ended.
    #[tactic(auto, using(crate::proofs::Pages::puts))]
    pub(crate) fn write<K: Sink>(&mut self, formed: Result<(), Memory>, out: &mut K)
        ensures { (due : Items ℕ) → 0 < length due → OnOk formed (self.old.line ≡ due)
            → PutsOn self.old.ended (K.output out.old) self.new.ended (K.output out.new) (due ∷ []) }
    {
        if self.ended.is_none() {
            self.ended = write_formed(formed, self.line.bytes(), out);
        }
    }

    /// Writes a line that was formed before.
    #[tactic(auto, using(crate::proofs::Pages::puts))]
    pub(crate) fn put<K: Sink>(&mut self, line: &[u8], out: &mut K)
        ensures { PutsOn self.old.ended (K.output out.old) self.new.ended (K.output out.new) (line.now ∷ []) }
    {
        if self.ended.is_none() {
            self.ended = write_line(line, out);
        }
    }

    /// Whether all was written, and else why not.
    pub(crate) fn end(self) -> Result<(), CampaignFault>
        ensures ok { (a b : Output) (lines : Lines) → PutsOn None a self.ended b lines
            → OnOk result (WroteLines a b (pieces_of lines)) }
        ensures err { (a b : Output) (lines : Lines) → PutsOn None a self.ended b lines
            → IfErr result (λ why. LeftFewerBy why a b (pieces_of lines)) }
    {
        match self.ended {
            None => Ok(()),
            Some(why) => Err(why),
        }
    }
}
