//! A campaign as a whole.
ghost use Rattle.whole_campaign.specs.Own.{own_of, common_of};
ghost use Rattle.std.specs.Prelude.{◌≡◌, ◌+◌, ◌≤◌, length, Some, IfSome, IfOk, IsTrue, option_map};
ghost use Rattle.ttp_base.specs.Text.{lines_of};
ghost use Rattle.whole_campaign.specs.Runs.{is_campaign_head};
ghost use Rattle.whole_campaign.specs.Steps.{IsFrame, HasRoomBehind};
ghost use Rattle.whole_campaign.specs.Readable.{IsReadable};
ghost use Rattle.whole_campaign.specs.Whole.{wrong_line, behind_own, behind_first, campaign_in};

use crate::due::{may_end, piece_begun};
use crate::head::{CampaignHead, head_of_line};
use crate::own::{Frame, OwnLine, own_of_line};
use crate::place::Place;
use crate::walks::{Faults, Pieces};
use line_text::cut_line;
use std::marker::Model;

/// A text that is a campaign, which contracts see as the line of the script's own run, the pieces and the faults.
///
/// It keeps the text, and each walk goes over it again.
#[derive(Drop)]
pub struct Campaign<'a> {
    frame: Frame<'a>,
    first: u32,
    last: u32,
    // Behind the first two lines.
    rest: &'a [u8],
}

impl<'a> Model for Campaign<'a> {
    ghost use Rattle.ttp_base.specs.Text.{lines_of};
    ghost use Rattle.whole_campaign.specs.Due.{piece_begun};
    ghost use Rattle.whole_campaign.specs.Own.{common_of};
    ghost use Rattle.whole_campaign.specs.Steps.{IsPlace};
    ghost use Rattle.whole_campaign.specs.Whole.{WholeCampaign, campaign_from};

    ghost Value = { WholeCampaign };

    ghost view = { λ c. campaign_from (common_of c.frame) (piece_begun c.first c.last) (lines_of c.rest.now) };

    ghost invariant = { λ c. IsPlace (common_of c.frame) (piece_begun c.first c.last) c.rest.now };
}

impl<'a> Campaign<'a> {
    /// How many nodes there are.
    pub fn nodes(&self) -> u8
        ensures value { result ≡ self.now.nodes }
        ensures few { (4 ≤ result) × (result ≤ 24) }
    {
        self.frame.nodes
    }

    /// How many slots a run has.
    pub fn slots(&self) -> u32
        ensures value { result ≡ self.now.slots }
        ensures some { (1 ≤ result) × (result ≤ 20000) }
    {
        self.frame.slots
    }

    /// The line of the script's own run.
    pub fn own(&self) -> OwnLine<'a>
        ensures { own_of result ≡ self.now.own }
    {
        self.frame.own
    }

    /// The pieces, in the order of the text, which is gone over again for them. Takes no memory.
    pub fn pieces(&self) -> Pieces<'a>
        ensures { result ≡ self.now.pieces }
    {
        let start = Place {
            due: piece_begun(self.first, self.last),
            rest: self.rest,
        };
        Pieces::starting(self.frame, start)
    }

    /// The faults of all pieces, in the order of the text, which is gone over again for them. Takes no memory.
    pub fn faults(&self) -> Faults<'a>
        ensures { result ≡ self.now.faults }
    {
        let start = Place {
            due: piece_begun(self.first, self.last),
            rest: self.rest,
        };
        Faults::starting(self.frame, start)
    }
}

// The first line of some bytes that is not due or is missing, if there is one, counted from 1.
fn wrong_line(frame: &Frame, from: &Place) -> Option<u64>
    requires frame { IsFrame (common_of frame.now) }
    requires due { HasRoomBehind (length from.now.rest.now) from.now.due }
    ensures line { result ≡ wrong_line (common_of frame.now) from.now.due (lines_of from.now.rest.now) }
    ensures few { IfSome result (λ n. n ≤ length from.now.rest.now + 1) }
{
    let mut at = *from;
    let mut passed: u64 = 0;
    while !at.rest.is_empty() {
        match at.next(frame) {
            Some(step) => at = step.behind,
            None => return Some(passed + 1),
        }
        passed += 1;
    }
    if may_end(&at.due) {
        None
    } else {
        Some(passed + 1)
    }
}

// The campaign behind its first two lines.
fn read_rest<'a>(head: &CampaignHead, own: OwnLine<'a>, rest: &'a [u8]) -> Result<Campaign<'a>, u64>
    requires { IsTrue (is_campaign_head head.now) }
    ensures { result ≡ behind_own head.now (lines_of rest.now) (Some (own_of own.entry)) }
{
    let frame = Frame {
        nodes: head.nodes,
        slots: head.slots,
        own,
    };
    let start = Place {
        due: piece_begun(head.first, head.last),
        rest,
    };
    match wrong_line(&frame, &start) {
        Some(number) => Err(number + 2),
        None => Ok(Campaign {
            frame,
            first: head.first,
            last: head.last,
            rest,
        }),
    }
}

// The campaign behind its first line.
fn read_behind<'a>(head: &CampaignHead, text: &'a [u8]) -> Result<Campaign<'a>, u64>
    requires { IsTrue (is_campaign_head head.now) }
    ensures { result ≡ behind_first (lines_of text.now) (Some head.now) }
{
    let (line, rest) = cut_line(text);
    match own_of_line(head.nodes, head.slots, line) {
        Some(own) => read_rest(head, own, rest),
        None => Err(2),
    }
}

// The campaign that a text is, or its first line that is not due.
fn read_text<'a>(text: &'a [u8]) -> Result<Campaign<'a>, u64>
    ensures { result ≡ campaign_in text.now }
{
    let (line, rest) = cut_line(text);
    match head_of_line(line) {
        Some(head) => read_behind(&head, rest),
        None => Err(1),
    }
}

/// The campaign that a text is. `Err` is the number, counted from 1, of the first line that is not one that is due behind
/// the lines before it, is missing, or has no line feed.
///
/// Whether a line is right is not asked. The faults of a campaign that was read stand by their slots, and its counts, added
/// up, fit 64 bits (`readable`). The text is gone over once, and no memory is taken.
pub fn read_campaign<'a>(text: &'a [u8]) -> Result<Campaign<'a>, u64>
    ensures value { result ≡ campaign_in text.now }
    ensures readable { IfOk result (λ campaign. IsReadable campaign) }
{
    read_text(text)
}
