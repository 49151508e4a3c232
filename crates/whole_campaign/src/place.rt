//! A place in the text of a campaign.
ghost use Rattle.std.specs.Prelude.{◌≡◌, ◌-◌, ◌<◌, take, length, Some, IfSome, IsNone, option_map};
ghost use Rattle.ttp_base.specs.Text.{lines_of};
ghost use Rattle.campaign.specs.CostText.{unended};
ghost use Rattle.whole_campaign.specs.Own.{common_of};
ghost use Rattle.whole_campaign.specs.Steps.{IsFrame, HasRoomBehind, IsPassed, told_of};
ghost use Rattle.whole_campaign.specs.Whole.{wrong_line, piece_ended};

use crate::due::{Due, due_behind};
use crate::own::Frame;
use crate::shown::{FaultLine, FaultShown, Piece};
use line_text::cut_line;

/// What is left of a text before one of its lines, and what is due there.
#[derive(Clone, Copy)]
pub(crate) struct Place<'a> {
    pub(crate) due: Due,
    pub(crate) rest: &'a [u8],
}

/// A line that was due: the fault that it tells, and the place behind it.
#[derive(Clone, Copy)]
pub(crate) struct Step<'a> {
    pub(crate) fault: Option<FaultLine<'a>>,
    pub(crate) behind: Place<'a>,
}

// What a line tells, with the line.
fn with_text<'a>(fault: Option<FaultShown>, line: &'a [u8]) -> Option<FaultLine<'a>>
    requires { 0 < length line.now }
    ensures { option_map told_of result ≡ option_map (λ f. record { shown = f; text = unended line.now }) fault }
{
    match fault {
        Some(shown) => Some(FaultLine {
            shown,
            text: &line[..line.len() - 1],
        }),
        None => None,
    }
}

impl<'a> Place<'a> {
    /// The first line that is left, if it is due.
    pub(crate) fn next(&self, frame: &Frame) -> Option<Step<'a>>
        requires frame { IsFrame (common_of frame.now) }
        requires due { HasRoomBehind (length self.now.rest.now) self.now.due }
        ensures some { IfSome result (λ s. IsPassed (common_of frame.now) self.now.due self.now.rest.now
            (option_map told_of s.fault) s.behind.due s.behind.rest.now) }
        ensures due { IfSome result (λ s. HasRoomBehind (length s.behind.rest.now) s.behind.due) }
        ensures none { IsNone result → 0 < length self.now.rest.now
            → wrong_line (common_of frame.now) self.now.due (lines_of self.now.rest.now) ≡ Some 1 }
    {
        if self.rest.is_empty() {
            return None;
        }
        let (line, rest) = cut_line(self.rest);
        let (fault, behind) = due_behind(frame, &self.due, line);
        let due = behind?;
        Some(Step {
            fault: with_text(fault, line),
            behind: Place { due, rest },
        })
    }

    /// The piece that ends with the first line that is left, if that is due and ends one.
    pub(crate) fn piece(&self) -> Option<Piece>
        ensures { result ≡ piece_ended self.now.due }
    {
        match self.due {
            Due::Broken(piece) => Some(piece),
            _ => None,
        }
    }
}
