//! Which line is due in a campaign behind its first two lines, by the lines before it.
ghost use Rattle.whole_campaign.specs.Own.{common_of};
ghost use Rattle.std.specs.Prelude.{◌≡◌, ◌≤◌, ◌<◌, IfSome, option_map};
ghost use Rattle.whole_campaign.specs.declared.due.Due.TheVariants as due;
ghost use Rattle.whole_campaign.specs.Due.{piece_begun, spot_of, fault_told, is_between_groups, behind_faults, behind_fault};
ghost use Rattle.whole_campaign.specs.Due.{behind_kept, is_later_head, behind_piece, behind_head, due_in_campaign, may_end};
ghost use Rattle.whole_campaign.specs.Steps.{CanCount, IsFrame, HasRoomBehind};

use crate::counts::{is_counts_line, no_runs, with_fault_counted};
use crate::cut::without_feed;
use crate::fault::{fault_line_in, is_last_place};
use crate::head::{CampaignHead, head_of_line};
use crate::own::Frame;
use crate::shown::{FaultShown, Piece};
use crate::spot::Spot;

/// What may stand behind some lines of a campaign.
#[derive(Clone, Copy)]
pub(crate) enum Due {
    /// The line of a fault, or behind a group of them that of those whose test says yes.
    Fault(Piece, Option<Spot>),
    /// The line of those whose test says no.
    Broken(Piece),
    /// The first line of a piece behind this slot, or nothing.
    Piece(u32),
    /// The line of the script's own run, in a piece of this range.
    Own(u32, u32),
}

/// The faults of a piece of this range.
pub(crate) fn piece_begun(first: u32, last: u32) -> Due
    ensures { result ≡ piece_begun first last }
{
    let piece = Piece {
        first,
        last,
        kept: no_runs(),
        broken: no_runs(),
    };
    Due::Fault(piece, None)
}

fn spot_of(fault: &FaultShown) -> Spot
    ensures { result ≡ spot_of fault.now }
{
    Spot {
        slot: fault.slot,
        node: fault.node,
        doing: fault.doing,
        place: fault.place,
    }
}

/// The fault that a line tells, if one is due.
#[tactic(auto, unfolding(crate::specs::Due::fault_told))]
pub(crate) fn fault_told(frame: &Frame, due: &Due, line: &[u8]) -> Option<FaultShown>
    requires frame { IsFrame (common_of frame.now) }
    requires due { HasRoomBehind 1 due.now }
    ensures value { result ≡ fault_told (common_of frame.now) due.now line.now }
    ensures few { IfSome result (λ f. f.place < 16) }
{
    match due {
        Due::Fault(piece, before) => {
            let bytes = without_feed(line)?;
            fault_line_in(frame, piece, before, bytes)
        }
        _ => None,
    }
}

fn is_between_groups(before: &Option<Spot>) -> bool
    ensures { result ≡ is_between_groups before.now }
{
    match before {
        None => true,
        Some(before) => is_last_place(before.place),
    }
}

// Behind the last fault of a piece.
fn behind_faults(piece: &Piece, before: &Option<Spot>, line: &[u8]) -> Option<Due>
    ensures { result ≡ behind_faults piece.now before.now line.now }
{
    if is_between_groups(before) && is_counts_line("kept ", &piece.kept, line) {
        Some(Due::Broken(*piece))
    } else {
        None
    }
}

// Behind a line which tells this fault, or none.
fn behind_fault(
    piece: &Piece,
    before: &Option<Spot>,
    line: &[u8],
    fault: &Option<FaultShown>,
) -> Option<Due>
    requires kept { CanCount 1 piece.now.kept }
    requires broken { CanCount 1 piece.now.broken }
    ensures { result ≡ behind_fault piece.now before.now line.now fault.now }
{
    match fault {
        Some(fault) => Some(Due::Fault(with_fault_counted(fault, piece), Some(spot_of(fault)))),
        None => behind_faults(piece, before, line),
    }
}

fn behind_kept(piece: &Piece, line: &[u8]) -> Option<Due>
    ensures { result ≡ behind_kept piece.now line.now }
{
    if is_counts_line("broken ", &piece.broken, line) {
        Some(Due::Piece(piece.last))
    } else {
        None
    }
}

fn is_later_head(frame: &Frame, last: u32, head: &CampaignHead) -> bool
    ensures { result ≡ is_later_head (common_of frame.now) last head.now }
{
    head.nodes == frame.nodes && head.slots == frame.slots && last < head.first
}

#[tactic(auto, unfolding(crate::specs::Due::behind_piece))]
fn behind_piece(frame: &Frame, last: u32, line: &[u8]) -> Option<Due>
    ensures { result ≡ behind_piece (common_of frame.now) last line.now }
{
    let head = head_of_line(line)?;
    if is_later_head(frame, last, &head) {
        Some(Due::Own(head.first, head.last))
    } else {
        None
    }
}

#[tactic(auto, unfolding(crate::specs::Due::behind_head))]
fn behind_head(frame: &Frame, first: u32, last: u32, line: &[u8]) -> Option<Due>
    ensures { result ≡ behind_head (common_of frame.now) first last line.now }
{
    let bytes = without_feed(line)?;
    if bytes == frame.own.text {
        Some(piece_begun(first, last))
    } else {
        None
    }
}

/// What is due behind a line, if it is due itself, and the fault that it tells, if it tells one.
#[tactic(auto, unfolding(crate::specs::Due::due_in_campaign))]
pub(crate) fn due_behind(frame: &Frame, due: &Due, line: &[u8]) -> (Option<FaultShown>, Option<Due>)
    requires frame { IsFrame (common_of frame.now) }
    requires due { HasRoomBehind 1 due.now }
    ensures fault { result.0 ≡ fault_told (common_of frame.now) due.now line.now }
    ensures few { IfSome result.0 (λ f. f.place < 16) }
    ensures due { result.1 ≡ due_in_campaign (common_of frame.now) due.now line.now }
{
    let fault = fault_told(frame, due, line);
    let behind = match due {
        Due::Fault(piece, before) => behind_fault(piece, before, line, &fault),
        Due::Broken(piece) => behind_kept(piece, line),
        Due::Piece(last) => behind_piece(frame, *last, line),
        Due::Own(first, last) => behind_head(frame, *first, *last, line),
    };
    (fault, behind)
}

/// Whether a campaign may end.
pub(crate) fn may_end(due: &Due) -> bool
    ensures { result ≡ may_end due.now }
{
    matches!(due, Due::Piece(_))
}
