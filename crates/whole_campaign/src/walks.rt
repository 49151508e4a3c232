//! The pieces and the faults of a campaign, one after another.
ghost use Rattle.whole_campaign.specs.Own.{common_of};
ghost use Rattle.std.specs.Prelude.{◌≡◌, ◌∷◌, [], IfSome, IsNone};
ghost use Rattle.ttp_base.specs.Text.{lines_of};
ghost use Rattle.whole_campaign.specs.Steps.{IsPlace, IsFaultNext, IsPieceNext, told_of};
ghost use Rattle.whole_campaign.specs.Whole.{faults_told, pieces_from};

use crate::own::Frame;
use crate::place::{Place, Step};
use crate::shown::{FaultLine, Piece};
use std::marker::Model;

// The next fault of a text, and the place behind it.
fn fault_behind<'a>(frame: &Frame, from: Place<'a>) -> Option<(FaultLine<'a>, Place<'a>)>
    requires { IsPlace (common_of frame.now) from.due from.rest.now }
    ensures some { IfSome result (λ r. IsFaultNext (common_of frame.now) from.entry.due from.entry.rest.now (told_of r.0)
        r.1.due r.1.rest.now) }
    ensures none { IsNone result → faults_told (common_of frame.now) from.entry.due (lines_of from.entry.rest.now) ≡ [] }
{
    let mut at = from;
    while let Some(Step { fault, behind }) = at.next(frame) {
        if let Some(fault) = fault {
            return Some((fault, behind));
        }
        at = behind;
    }
    None
}

// The next piece that ends, and the place behind it.
fn piece_behind<'a>(frame: &Frame, from: Place<'a>) -> Option<(Piece, Place<'a>)>
    requires { IsPlace (common_of frame.now) from.due from.rest.now }
    ensures some { IfSome result (λ r. IsPieceNext (common_of frame.now) from.entry.due from.entry.rest.now r.0
        r.1.due r.1.rest.now) }
    ensures none { IsNone result → pieces_from (common_of frame.now) from.entry.due (lines_of from.entry.rest.now) ≡ [] }
{
    let mut at = from;
    while let Some(Step { behind, .. }) = at.next(frame) {
        if let Some(piece) = at.piece() {
            return Some((piece, behind));
        }
        at = behind;
    }
    None
}

/// The faults of a campaign that are still to come. Contracts see it as the list of them.
#[derive(Drop)]
pub struct Faults<'a> {
    frame: Frame<'a>,
    at: Place<'a>,
}

impl<'a> Model for Faults<'a> {
    ghost use Rattle.std.specs.Prelude.{List};
    ghost use Rattle.ttp_base.specs.Text.{lines_of};
    ghost use Rattle.whole_campaign.specs.Own.{common_of};
    ghost use Rattle.whole_campaign.specs.Steps.{IsPlace};
    ghost use Rattle.whole_campaign.specs.Whole.{FaultTold, faults_told};

    ghost Value = { List FaultTold };

    ghost view = { λ f. faults_told (common_of f.frame) f.at.due (lines_of f.at.rest.now) };

    ghost invariant = { λ f. IsPlace (common_of f.frame) f.at.due f.at.rest.now };
}

impl<'a> Faults<'a> {
    /// The same faults once more, for a second walk from here on.
    pub fn again(&self) -> Faults<'a>
        ensures { result ≡ self.now }
    {
        Faults {
            frame: self.frame,
            at: self.at,
        }
    }

    pub(crate) fn starting(frame: Frame<'a>, at: Place<'a>) -> Faults<'a>
        requires { IsPlace (common_of frame) at.due at.rest.now }
        ensures { result ≡ faults_told (common_of frame.entry) at.entry.due (lines_of at.entry.rest.now) }
    {
        Faults { frame, at }
    }

    /// The next fault, if one is left. Takes no memory.
    pub fn next_fault(&mut self) -> Option<FaultLine<'a>>
        ensures some { IfSome result (λ f. self.old ≡ told_of f ∷ self.new) }
        ensures none { IsNone result → self.old ≡ [] }
    {
        match fault_behind(&self.frame, self.at) {
            Some((fault, behind)) => {
                self.at = behind;
                Some(fault)
            }
            None => None,
        }
    }
}

/// The pieces of a campaign that are still to come. Contracts see it as the list of them.
#[derive(Drop)]
pub struct Pieces<'a> {
    frame: Frame<'a>,
    at: Place<'a>,
}

impl<'a> Model for Pieces<'a> {
    ghost use Rattle.std.specs.Prelude.{List};
    ghost use Rattle.ttp_base.specs.Text.{lines_of};
    ghost use Rattle.whole_campaign.specs.declared.shown.Piece.{Piece};
    ghost use Rattle.whole_campaign.specs.Own.{common_of};
    ghost use Rattle.whole_campaign.specs.Steps.{IsPlace};
    ghost use Rattle.whole_campaign.specs.Whole.{pieces_from};

    ghost Value = { List Piece };

    ghost view = { λ p. pieces_from (common_of p.frame) p.at.due (lines_of p.at.rest.now) };

    ghost invariant = { λ p. IsPlace (common_of p.frame) p.at.due p.at.rest.now };
}

impl<'a> Pieces<'a> {
    /// The same pieces once more, for a second walk from here on.
    pub fn again(&self) -> Pieces<'a>
        ensures { result ≡ self.now }
    {
        Pieces {
            frame: self.frame,
            at: self.at,
        }
    }

    pub(crate) fn starting(frame: Frame<'a>, at: Place<'a>) -> Pieces<'a>
        requires { IsPlace (common_of frame) at.due at.rest.now }
        ensures { result ≡ pieces_from (common_of frame.entry) at.entry.due (lines_of at.entry.rest.now) }
    {
        Pieces { frame, at }
    }

    /// The next piece, if one is left. All its lines are read. Takes no memory.
    pub fn next_piece(&mut self) -> Option<Piece>
        ensures some { IfSome result (λ piece. self.old ≡ piece ∷ self.new) }
        ensures none { IsNone result → self.old ≡ [] }
    {
        match piece_behind(&self.frame, self.at) {
            Some((piece, behind)) => {
                self.at = behind;
                Some(piece)
            }
            None => None,
        }
    }
}
