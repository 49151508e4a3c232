//! Bytes beside an expected frame.
ghost use Rattle.std.specs.Prelude.{◌≡◌, ◌≢◌, ◌↔◌, ℕ, ◌+◌, ◌<◌, ◌≤◌, ◌&&◌, not, List, length, IsTrue};
ghost use Rattle.ttp_base.specs.NodeSet.{set_bits};
ghost use Rattle.ttp_world.specs.Fitting.{fits, is_formed};
ghost use Rattle.ttp_world.specs.Medl.{member_bytes, schedule_limit};
ghost use Rattle.ttp_frame.specs.Bytes.{DifferWithin};
ghost use Rattle.ttp_frame.specs.Match.{match_of};
ghost use Rattle.ttp_frame.specs.Shape.{IsFrameShape, HaveRoom, has_shape, carries};

use crate::pieces::{IMPLICIT, ends_with_word, sent_of, state_bytes, state_len, unsent_of};
use ttp_world::CState;

/// The frame that a receiver expects.
#[derive(Clone, Copy)]
pub struct Expect {
    /// Whether memberships have three bytes, as in lists of version 2; else they have two.
    pub wide: bool,
    /// 0 for an implicit C-state, 1 for an explicit one without payload, 2 for an explicit one with
    /// payload, and 3 for a cold start.
    pub header: u8,
    /// How many bytes of payload it has, up to 240, and none where the header is 1 or 3.
    pub payload: u8,
}

/// What bytes are to a receiver.
#[derive(Clone, Copy, PartialEq, Eq)]
pub enum FrameMatch {
    /// The expected frame, from a sender with the receiver's C-state.
    Match,
    /// A frame of the expected header and length, from a sender with another C-state.
    Differs,
    /// No such frame.
    Invalid,
}

/// Whether header and length are those of a frame.
pub(crate) fn has_shape(bytes: &[u8], wide: bool, header: u8, payload: u8) -> bool
    ensures { result ≡ has_shape (member_bytes wide) bytes.now header payload }
{
    let carried = if header == IMPLICIT {
        0
    } else {
        state_len(wide)
    };
    bytes.len() == 1 + carried + payload as usize + 3 && bytes[0] == header
}

// Whether a piece stands behind the header.
fn carries(piece: &[u8], bytes: &[u8]) -> bool
    requires { 1 + length piece.now ≤ length bytes.now }
    ensures { result ≡ carries piece.now bytes.now }
{
    &bytes[1..1 + piece.len()] == piece
}

// The answer of `judge`.
fn found(bytes: &[u8], start: u32, expect: &Expect, cstate: &CState) -> FrameMatch
    requires shape { IsFrameShape expect.now.header expect.now.payload }
    requires start { start < schedule_limit }
    ensures { result ≡ match_of expect.now.wide bytes.now expect.now.header expect.now.payload start cstate.now }
{
    if !has_shape(bytes, expect.wide, expect.header, expect.payload) {
        return FrameMatch::Invalid;
    }
    let all = state_bytes(expect.wide, cstate);
    let state = &all[..state_len(expect.wide)];
    if !ends_with_word(start, unsent_of(expect.header, state), bytes) {
        return if expect.header == IMPLICIT {
            FrameMatch::Differs
        } else {
            FrameMatch::Invalid
        };
    }
    if carries(sent_of(expect.header, state), bytes) {
        FrameMatch::Match
    } else {
        FrameMatch::Differs
    }
}

/// Judges bytes by the frame that a receiver expects, from its own C-state.
///
/// A frame with explicit C-state tells a sender of another C-state from noise. One with implicit
/// C-state does not: where its word is wrong it differs, whatever the reason.
pub fn judge(bytes: &[u8], start: u32, expect: &Expect, cstate: &CState) -> FrameMatch
    requires shape { IsFrameShape expect.now.header expect.now.payload }
    requires start { start < schedule_limit }
    requires members { HaveRoom expect.now.wide cstate.now.members }
    ensures answer { result ≡ match_of expect.now.wide bytes.now expect.now.header expect.now.payload start cstate.now }
    ensures matches { (result ≡ FrameMatch.Match)
        ↔ IsTrue (fits (member_bytes expect.now.wide) bytes.now expect.now.header expect.now.payload start cstate.now) }
    ensures differs { (result ≡ FrameMatch.Differs)
        ↔ IsTrue (is_formed (member_bytes expect.now.wide) bytes.now expect.now.header expect.now.payload start
        && not (fits (member_bytes expect.now.wide) bytes.now expect.now.header expect.now.payload start cstate.now)) }
    ensures invalid { (result ≡ FrameMatch.Invalid)
        ↔ IsTrue (not (is_formed (member_bytes expect.now.wide) bytes.now expect.now.header expect.now.payload start)) }

    // No C-state with the same time, round and slot and other members fits: a set of nodes and its word tell each
    // other.
    ensures told { (members : List ℕ) → HaveRoom expect.now.wide members
        → set_bits members ≢ set_bits cstate.now.members → result ≡ FrameMatch.Match
        → IsTrue (not (fits (member_bytes expect.now.wide) bytes.now expect.now.header expect.now.payload start
        (record cstate.now { members = members }))) }

    // A frame that would match does not where some of 24 consecutive bits are wrong.
    ensures bursts { (sent : List ℕ) → DifferWithin 24 sent bytes.now
        → IsTrue (fits (member_bytes expect.now.wide) sent expect.now.header expect.now.payload start cstate.now)
        → result ≢ FrameMatch.Match }
{
    found(bytes, start, expect, cstate)
}
