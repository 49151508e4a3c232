//! Frames into bytes.
ghost use Rattle.std.specs.Prelude.{◌≡◌, ◌+◌, ◌++◌, ◌≤◌, ◌<◌, length, take};
ghost use Rattle.ttp_world.specs.Fitting.{carried_length};
ghost use Rattle.ttp_world.specs.Frame.{frame as frame_bytes};
ghost use Rattle.ttp_world.specs.Medl.{member_bytes, schedule_limit};
ghost use Rattle.ttp_frame.specs.Shape.{IsFrameShape, HaveRoom};

use crate::pieces::{sent_of, state_bytes, state_len, unsent_of, word_of};
use ttp_world::CState;

/// A frame that is to be sent.
#[derive(Clone, Copy)]
pub struct FrameIn<'a> {
    /// Whether its membership has three bytes, as in lists of version 2; else it has two.
    pub wide: bool,
    /// 0 for an implicit C-state, 1 for an explicit one without payload, 2 for an explicit one with
    /// payload, and 3 for a cold start.
    pub header: u8,
    /// The sender's controller state.
    pub cstate: CState,
    /// Up to 240 bytes, and none where the header is 1 or 3.
    pub payload: &'a [u8],
}

// Writes a piece behind the first bytes of a buffer, and answers how many there are then.
fn put(out: &mut [u8; 256], len: usize, piece: &[u8]) -> usize
    requires { len + length piece.now ≤ 256 }
    ensures length { result ≡ len + length piece.now }
    ensures front { take result out.new ≡ take len out.old ++ piece.now }
{
    let end = len + piece.len();
    out[len..end].copy_from_slice(piece);
    end
}

/// Writes the bytes of a frame to the front of a buffer, and answers how many there are.
///
/// The word starts from the schedule's number, which is below 2^24.
pub fn encode(frame: &FrameIn, start: u32, out: &mut [u8; 256]) -> usize
    requires shape { IsFrameShape frame.now.header (length frame.now.payload.now) }
    requires start { start < schedule_limit }
    requires members { HaveRoom frame.now.wide frame.now.cstate.members }
    ensures length { result
        ≡ 1 + carried_length (member_bytes frame.now.wide) frame.now.header + length frame.now.payload.now + 3 }
    ensures fits { result ≤ 256 }
    ensures front { take result out.new
        ≡ frame_bytes (member_bytes frame.now.wide) frame.now.header frame.now.cstate frame.now.payload.now start }
{
    let bytes = state_bytes(frame.wide, &frame.cstate);
    let state = &bytes[..state_len(frame.wide)];
    let headed = put(out, 0, &[frame.header]);
    let stated = put(out, headed, sent_of(frame.header, state));
    let loaded = put(out, stated, frame.payload);
    let word = word_of(start, unsent_of(frame.header, state), &out[..loaded]);
    put(out, loaded, &word)
}
