//! The laws of frames.
//!
//! Each function does nothing, and its contract is a law over the definitions. For proofs to cite,
//! `proofs/FrameLaws.antt` has the first under the function's name, `proofs/FlippedFrames.antt` what
//! the second rests on, and `proofs/Undisturbed.antt` what follows for frames as they were sent.
ghost use Rattle.std.specs.Prelude.{◌≡◌, ℕ, ◌<◌, Bool, List, length, slice_index, IsTrue};
ghost use Rattle.ttp_world.specs.declared.medl.Medl.{Medl};
ghost use Rattle.ttp_world.specs.declared.node.CState.{CState};
ghost use Rattle.ttp_world.specs.Diary.{joined_place};
ghost use Rattle.ttp_world.specs.Fitting.{fits, joinable};
ghost use Rattle.ttp_world.specs.Medl.{is_wide, member_bytes, schedule_limit, IsValid};
ghost use Rattle.ttp_frame.specs.FrameBytes.{bytes_of, flipped_bytes};
ghost use Rattle.ttp_frame.specs.Match.{match_of};
ghost use Rattle.ttp_frame.specs.Shape.{IsFrameShape, HavePlaces, HaveRoom};

use crate::frame::FrameIn;

/// Bytes tell the members of their sender, also where they carry no C-state: two C-states of the same
/// time, round and slot that both fit have the same members.
pub fn members_told()
    ensures { (wide : Bool) (bytes : List ℕ) (header size start : ℕ) (one other : CState)
        → joined_place one ≡ joined_place other → HavePlaces wide one.members → HavePlaces wide other.members
        → IsTrue (fits (member_bytes wide) bytes header size start one)
        → IsTrue (fits (member_bytes wide) bytes header size start other)
        → one.members ≡ other.members }
{}

/// How a frame with flipped bits is judged does not depend on its payload: of two frames that differ
/// in payload alone, with the same bits flipped and none of them in the header, receivers of their
/// width take both alike.
pub fn flipped(flips: &[u8], frame: &FrameIn, other: &FrameIn, start: u32)
    requires shape { IsFrameShape frame.now.header (length frame.now.payload.now) }
    requires start { start < schedule_limit }
    requires members { HaveRoom frame.now.wide frame.now.cstate.members }
    requires wide { other.now.wide ≡ frame.now.wide }
    requires header { other.now.header ≡ frame.now.header }
    requires cstate { other.now.cstate ≡ frame.now.cstate }
    requires payload { length other.now.payload.now ≡ length frame.now.payload.now }
    requires flips { length flips.now ≡ length (bytes_of frame.now start) }
    requires kept { slice_index flips.now 0 ≡ 0 }

    ensures judged { (header size : ℕ) (c : CState)
        → match_of frame.now.wide (flipped_bytes frame.now start flips.now) header size start c
        ≡ match_of frame.now.wide (flipped_bytes other.now start flips.now) header size start c }
    ensures joined { (list : Medl) → IsValid list → is_wide list ≡ frame.now.wide → list.schedule ≡ start
        → joinable list (flipped_bytes frame.now start flips.now)
        ≡ joinable list (flipped_bytes other.now start flips.now) }
{}
