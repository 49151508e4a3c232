//! The pieces of a frame: the C-state that it carries or not, and the check word.
ghost use Rattle.std.specs.Prelude.{◌≡◌, ◌++◌, ◌-◌, ◌<◌, ◌≤◌, [], length, take, if◌then◌else◌};
ghost use Rattle.ttp_world.specs.Frame.{big_endian, cstate_bytes, cstate_length, is_explicit, word_bytes};
ghost use Rattle.ttp_world.specs.Medl.{member_bytes, schedule_limit};
ghost use Rattle.ttp_frame.specs.Shape.{has_word};

use crate::check_word::Check;
use ttp_world::CState;

/// The header of a frame that carries a payload and not its C-state.
pub(crate) const IMPLICIT: u8 = 0;
/// That of a cold-start frame, which carries its C-state alone.
pub(crate) const COLD_START: u8 = 3;

/// How many bytes a C-state has in a frame.
pub(crate) fn state_len(wide: bool) -> usize
    ensures { result ≡ cstate_length (member_bytes wide) }
{
    if wide { 7 } else { 6 }
}

// The bytes of a C-state with these fields, at the front of seven.
fn bytes_of_fields(wide: bool, time: u16, round: u8, slot: u8, members: u32) -> [u8; 7]
    ensures { take (cstate_length (member_bytes wide)) result
        ≡ big_endian 2 time ++ big_endian 1 round ++ big_endian 1 slot ++ big_endian (member_bytes wide) members }
{
    let [high, low] = time.to_be_bytes();
    let [_, first, second, third] = members.to_be_bytes();
    if wide {
        [high, low, round, slot, first, second, third]
    } else {
        [high, low, round, slot, second, third, 0]
    }
}

/// The bytes of a C-state, at the front of seven.
pub(crate) fn state_bytes(wide: bool, cstate: &CState) -> [u8; 7]
    ensures { take (cstate_length (member_bytes wide)) result ≡ cstate_bytes (member_bytes wide) cstate.now }
{
    let members = cstate.members.bits();
    bytes_of_fields(wide, cstate.time, cstate.round, cstate.slot, members)
}

/// What of a C-state a frame of this header carries.
pub(crate) fn sent_of(header: u8, state: &[u8]) -> &[u8]
    ensures { result.now ≡ (if is_explicit header then state.now else []) }
{
    if header == IMPLICIT { &[] } else { state }
}

/// What of a C-state only the word of a frame of this header goes over.
pub(crate) fn unsent_of(header: u8, state: &[u8]) -> &[u8]
    ensures { result.now ≡ (if is_explicit header then [] else state.now) }
{
    if header == IMPLICIT { state } else { &[] }
}

// A word in three bytes, the most significant first.
fn bytes_of_word(word: u32) -> [u8; 3]
    ensures { result ≡ big_endian 3 word }
{
    let [_, high, middle, low] = word.to_be_bytes();
    [high, middle, low]
}

/// The word of some bytes that are not sent and those of a body.
pub(crate) fn word_of(start: u32, unsent: &[u8], body: &[u8]) -> [u8; 3]
    requires { start < schedule_limit }
    ensures { result ≡ word_bytes start (unsent.now ++ body.now) }
{
    let mut check = Check::new(start);
    check.feed(unsent);
    check.feed(body);
    bytes_of_word(check.word())
}

/// Whether bytes end with the word of some bytes that are not sent and those before.
pub(crate) fn ends_with_word(start: u32, unsent: &[u8], bytes: &[u8]) -> bool
    requires start { start < schedule_limit }
    requires length { 3 ≤ length bytes.now }
    ensures { result ≡ has_word start unsent.now bytes.now }
{
    let (body, word) = bytes.split_at(bytes.len() - 3);
    word == word_of(start, unsent, body).as_slice()
}
