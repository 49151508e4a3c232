//! The C-state on which a node joins.
#![tactic(auto, using(ttp_world::proofs::Lists::nodes))]

ghost use Rattle.std.specs.Prelude.{◌≡◌, ◌≢◌, ◌+◌, ◌<◌, ◌≤◌, length, nat_lt};
ghost use Rattle.std.specs.List.{list_all};
ghost use Rattle.ttp_world.specs.Fitting.{carried, is_formed, joinable};
ghost use Rattle.ttp_world.specs.Fitting.{is_cold_start, is_joinable_state, is_listed_explicit};
ghost use Rattle.ttp_world.specs.Medl.{member_bytes, schedule_limit, IsValid};

use crate::judging::has_shape;
use crate::pieces::{COLD_START, IMPLICIT, ends_with_word, state_len};
use ttp_base::{NodeSet, members_of};
use ttp_world::{CState, Medl};

// The C-state that an explicit frame carries.
fn carried(wide: bool, bytes: &[u8]) -> CState
    requires { 5 + member_bytes wide ≤ length bytes.now }
    ensures { result ≡ carried (member_bytes wide) bytes.now }
{
    let word = if wide {
        u32::from_be_bytes([0, bytes[5], bytes[6], bytes[7]])
    } else {
        u32::from_be_bytes([0, 0, bytes[5], bytes[6]])
    };
    CState {
        time: u16::from_be_bytes([bytes[1], bytes[2]]),
        round: bytes[3],
        slot: bytes[4],
        members: members_of(word),
    }
}

// Whether each member is below a number.
fn are_below(members: NodeSet, limit: u8) -> bool
    requires { limit ≤ 24 }
    ensures { result ≡ list_all (λ k. nat_lt k limit) members }
{
    let mut rest = members;
    while let Some(k) = rest.first() {
        if k >= limit {
            return false;
        }
        rest = rest.without(k);
    }
    true
}

/// Whether a C-state is one on which a node may join: its round, slot and members exist in the list,
/// and the owner of the slot is a member.
pub fn is_joinable_state(list: &Medl, c: &CState) -> bool
    requires { IsValid list.now }
    ensures { result ≡ is_joinable_state list.now c.now }
{
    c.round < list.rounds
        && c.slot < list.nodes()
        && are_below(c.members, list.nodes())
        && c.members.has(c.slot)
}

// Whether the bytes are a frame of this header and payload length.
fn is_formed(bytes: &[u8], wide: bool, header: u8, payload: u8, start: u32) -> bool
    requires start { start < schedule_limit }
    requires explicit { header ≢ 0 }
    ensures { result ≡ is_formed (member_bytes wide) bytes.now header payload start }
{
    has_shape(bytes, wide, header, payload) && ends_with_word(start, &[], bytes)
}

fn is_cold_start(list: &Medl, bytes: &[u8], c: &CState) -> bool
    requires valid { IsValid list.now }
    requires slot { c.now.slot < length list.now.slots }
    ensures { result ≡ is_cold_start list.now bytes.now c.now }
{
    list.slots.get(c.slot as usize).start
        && is_formed(bytes, list.is_wide(), COLD_START, 0, list.schedule)
}

fn is_listed_explicit(list: &Medl, bytes: &[u8], c: &CState) -> bool
    requires valid { IsValid list.now }
    requires round { c.now.round < list.now.rounds }
    requires slot { c.now.slot < length list.now.slots }
    ensures { result ≡ is_listed_explicit list.now bytes.now c.now }
{
    let header = list.kind_at(c.round, c.slot).header();
    let payload = list.payload_length(c.round, c.slot);
    header != IMPLICIT && is_formed(bytes, list.is_wide(), header, payload, list.schedule)
}

/// The C-state on which a node joins that hears these bytes: that of a cold-start frame of a slot
/// that may start, or of an explicit frame where the list gives its kind for its round and slot.
///
/// It is none where the word or the length is wrong, where round, slot or a member are not in the
/// list, or where the owner of the slot is no member.
pub fn read_explicit(bytes: &[u8], list: &Medl) -> Option<CState>
    requires { IsValid list.now }
    ensures { result ≡ joinable list.now bytes.now }
{
    let wide = list.is_wide();
    if bytes.len() < 1 + state_len(wide) {
        return None;
    }
    let cstate = carried(wide, bytes);
    if is_joinable_state(list, &cstate)
        && (is_cold_start(list, bytes, &cstate) || is_listed_explicit(list, bytes, &cstate))
    {
        Some(cstate)
    } else {
        None
    }
}
