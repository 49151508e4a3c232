//! The frames of a slot once more, as they are sent.
ghost use Rattle.ttp_world.specs.ZerosWorld.{all_zeros};
ghost use Rattle.causes.specs.LinesOf.{bytes_sent};
ghost use Rattle.causes.specs.RunSlots.{is_sent};
ghost use Rattle.entry_causes.specs.Senders.{sends_in};
ghost use Rattle.run_rows.specs.Rows.{run_slot};
ghost use Rattle.std.specs.Prelude.{IsTrue, if◌then◌else◌, length, ◌<◌, ◌≡◌, ◌≤◌};
ghost use Rattle.ttp_frame.specs.Shape.{HaveRoom, is_without_payload, most_payload};
ghost use Rattle.ttp_world.specs.Conduct.{carries_payload, payload_sent};
ghost use Rattle.ttp_world.specs.Diary.{joined_place};
ghost use Rattle.ttp_world.specs.Frame.{frame, header_of};
ghost use Rattle.ttp_world.specs.Medl.{IsValid, is_wide, kind_at, member_width, plan_at};
ghost use Rattle.ttp_world.specs.World.{chosen_of};

use crate::places::{cstate_in, members_sent};
use controller::{cold_start, outgoing};
use medium::Outgoing;
use run_rows::RunRows;
use ttp_frame::FrameIn;
use ttp_world::{CState, Entry, Medl};

// How many bytes of payload a node's frame of this C-state carries.
fn payload_size(list: &Medl, cstate: &CState, node: u8) -> u8
    requires valid { IsValid list.now }
    requires node { node < length list.now.slots }
    requires round { cstate.now.round < list.now.rounds }
    requires slot { cstate.now.slot < length list.now.slots }
    ensures value { result
        ≡ if carries_payload list.now (joined_place cstate.now) then (plan_at list.now node).payload else 0 }
    ensures fits { result ≤ most_payload }
    ensures bare { IsTrue (is_without_payload (header_of (kind_at list.now cstate.now.round cstate.now.slot))) → result ≡ 0 }
{
    if list.payload_length(cstate.round, cstate.slot) == 0 {
        0
    } else {
        list.slots.get(usize::from(node)).payload
    }
}

// A node's frame of this C-state in its own slot, which carries zeros.
fn own_frame(list: &Medl, cstate: &CState, node: u8) -> Outgoing
    requires valid { IsValid list.now }
    requires node { node < length list.now.slots }
    requires round { cstate.now.round < list.now.rounds }
    requires slot { cstate.now.slot < length list.now.slots }
    requires members { HaveRoom (is_wide list.now) cstate.now.members }
    ensures { result ≡ frame (member_width list.now) (header_of (kind_at list.now cstate.now.round cstate.now.slot))
        cstate.now (payload_sent list.now (joined_place cstate.now) (chosen_of (all_zeros list.now) node)) list.now.schedule }
{
    let zeros = [0; 240];
    let size = payload_size(list, cstate, node);
    let frame = FrameIn {
        wide: list.is_wide(),
        header: list.kind_at(cstate.round, cstate.slot).header(),
        cstate: *cstate,
        payload: &zeros[..size as usize],
    };
    outgoing(&frame, list.schedule)
}

// An entry is of a frame that the node sent in its own slot.
fn is_own(entry: &Entry) -> bool
    ensures { result ≡ is_sent entry.now }
{
    matches!(entry, Entry::Sent { .. })
}

/// The frame that a node sends in a slot, as it sends it; a cold start where it is no frame of its own slot.
pub(crate) fn frame_sent(run: &RunRows, slot: u32, node: u8) -> Outgoing
    requires slot { slot < run.now.slots }
    requires node { node < length run.now.list.slots }
    requires sends { IsTrue (sends_in (run_slot run.now slot) node) }
    ensures { result ≡ bytes_sent (run_slot run.now slot).frames node }
{
    let list = run.list();
    if is_own(&run.row(slot, node).entry) {
        let cstate = cstate_in(run, slot, node, members_sent(run, slot, node));
        own_frame(list, &cstate, node)
    } else {
        cold_start(list, node)
    }
}
