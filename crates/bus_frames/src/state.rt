//! The C-state with which a node has sent, as its status tells it.
ghost use Rattle.std.specs.Prelude.{◌≡◌};
ghost use Rattle.ttp_world.specs.declared.node.CState.{CState as State};
ghost use Rattle.ttp_world.specs.Fitting.{number_in};
ghost use Rattle.ttp_world.specs.Frame.{cstate_bytes};
ghost use Rattle.ttp_world.specs.Medl.{member_width};
ghost use Rattle.bus_frames.specs.Standing.{HasByteRoom};

use ttp_base::NodeSet;
use ttp_world::{CState, Medl};

/// The C-state of a status word, by its members.
pub(crate) fn state_told(list: &Medl, word: u64, members: NodeSet) -> CState
    ensures { (c : State) → HasByteRoom list.now c → c.members ≡ members
        → word ≡ number_in (cstate_bytes (member_width list.now) c) → result ≡ c }
{
    let place = if list.is_wide() {
        word / 16_777_216
    } else {
        word / 65_536
    };
    CState {
        time: (place / 65_536 % 65_536) as u16,
        round: (place / 256 % 256) as u8,
        slot: (place % 256) as u8,
        members,
    }
}
