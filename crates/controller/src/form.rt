//! The form of the frame that the list gives for a slot.
ghost use Rattle.node_parts.specs.ClockStandsFor.{ClockStandsFor};
ghost use Rattle.ttp_world.specs.Medl.{IsValid};
ghost use Rattle.controller.specs.Hearing.{IsFormOf};

use node_parts::slot_clock::SlotClock;
use ttp_frame::Expect;
use ttp_world::Medl;

/// The form of the frame that the list gives for the slot of a place.
pub(crate) fn form_of(list: &Medl, place: &SlotClock) -> Expect
    requires valid { IsValid list.now }
    requires place { ClockStandsFor place.now list.now place.now.place }
    ensures { IsFormOf list.now place.now.place result }
{
    let round = place.round();
    let slot = place.sender();
    Expect {
        wide: list.is_wide(),
        header: list.kind_at(round, slot).header(),
        payload: list.payload_length(round, slot),
    }
}
