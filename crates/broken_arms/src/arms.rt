//! Arm lines that do not give their node its place.
ghost use Rattle.std.specs.Prelude.{◌≡◌, ◌<◌, length, Some, option_map};
ghost use Rattle.ttp_world.specs.Hypothesis.{start_of};
ghost use Rattle.ttp_world.specs.Medl.{IsValid};
ghost use Rattle.ttp_world.specs.Returning.{arms_broken};
ghost use Rattle.ttp_world.specs.Script.{IsValidEvent, IsValidScript};
ghost use Rattle.ttp_world.specs.declared.script.Event.TheVariants as event;
ghost use Rattle.hypothesis.specs.Standing.{told_start};
ghost use Rattle.broken_arms.specs.Arms.{arm_fails, broken_from, broken_arm};

use crate::reasons::{NotOwed, why_not_owed};
use hypothesis::{Start, first_broken_arm};
use ttp_world::{Event, Medl, Script};

/// The first arm line, by its slot and then by its place among the script's events, that does not.
#[derive(Clone, Copy)]
pub struct BrokenArm {
    pub slot: u32,
    pub place: usize,
    pub node: u8,
    pub why: NotOwed,
}

// Why an arm line of a slot does not give its node its place, if it does not.
fn line_fails(
    list: &Medl,
    script: &Script,
    start: Start,
    slot: u32,
    place: usize,
    node: u8,
) -> Option<BrokenArm>
    requires valid { IsValid list.now }
    requires script { IsValidScript list.now script.now }
    requires start { start_of list.now script.now ≡ Some (told_start start) }
    requires slot { slot < script.now.slots }
    requires node { node < length list.now.slots }
    ensures { result ≡ arm_fails list.now script.now (told_start start) slot place (event.Arm node slot) }
{
    match why_not_owed(list, script, start, node, slot) {
        Some(why) => Some(BrokenArm {
            slot,
            place,
            node,
            why,
        }),
        None => None,
    }
}

// The same of an event, if it is an arm line of the slot.
fn arm_fails(
    list: &Medl,
    script: &Script,
    start: Start,
    slot: u32,
    place: usize,
    event: &Event,
) -> Option<BrokenArm>
    requires valid { IsValid list.now }
    requires script { IsValidScript list.now script.now }
    requires start { start_of list.now script.now ≡ Some (told_start start) }
    requires slot { slot < script.now.slots }
    requires event { IsValidEvent list.now script.now event.now }
    ensures { result ≡ arm_fails list.now script.now (told_start start) slot place event.now }
{
    match event {
        Event::Arm { node, slot: at } => {
            if *at == slot {
                line_fails(list, script, start, slot, place, *node)
            } else {
                None
            }
        }
        _ => None,
    }
}

// The first arm line of a slot that does not give its node its place. Of two none does.
fn broken_from(list: &Medl, script: &Script, start: Start, slot: u32) -> Option<BrokenArm>
    requires valid { IsValid list.now }
    requires script { IsValidScript list.now script.now }
    requires start { start_of list.now script.now ≡ Some (told_start start) }
    requires slot { slot < script.now.slots }
    ensures { result ≡ broken_from list.now script.now (told_start start) slot 0 script.now.events }
{
    let events = script.events.as_slice();
    for place in 0..events.len() {
        let fails = arm_fails(list, script, start, slot, place, &events[place]);
        if fails.is_some() {
            return fails;
        }
    }
    None
}

/// The first arm line that does not give its node its place, whichever other rules the script breaks.
///
/// Takes no memory, and costs what [`first_broken_arm`] does, with four walks over the slots more for the line that it
/// finds.
pub fn broken_arm(list: &Medl, script: &Script, start: Start) -> Option<BrokenArm>
    requires valid { IsValid list.now }
    requires script { IsValidScript list.now script.now }
    requires start { start_of list.now script.now ≡ Some (told_start start) }
    ensures exact { result ≡ broken_arm list.now script.now (told_start start) }
    ensures slot { option_map (λ arm. arm.slot) result ≡ arms_broken list.now script.now (told_start start) }
{
    match first_broken_arm(list, script, start) {
        Some(slot) => broken_from(list, script, start, slot),
        None => None,
    }
}
