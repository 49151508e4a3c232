//! The slot that a cluster is in.
ghost use Rattle.std.specs.Prelude.{◌<◌};
ghost use Rattle.ttp_world.specs.Medl.{IsValid};
ghost use Rattle.ttp_world.specs.Script.{IsValidScript};
ghost use Rattle.cluster_run.specs.Props.{valid_is_prop, valid_script_is_prop};

use std::alloc::Global;
use ttp_world::{Medl, Script};

/// The slot of this number in a run of a list and a script, and where it takes memory from.
#[derive(Clone, Copy)]
pub(crate) struct CurrentSlot<'a> {
    pub(crate) alloc: Global,
    pub(crate) list: &'a Medl,
    pub(crate) script: &'a Script,
    pub(crate) slot: u32,
    pub(crate) ghost valid: { IsValid list.now } by { valid_is_prop list.now },
    pub(crate) ghost valid_script: { IsValidScript list.now script.now } by { valid_script_is_prop list.now script.now },
    pub(crate) ghost within: { slot < script.now.slots },
}
