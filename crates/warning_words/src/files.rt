//! A list and a script that are right.

use crate::stated::SaidLine;
use check_words::Place;
use ttp_world::{Medl, Script};

/// A right list and a right script for it, and where their parts stand.
#[derive(Clone, Copy)]
pub struct Files<'a> {
    pub list: &'a Medl,
    pub script: &'a Script,
    /// Whether a node of the script is armed.
    pub armed: bool,
    /// The names of the files, as they are to stand in a line.
    pub list_name: &'a [u8],
    pub script_name: &'a [u8],
    /// The places of these keys in the list.
    pub window: Place,
    pub slot: Place,
    /// The lines of the script that say what happens in slots, and the others.
    pub events: &'a [SaidLine],
    pub others: &'a [SaidLine],
}
