//! What the steps of a ring go through.

/// Is passed directly before each step on a word of a ring, with the place of that step: 1 begin,
/// 2 word put, 3 end, 4 first load, 5 word load, 6 last load.
///
/// A gate changes nothing. One that holds some calls back lets a test choose how threads interleave.
pub trait Gate: Sync {
    fn pass(&self, place: u32);
}

/// A gate that holds nothing back.
#[derive(Clone, Copy)]
pub struct OpenGate;

impl OpenGate {
    /// The gate.
    pub fn new() -> OpenGate {
        OpenGate
    }
}

impl Gate for OpenGate {
    fn pass(&self, _place: u32) {}
}
