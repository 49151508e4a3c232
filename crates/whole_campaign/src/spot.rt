//! Where a fault stands among those of a campaign.
use crate::shown::Doing;

/// The slot in which a fault begins, its node, its first word and its place.
#[derive(Clone, Copy)]
pub(crate) struct Spot {
    pub(crate) slot: u32,
    pub(crate) node: u8,
    pub(crate) doing: Doing,
    pub(crate) place: u8,
}
