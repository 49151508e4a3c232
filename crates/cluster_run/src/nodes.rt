//! The nodes of a cluster, with all memory that its slots share.

use controller::Seat;
use host_port::{ControllerEnd, HostEnd};
use medium::Medium;
use ttp_world::Chosen;

/// What a node has of its rings on the controller's side.
#[derive(Drop)]
pub(crate) struct Desk {
    pub(crate) end: ControllerEnd,
    /// The number, in its ring, of the message that was delivered to the host in the newest slot.
    pub(crate) delivered: Option<u64>,
}

/// The nodes of a cluster between two slots. Each list has a place for each node.
#[derive(Drop)]
pub(crate) struct Nodes {
    pub(crate) medium: Medium,
    pub(crate) seats: Vec<Seat>,
    pub(crate) desks: Vec<Desk>,
    pub(crate) host_ends: Vec<HostEnd>,
    /// The message that each node's frame carried in the newest slot in which it carried one.
    pub(crate) chosen: Vec<Chosen>,
}
