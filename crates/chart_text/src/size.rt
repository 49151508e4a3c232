//! How many nodes and slots the runs of a campaign have.

/// The nodes of a cluster and the slots of a run.
#[derive(Clone, Copy)]
pub struct Size {
    pub nodes: u8,
    pub slots: u32,
}
