//! The variables of a waveform.

/// A variable of the cluster.
#[derive(Clone, Copy)]
pub enum ClusterVariable {
    /// Whether all nodes whose members count hold the same.
    Agree,
    Sender,
    Active,
    Leaving,
    /// How far clocks are apart.
    Spread,
}

/// A variable of a node.
#[derive(Clone, Copy)]
pub enum NodeVariable {
    Sends,
    Phase,
    Word,
    Peer,
    Message,
    Members,
    Accepted,
    Rejected,
    Ack,
    Clock,
}

/// A variable of a host: the number of the message that a port gave or took in a slot, or its bytes.
#[derive(Clone, Copy)]
pub enum PortVariable {
    Number,
    Data,
}

pub(crate) const CLUSTER_VARIABLES: [ClusterVariable; 5] = [
    ClusterVariable::Agree,
    ClusterVariable::Sender,
    ClusterVariable::Active,
    ClusterVariable::Leaving,
    ClusterVariable::Spread,
];

pub(crate) const NODE_VARIABLES: [NodeVariable; 10] = [
    NodeVariable::Sends,
    NodeVariable::Phase,
    NodeVariable::Word,
    NodeVariable::Peer,
    NodeVariable::Message,
    NodeVariable::Members,
    NodeVariable::Accepted,
    NodeVariable::Rejected,
    NodeVariable::Ack,
    NodeVariable::Clock,
];
