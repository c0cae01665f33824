//! What happens in a network, and when.

/// What happens. At one moment it comes in this order, then by the numbers of buses, then of nodes.
#[derive(Clone, Copy, Debug, PartialEq, Eq)]
pub enum What {
    /// The running frame of the bus with this number comes to its end.
    Finish(u32),
    /// A node that is off returns on a bus.
    Return {
        /// The number of the bus.
        bus: u32,
        /// The number of the node.
        node: u32,
    },
    /// Nodes have their sessions.
    Sessions,
    /// A frame starts on the bus with this number.
    Start(u32),
}

/// What happens, and its moment.
#[derive(Clone, Copy, Debug, PartialEq, Eq)]
pub struct Event {
    /// When, in ticks.
    pub moment: u64,
    /// What happens then.
    pub what: What,
}
