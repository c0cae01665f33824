//! The units of nodes.
use wasm_validate::Checked;
use world_core::NodePlan;

/// A node that was read.
#[derive(Drop)]
pub(crate) struct NodeUnit {
    /// What is known of its unit, and the bus of each terminal.
    pub(crate) plan: NodePlan,
    /// Its module.
    pub(crate) code: Checked,
}

/// The nodes that were read, in their order.
#[derive(Drop)]
pub(crate) struct Units {
    pub(crate) plans: Vec<NodePlan>,
    pub(crate) codes: Vec<Checked>,
}
