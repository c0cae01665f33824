//! A network that was read.
use wasm_validate::Checked;
use world_core::Plan;

/// A network: its plan, and the code of each node.
#[derive(Drop)]
pub struct Network {
    /// The plan.
    pub plan: Plan,
    /// The module of each node's unit, in the order of the nodes.
    pub codes: Vec<Checked>,
    /// SHA-256 over the network file and each node's description and module, each behind its length.
    pub digest: [u8; 32],
}
