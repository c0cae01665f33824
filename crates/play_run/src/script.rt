//! What is run.
use crate::Emission;
use bus_medium::BusSetup;

/// A bus whose nodes are numbered from 0 on, and what they emit.
#[derive(Drop)]
pub struct Script {
    /// The bus.
    pub setup: BusSetup,
    /// How many nodes it has.
    pub nodes: u32,
    /// The last moment at which something happens, in ticks.
    pub stop: u64,
    /// What the nodes emit, by moment.
    pub actions: Vec<Emission>,
}
