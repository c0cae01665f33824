//! What a network is made from.
use bus_medium::BusSetup;
use can_frame::Numbers;
use fmu_description::Description;
use std::marker::Model;

/// A node: what is known of its unit, and the bus of each of its terminals.
#[derive(Drop)]
pub struct NodePlan {
    /// What is known of its unit.
    pub description: Description,
    /// The number of a bus for each terminal, in the order of the description.
    pub buses: Numbers,
}

impl Model for NodePlan {
    ghost use Rattle.world_specs.specs.Plan.{NodePlan as node_plan};

    ghost Value = { node_plan };

    ghost view = { λ n. record { description = n.description; buses = n.buses } };
}

/// A network: its buses and its nodes, each numbered by its place.
#[derive(Drop)]
pub struct Plan {
    /// How many ticks a second has.
    pub resolution: u64,
    /// The last moment at which something happens, in ticks.
    pub stop: u64,
    /// How many events happen at most.
    pub events: u64,
    /// How many instructions a call of a unit takes at most.
    pub fuel: u64,
    /// The buses.
    pub buses: Vec<BusSetup>,
    /// The nodes.
    pub nodes: Vec<NodePlan>,
}

impl Model for Plan {
    ghost use Rattle.std.specs.Prelude.{map};
    ghost use Rattle.world_specs.specs.Plan.{Plan as network_plan};
    ghost use Rattle.world_core.specs.Setups.{bus_plan_of};

    ghost Value = { network_plan };

    ghost view = { λ p. record {
      resolution = p.resolution;
      stop = p.stop;
      events = p.events;
      fuel = p.fuel;
      buses = map bus_plan_of p.buses.items;
      nodes = p.nodes.items;
    } };
}
