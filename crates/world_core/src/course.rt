//! A network without its units: its plan, and how far it is.
use crate::plan::NodePlan;
use crate::standing::Standing;
use bus_medium::Medium;
use clock_queue::{Moment, Queue};
use std::marker::Model;

/// A network without its units. Each node has eight clock entries, of which those of its countdown clocks come first.
#[derive(Drop)]
pub(crate) struct Course {
    pub(crate) resolution: u64,
    pub(crate) stop: u64,
    /// How many events happen at most.
    pub(crate) budget: u64,
    pub(crate) fuel: u64,
    pub(crate) nodes: Vec<NodePlan>,
    pub(crate) buses: Vec<Medium>,
    pub(crate) standings: Vec<Standing>,
    pub(crate) clocks: Queue<Moment>,
    /// How many events have happened.
    pub(crate) events: u64,
    /// The moment of the last event, in ticks.
    pub(crate) now: u64,
}

impl Model for Course {
    ghost use Rattle.std.specs.Prelude.{map};
    ghost use Rattle.world_core.specs.Courses.{Course as course, plan_of_bus};

    ghost Value = { course };

    ghost view = { λ c. record {
      plan = record {
        resolution = c.resolution;
        stop = c.stop;
        events = c.budget;
        fuel = c.fuel;
        buses = map plan_of_bus c.buses.items;
        nodes = c.nodes.items;
      };
      buses = c.buses.items;
      standings = c.standings.items;
      clocks = c.clocks;
      events = c.events;
      now = c.now;
    } };
}
