//! How a network opens.
ghost use Rattle.std.specs.Prelude.{◌≡◌, All, IfOk, map};
ghost use Rattle.bus_medium.specs.Setups.{IsWellFormed};
ghost use Rattle.world_specs.specs.Plan.{IsPlan};
ghost use Rattle.world_core.specs.Courses.{opening_course};
ghost use Rattle.world_core.specs.Setups.{bus_of};

use crate::course::Course;
use crate::plan::Plan;
use crate::standing::Standing;
use bus_medium::{BusSetup, Medium};
use clock_queue::Queue;
use std::alloc::{AllocError, Global};

/// How many clock entries a node has.
const CLOCKS: u32 = 8;

/// The buses of these setups, on which nothing has happened.
fn buses_of(alloc: Global, setups: Vec<BusSetup>) -> Result<Vec<Medium>, AllocError>
    requires { All IsWellFormed setups.items }
    ensures { IfOk result (λ buses. buses.items ≡ map bus_of setups.items) }
{
    let mut buses = Vec::new(alloc);
    for setup in setups {
        buses.push(Medium::new(alloc, setup)?)?;
    }
    Ok(buses)
}

impl Course {
    /// The network of a plan, in which nothing has happened.
    pub(crate) fn opening(alloc: Global, plan: Plan) -> Result<Course, AllocError>
        requires plan { IsPlan plan }
        ensures { IfOk result (λ course. course ≡ opening_course plan) }
    {
        let entries = plan.nodes.len() as u32 * CLOCKS;
        Ok(Course {
            resolution: plan.resolution,
            stop: plan.stop,
            budget: plan.events,
            fuel: plan.fuel,
            standings: Vec::from_elem(alloc, Standing::New, plan.nodes.len())?,
            nodes: plan.nodes,
            buses: buses_of(alloc, plan.buses)?,
            clocks: Queue::new(alloc, entries)?,
            events: 0,
            now: 0,
        })
    }
}
