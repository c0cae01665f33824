//! A whole plan.
ghost use Rattle.std.specs.Prelude.{◌≡◌, ◌<◌, ◌^◌, IfOk, length};
ghost use Rattle.network_specs.specs.Plans as spec;

use crate::buses::setups_of;
use network_file::NetworkFile;
use std::alloc::{AllocError, Global};
use world_core::{NodePlan, Plan};

/// The plan of a network file with these nodes.
pub fn plan_of(alloc: Global, file: &NetworkFile, nodes: Vec<NodePlan>) -> Result<Plan, AllocError>
    requires nodes { length nodes.items < 2 ^ 32 }
    requires buses { length file.now.buses < 2 ^ 32 }
    ensures { IfOk result (λ plan. plan ≡ spec.plan_of file.now nodes.items) }
{
    let buses = setups_of(alloc, &file.script, &nodes, &file.buses)?;
    Ok(Plan {
        resolution: file.settings.resolution,
        stop: file.settings.stop,
        events: file.settings.events,
        fuel: file.settings.fuel,
        buses,
        nodes,
    })
}
