//! The nodes of a bus.
ghost use Rattle.std.specs.Prelude.{◌≡◌, ◌<◌, ◌^◌, IfOk, length};
ghost use Rattle.bus_specs.specs.Bus.{among};
ghost use Rattle.world_specs.specs.Plan.{naming_from};

use std::alloc::{AllocError, Global};
use world_core::NodePlan;

/// The places of the nodes that name a bus.
pub(crate) fn members_of(
    alloc: Global,
    nodes: &[NodePlan],
    bus: u32,
) -> Result<Vec<u32>, AllocError>
    requires { length nodes.now < 2 ^ 32 }
    ensures { IfOk result (λ members. members.items ≡ naming_from 0 nodes.now bus) }
{
    let mut members = Vec::new(alloc);
    let mut place = 0;
    for node in nodes {
        if names(node, bus) {
            members.push(place)?;
        }
        place += 1;
    }
    Ok(members)
}

fn names(node: &NodePlan, bus: u32) -> bool
    ensures { result ≡ among node.now.buses bus }
{
    node.buses.as_slice().iter().any(|named| *named == bus)
}
