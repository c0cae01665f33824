//! The nodes of a folder.
ghost use Rattle.std.specs.Prelude.{◌≤◌, length};
ghost use Rattle.network_folder.specs.Parts.{ReadsNode, ReadsNodes};

use crate::error::NetError;
use crate::files::{read_code, read_unit};
use crate::judging::refused;
use crate::units::{NodeUnit, Units};
use bench_outside::{FileId, Shelf, Why};
use network_file::Node;
use network_plan::attached_buses;
use sha2::Sha256;
use std::alloc::Global;
use world_core::NodePlan;

/// The node at a place: its description, then its terminals, then its module.
fn read_node<H: Shelf>(
    alloc: Global,
    shelf: &mut H,
    net: &str,
    place: u32,
    node: &Node,
    digest: &mut Sha256,
) -> Result<NodeUnit, NetError>
    ensures { ReadsNode H.Shelf shelf.old shelf.new digest.old digest.new net.now place node.now result }
{
    let description = match read_unit(alloc, shelf, net, place, node, digest) {
        Ok(description) => description,
        Err(error) => return Err(error),
    };
    let Some(buses) = attached_buses(alloc, &node.attachments, &description.terminals)? else {
        return Err(refused(FileId::Main, Why::NodeBus, place as u64));
    };
    let code = match read_code(alloc, shelf, net, place, node, &description, digest) {
        Ok(code) => code,
        Err(error) => return Err(error),
    };
    Ok(NodeUnit {
        plan: NodePlan { description, buses },
        code,
    })
}

/// The nodes, each read and checked whole before the next.
pub(crate) fn read_nodes<H: Shelf>(
    alloc: Global,
    shelf: &mut H,
    net: &str,
    nodes: &[Node],
    digest: &mut Sha256,
) -> Result<Units, NetError>
    requires { length nodes.now ≤ 32 }
    ensures { ReadsNodes H.Shelf shelf.old shelf.new digest.old digest.new net.now nodes.now result }
{
    let mut plans = Vec::new(alloc);
    let mut codes = Vec::new(alloc);
    for node in nodes {
        let unit = match read_node(alloc, shelf, net, plans.len() as u32, node, digest) {
            Ok(unit) => unit,
            Err(error) => return Err(error),
        };
        plans.push(unit.plan)?;
        codes.push(unit.code)?;
    }
    Ok(Units { plans, codes })
}
