//! A network of guests before its first event.
ghost use Rattle.std.specs.Prelude.{◌≡◌, All, IfOk, length};
ghost use Rattle.world_specs.specs.Plan.{IsPlan};
ghost use Rattle.world_core.specs.Seen.{opened};
ghost use Rattle.world_core.specs.Units.{AreApart, states_of};
ghost use Rattle.guest_worlds.specs.Opening.{IsDescribed, IsUnitCode, opening_states};

use fmi_binding::{Guests, WasmEcu};
use fmi_states::Ecu;
use std::alloc::{AllocError, Global};
use std::collections::VecDeque;
use wasm_validate::Checked;
use world_core::{NodePlan, Plan, World};

/// A guest for each node, which has its module; each owns a table of its own.
fn guests_of(
    alloc: Global,
    shared: &mut Guests,
    fuel: u64,
    codes: Vec<Checked>,
    nodes: &[NodePlan],
) -> Result<Vec<WasmEcu>, AllocError>
    requires units { All IsUnitCode codes.items }
    requires each { length codes.items ≡ length nodes.now }
    requires described { All IsDescribed nodes.now }
    ensures states { IfOk result (λ ecus. states_of ⟦<WasmEcu as Ecu>⟧ ecus.items shared.new ≡ opening_states fuel codes.items nodes.now) }
    ensures apart { IfOk result (λ ecus. AreApart ⟦<WasmEcu as Ecu>⟧ ecus.items shared.new) }
{
    let mut left = VecDeque::from(codes);
    let mut ecus = Vec::new(alloc);
    while let Some(code) = left.pop_front() {
        let node = &nodes[ecus.len()];
        ecus.push(WasmEcu::new(alloc, shared, code, &node.description, fuel)?)?;
    }
    Ok(ecus)
}

/// The network of a plan, in which nothing has happened. Each node's unit is a guest with the module in its place, fresh,
/// each of whose functions may use the fuel of the plan.
pub fn open_world(
    alloc: Global,
    plan: Plan,
    codes: Vec<Checked>,
) -> Result<World<WasmEcu>, AllocError>
    requires plan { IsPlan plan }
    requires each { length codes.items ≡ length plan.nodes }
    requires units { All IsUnitCode codes.items }
    ensures { IfOk result (λ world. world ≡ opened plan (opening_states plan.fuel codes.items plan.nodes) world.parts world.shared) }
{
    let mut shared = Guests::new(alloc)?;
    let ecus = guests_of(alloc, &mut shared, plan.fuel, codes, &plan.nodes)?;
    World::new(alloc, plan, ecus, shared)
}
