//! The buses of a plan.
ghost use Rattle.std.specs.Prelude.{◌≡◌, ◌<◌, ◌≤◌, ◌^◌, IfOk, length, map, option_map};
ghost use Rattle.world_specs.specs.Plan.{naming_from};
ghost use Rattle.world_core.specs.Setups.{bus_plan_of};
ghost use Rattle.network_specs.specs.Buses.{Rate as rate};
ghost use Rattle.network_specs.specs.Plans as spec;

use crate::members::members_of;
use bus_medium::BusSetup;
use can_frame::Numbers;
use error_script::{ErrorEntry, ErrorList};
use network_file::{Bus, Rate, ScriptEntry};
use std::alloc::{AllocError, Global};
use tick_time::BitTime;
use world_core::NodePlan;

/// The buses, each with its place as its number.
pub(crate) fn setups_of(
    alloc: Global,
    script: &[ScriptEntry],
    nodes: &[NodePlan],
    buses: &[Bus],
) -> Result<Vec<BusSetup>, AllocError>
    requires nodes { length nodes.now < 2 ^ 32 }
    requires buses { length buses.now < 2 ^ 32 }
    ensures { IfOk result (λ setups. map bus_plan_of setups.items ≡ spec.bus_plans_from 0 script.now nodes.now buses.now) }
{
    let mut setups = Vec::new(alloc);
    let mut place = 0;
    for bus in buses {
        let setup = setup_of(alloc, script, nodes, place, bus)?;
        setups.push(setup)?;
        place += 1;
    }
    Ok(setups)
}

/// The bus at a place.
fn setup_of(
    alloc: Global,
    script: &[ScriptEntry],
    nodes: &[NodePlan],
    place: u32,
    bus: &Bus,
) -> Result<BusSetup, AllocError>
    requires { length nodes.now < 2 ^ 32 }
    ensures { IfOk result (λ setup. bus_plan_of setup ≡ record { setup = spec.setup_of script.now place bus.now; members = naming_from 0 nodes.now place }) }
{
    let members = members_of(alloc, nodes, place)?;
    let errors = entries_on(alloc, place, script)?;
    Ok(BusSetup {
        number: place,
        rate: bus.rate.bits,
        fd_rate: bits_of(&bus.fd_rate),
        nominal: bus.rate.ticks,
        fast: ticks_of(&bus.fd_rate),
        members: Numbers::of(members),
        errors: ErrorList::of(errors),
    })
}

fn bits_of(optional: &Option<Rate>) -> Option<u32>
    ensures { result ≡ option_map (λ (r : rate). r.bits) optional.now }
{
    match optional {
        Some(rate) => Some(rate.bits),
        None => None,
    }
}

fn ticks_of(optional: &Option<Rate>) -> Option<BitTime>
    ensures { result ≡ option_map (λ (r : rate). r.ticks) optional.now }
{
    match optional {
        Some(rate) => Some(rate.ticks),
        None => None,
    }
}

/// The entries of the script of a bus, in their order.
fn entries_on(
    alloc: Global,
    bus: u32,
    script: &[ScriptEntry],
) -> Result<Vec<ErrorEntry>, AllocError>
    ensures { IfOk result (λ entries. entries.items ≡ spec.entries_on bus script.now) }
{
    script
        .iter()
        .filter(|e| e.bus == bus)
        .map(|e| e.entry)
        .collect::<Vec<ErrorEntry>>(alloc)
}
