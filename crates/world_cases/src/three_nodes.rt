//! A network of three nodes on two buses.
ghost use Rattle.std.specs.Prelude.{◌≡◌, ◌≤◌, [], false, IfOk};
ghost use Rattle.fmi_states.specs.declared.phase.Phase.TheVariants.{Fresh};
ghost use Rattle.world_core.specs.Setups.{bus_plan_of};
ghost use Rattle.world_cases.specs.ThreeNodes as model;

use bus_medium::BusSetup;
use can_frame::{Name, Numbers};
use error_script::ErrorList;
use fmi_states::ListEcu;
use fmu_description::{Description, Terminal};
use std::alloc::{AllocError, Global};
use tick_time::BitTime;
use world_core::{NodePlan, Plan, World};

/// The empty name.
pub(crate) fn no_name(alloc: Global) -> Result<Name, AllocError>
    ensures { IfOk result (λ name. name ≡ []) }
{
    match Name::of(Vec::new(alloc)) {
        Some(name) => Ok(name),
        None => Err(AllocError),
    }
}

// A terminal whose value references begin with this one.
fn terminal(alloc: Global, first: u8) -> Result<Terminal, AllocError>
    ensures { IfOk result (λ terminal. terminal ≡ model.terminal first) }
{
    let first = u32::from(first);
    Ok(Terminal {
        name: no_name(alloc)?,
        rx_clock: first,
        rx_data: first + 1,
        tx_clock: first + 2,
        tx_data: first + 3,
        rx_max: 256,
        tx_max: 256,
    })
}

fn node(
    alloc: Global,
    clocks: Vec<u32>,
    terminals: Vec<Terminal>,
    buses: Vec<u32>,
) -> Result<NodePlan, AllocError>
    ensures { IfOk result (λ node. node ≡ model.node clocks.items terminals.items buses.items) }
{
    let description = Description {
        identifier: no_name(alloc)?,
        countdown: Numbers::of(clocks),
        terminals,
    };
    Ok(NodePlan {
        description,
        buses: Numbers::of(buses),
    })
}

// The node on bus 0.
fn first_node(alloc: Global) -> Result<NodePlan, AllocError>
    ensures { IfOk result (λ node. node ≡ model.first_node) }
{
    let terminals = vec![in alloc; terminal(alloc, 0)?]?;
    node(alloc, vec![in alloc; 100]?, terminals, vec![in alloc; 0]?)
}

// The node on both buses.
fn second_node(alloc: Global) -> Result<NodePlan, AllocError>
    ensures { IfOk result (λ node. node ≡ model.second_node) }
{
    let terminals = vec![in alloc; terminal(alloc, 0)?, terminal(alloc, 10)?]?;
    node(alloc, Vec::new(alloc), terminals, vec![in alloc; 0, 1]?)
}

// The node on bus 1.
fn third_node(alloc: Global) -> Result<NodePlan, AllocError>
    ensures { IfOk result (λ node. node ≡ model.third_node) }
{
    let terminals = vec![in alloc; terminal(alloc, 0)?]?;
    node(alloc, Vec::new(alloc), terminals, vec![in alloc; 1]?)
}

// A bus at 500 kbit/s and 2 Mbit/s, where a tick is a nanosecond.
fn fast_bus(alloc: Global) -> Result<BusSetup, AllocError>
    ensures { IfOk result (λ bus. bus_plan_of bus ≡ model.fast_bus) }
{
    Ok(BusSetup {
        number: 0,
        rate: 500_000,
        fd_rate: Some(2_000_000),
        nominal: BitTime::of_rate(500_000, 1_000_000_000).unwrap(),
        fast: Some(BitTime::of_rate(2_000_000, 1_000_000_000).unwrap()),
        members: Numbers::of(vec![in alloc; 0, 1]?),
        errors: ErrorList::of(Vec::new(alloc)),
    })
}

// A bus at 250 kbit/s.
fn slow_bus(alloc: Global) -> Result<BusSetup, AllocError>
    ensures { IfOk result (λ bus. bus_plan_of bus ≡ model.slow_bus) }
{
    Ok(BusSetup {
        number: 1,
        rate: 250_000,
        fd_rate: None,
        nominal: BitTime::of_rate(250_000, 1_000_000_000).unwrap(),
        fast: None,
        members: Numbers::of(vec![in alloc; 1, 2]?),
        errors: ErrorList::of(Vec::new(alloc)),
    })
}

// The network up to a stop, in ticks, with so many events at most.
fn three_nodes(alloc: Global, stop: u64, events: u64) -> Result<Plan, AllocError>
    ensures { IfOk result (λ plan. plan ≡ model.three_nodes stop events) }
{
    let buses = vec![in alloc; fast_bus(alloc)?, slow_bus(alloc)?]?;
    let nodes = vec![in alloc; first_node(alloc)?, second_node(alloc)?, third_node(alloc)?]?;
    Ok(Plan {
        resolution: 1_000_000_000,
        stop,
        events,
        fuel: 1,
        buses,
        nodes,
    })
}

/// The units of the nodes.
#[derive(Drop)]
pub(crate) struct Units {
    pub(crate) first: ListEcu,
    pub(crate) second: ListEcu,
    pub(crate) third: ListEcu,
}

/// The network up to a stop, in ticks, with so many events at most, over units that were never called.
#[tactic(auto, using(crate::proofs::ThreeNodes::three_nodes_is))]
pub(crate) fn opened(
    alloc: Global,
    stop: u32,
    events: u8,
    units: Units,
) -> Result<World<ListEcu>, AllocError>
    requires some { 1 ≤ events }
    requires first { units.first.phase ≡ Fresh }
    requires second { units.second.phase ≡ Fresh }
    requires third { units.third.phase ≡ Fresh }
    ensures goes_on { IfOk result (λ world. world.failed ≡ false) }
    ensures budget { IfOk result (λ world. world.plan.events ≡ events) }
{
    let plan = three_nodes(alloc, u64::from(stop), u64::from(events))?;
    let ecus = vec![in alloc; units.first, units.second, units.third]?;
    World::new(alloc, plan, ecus, ())
}
