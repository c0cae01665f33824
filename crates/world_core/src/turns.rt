//! The nodes' turns behind the sessions of one moment.
ghost use Rattle.std.specs.Prelude.{◌≡◌, ◌≤◌, ◌<◌, ◌^◌, ◌++◌, All, IfOk, OnOk, length, map, slice_get};
ghost use Rattle.bus_specs.specs.Bus.{is};
ghost use Rattle.bus_specs.specs.Inbox.{enter, leave, take_inbox};
ghost use Rattle.log_lines.specs.Lines.{line_of};
ghost use Rattle.bus_ops.specs.Views.{items_of};
ghost use Rattle.world_specs.specs.Plan.{IsPlan};
ghost use Rattle.world_specs.specs.Sessions.{emission_step, end_step, on_each_bus, turn_step, turns_step};
ghost use Rattle.world_core.specs.Asks.{MaySubmit, submitted};
ghost use Rattle.world_core.specs.Bare.{AreTurns, EmitsBytes, IsExpected, IsReadyFor, emitted_step};
ghost use Rattle.world_core.specs.SeenTurns.{entered, seen, seen_turn};
ghost use Rattle.world_core.specs.OnBuses.{AreNumbered};

use crate::course::Course;
use crate::plan::NodePlan;
use bus_medium::Medium;
use bus_ops::{Item, read_ops};
use ecu_session::{End, SessionOut};
use log_lines::{Line, LineList};
use std::alloc::{AllocError, Global};

/// A node that had a session, and what came of it.
#[derive(Drop)]
pub(crate) struct Turn {
    /// The number of the node.
    pub(crate) node: u32,
    /// Whether its unit was new.
    pub(crate) is_new: bool,
    pub(crate) out: SessionOut,
}

/// Puts lines behind others.
fn push_lines(lines: &mut Vec<Line>, more: Vec<Line>) -> Result<(), AllocError>
    ensures { OnOk result (lines.new.items ≡ lines.old.items ++ more.items) }
{
    for line in more {
        lines.push(line)?;
    }
    Ok(())
}

/// A node takes its mail and the notices that are due, on every bus.
fn take_inboxes(
    alloc: Global,
    buses: &mut Vec<Medium>,
    now: u64,
    node: u32,
    lines: &mut Vec<Line>,
) -> Result<(), AllocError>
    ensures buses { OnOk result (buses.new.items ≡ (on_each_bus (λ b. take_inbox b now node) (buses.old.items, map line_of lines.old.items)).0) }
    ensures lines { OnOk result (map line_of lines.new.items ≡ (on_each_bus (λ b. take_inbox b now node) (buses.old.items, map line_of lines.old.items)).1) }
{
    for medium in buses.iter_mut() {
        let (told, _) = medium.take_inbox(alloc, now, node)?;
        push_lines(lines, told.into_vec())?;
    }
    Ok(())
}

/// Items of a node are submitted on a bus, in order.
fn submit_items(
    alloc: Global,
    medium: &mut Medium,
    now: u64,
    node: u32,
    items: Vec<Item>,
    lines: &mut Vec<Line>,
) -> Result<(), AllocError>
    requires ready { MaySubmit node (items_of items.items) medium.old }
    requires moment { now ≤ 2 ^ 62 }
    ensures bus { OnOk result (medium.new ≡ (submitted now node (medium.old, map line_of lines.old.items) (items_of items.items)).0) }
    ensures lines { OnOk result (map line_of lines.new.items ≡ (submitted now node (medium.old, map line_of lines.old.items) (items_of items.items)).1) }
{
    for item in items {
        let line = medium.submit(alloc, now, node, item)?;
        lines.push(line)?;
    }
    Ok(())
}

/// Whether a terminal is on a bus.
fn names_bus(names: &[u32], terminal: usize, bus: u32) -> bool
    ensures { result ≡ is bus (slice_get names.now terminal) }
{
    match names.get(terminal) {
        Some(named) => *named == bus,
        None => false,
    }
}

/// What a node emitted on a bus is submitted there.
fn submit_on(
    alloc: Global,
    medium: &mut Medium,
    bus: u32,
    names: &[u32],
    now: u64,
    turn: &Turn,
    lines: &mut Vec<Line>,
) -> Result<(), AllocError>
    requires number { medium.old.setup.number ≡ bus }
    requires ready { IsReadyFor (seen_turn names.now turn.now) medium.old }
    requires bytes { EmitsBytes (seen_turn names.now turn.now) }
    requires moment { now ≤ 2 ^ 62 }
    ensures bus { OnOk result (medium.new ≡ (emitted_step now (seen_turn names.now turn.now) (medium.old, map line_of lines.old.items)).0) }
    ensures lines { OnOk result (map line_of lines.new.items ≡ (emitted_step now (seen_turn names.now turn.now) (medium.old, map line_of lines.old.items)).1) }
{
    let out = &turn.out;
    for emission in out.emitted.as_slice() {
        if names_bus(names, emission.terminal, bus) {
            let items = read_ops(alloc, emission.bytes.as_slice())?;
            submit_items(alloc, medium, now, turn.node, items.into_vec(), lines)?;
        }
    }
    Ok(())
}

/// What a node emitted is submitted, bus by bus.
fn submit_all(
    alloc: Global,
    buses: &mut Vec<Medium>,
    names: &[u32],
    now: u64,
    turn: &Turn,
    lines: &mut Vec<Line>,
) -> Result<(), AllocError>
    requires numbered { AreNumbered buses.old.items }
    requires few { length buses.old.items ≤ 4 }
    requires ready { All (IsReadyFor (seen_turn names.now turn.now)) buses.old.items }
    requires bytes { EmitsBytes (seen_turn names.now turn.now) }
    requires moment { now ≤ 2 ^ 62 }
    ensures buses { OnOk result (buses.new.items ≡ (on_each_bus (emission_step now (seen_turn names.now turn.now)) (buses.old.items, map line_of lines.old.items)).0) }
    ensures lines { OnOk result (map line_of lines.new.items ≡ (on_each_bus (emission_step now (seen_turn names.now turn.now)) (buses.old.items, map line_of lines.old.items)).1) }
{
    for (bus, medium) in buses.iter_mut().enumerate() {
        submit_on(alloc, medium, bus as u32, names, now, turn, lines)?;
    }
    Ok(())
}

/// A node becomes live on every bus.
fn enter_all(buses: &mut Vec<Medium>, node: u32)
    ensures { buses.new.items ≡ map (λ b. enter b node) buses.old.items }
{
    for medium in buses.iter_mut() {
        medium.enter(node);
    }
}

/// A node leaves every bus.
pub(crate) fn leave_all(buses: &mut Vec<Medium>, node: u32)
    ensures { buses.new.items ≡ map (λ b. leave b node) buses.old.items }
{
    for medium in buses.iter_mut() {
        medium.leave(node);
    }
}

/// The new nodes become live on every bus.
fn enter_new(buses: &mut Vec<Medium>, turns: &[Turn])
    ensures { buses.new.items ≡ entered buses.old.items turns.now }
{
    for turn in turns {
        if turn.is_new {
            enter_all(buses, turn.node);
        }
    }
}

/// The end of a session takes effect.
fn end_turn(
    buses: &mut Vec<Medium>,
    now: u64,
    turn: &Turn,
    lines: &mut Vec<Line>,
) -> Result<(), AllocError>
    ensures buses { OnOk result (buses.new.items ≡ (end_step now turn.now.node turn.now.out.end (buses.old.items, map line_of lines.old.items)).0) }
    ensures lines { OnOk result (map line_of lines.new.items ≡ (end_step now turn.now.node turn.now.out.end (buses.old.items, map line_of lines.old.items)).1) }
{
    let (moment, node) = (now, turn.node);
    let out = &turn.out;
    match out.end {
        End::Live => Ok(()),
        End::Over => {
            leave_all(buses, node);
            lines.push(Line::Over { moment, node })?;
            Ok(())
        }
        End::Down(cause) => {
            leave_all(buses, node);
            lines.push(Line::Down {
                moment,
                node,
                cause,
            })?;
            Ok(())
        }
    }
}

/// A node that had a session takes its notices and its mail, what it emitted is submitted, and its end takes
/// effect.
fn take_turn(
    alloc: Global,
    buses: &mut Vec<Medium>,
    names: &[u32],
    now: u64,
    turn: &Turn,
    lines: &mut Vec<Line>,
) -> Result<(), AllocError>
    requires numbered { AreNumbered buses.old.items }
    requires few { length buses.old.items ≤ 4 }
    requires ready { All (IsReadyFor (seen_turn names.now turn.now)) buses.old.items }
    requires bytes { EmitsBytes (seen_turn names.now turn.now) }
    requires moment { now ≤ 2 ^ 62 }
    ensures buses { OnOk result (buses.new.items ≡ (turn_step now (buses.old.items, map line_of lines.old.items) (seen_turn names.now turn.now)).0) }
    ensures lines { OnOk result (map line_of lines.new.items ≡ (turn_step now (buses.old.items, map line_of lines.old.items) (seen_turn names.now turn.now)).1) }
{
    take_inboxes(alloc, buses, now, turn.node, lines)?;
    submit_all(alloc, buses, names, now, turn, lines)?;
    end_turn(buses, now, turn, lines)
}

/// The turns of the nodes that had sessions at this moment, and their lines: first the new nodes become live.
pub(crate) fn take_turns(
    alloc: Global,
    plans: &[NodePlan],
    buses: &mut Vec<Medium>,
    now: u64,
    turns: &[Turn],
) -> Result<LineList, AllocError>
    requires numbered { AreNumbered buses.old.items }
    requires few { length buses.old.items ≤ 4 }
    requires there { All (λ x. x.node < length plans.now) turns.now }
    requires expected { All (IsExpected (map (seen plans.now) turns.now)) buses.old.items }
    requires turns { AreTurns (map (seen plans.now) turns.now) }
    requires moment { now ≤ 2 ^ 62 }
    ensures buses { OnOk result (buses.new.items ≡ (turns_step now buses.old.items (map (seen plans.now) turns.now)).0) }
    ensures lines { IfOk result (λ lines. lines ≡ (turns_step now buses.old.items (map (seen plans.now) turns.now)).1) }
{
    let mut lines = Vec::new(alloc);
    enter_new(buses, turns);
    for turn in turns {
        let plan = &plans[turn.node as usize];
        take_turn(alloc, buses, plan.buses.as_slice(), now, turn, &mut lines)?;
    }
    Ok(LineList::of(lines))
}

impl Course {
    /// The turns of the nodes that had sessions at this moment, and their lines.
    pub(crate) fn take_turns(
        &mut self,
        alloc: Global,
        now: u64,
        turns: &[Turn],
    ) -> Result<LineList, AllocError>
        requires plan { IsPlan self.old.plan }
        requires there { All (λ x. x.node < length self.old.plan.nodes) turns.now }
        requires expected { All (IsExpected (map (seen self.old.plan.nodes) turns.now)) self.old.buses }
        requires turns { AreTurns (map (seen self.old.plan.nodes) turns.now) }
        requires moment { now ≤ 2 ^ 62 }
        ensures state { OnOk result (self.new ≡ record self.old { buses = (turns_step now self.old.buses (map (seen self.old.plan.nodes) turns.now)).0 }) }
        ensures lines { IfOk result (λ lines. lines ≡ (turns_step now self.old.buses (map (seen self.old.plan.nodes) turns.now)).1) }
        ensures events { self.new.events ≡ self.old.events }
    {
        take_turns(alloc, &self.nodes, &mut self.buses, now, turns)
    }
}
