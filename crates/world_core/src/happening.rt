//! What happens on one bus.
ghost use Rattle.std.specs.Prelude.{◌≡◌, ◌≤◌, ◌<◌, ◌+◌, ◌^◌, All, IfOk, OnOk};
ghost use Rattle.bus_specs.specs.Due.{Finish, Return, Start, at};
ghost use Rattle.bus_specs.specs.Finish as model;
ghost use Rattle.bus_specs.specs.Start.{start as start_of};
ghost use Rattle.world_specs.specs.Plan.{IsPlan};
ghost use Rattle.world_core.specs.OnBuses.{AreNumbered, IsDueOn, buses_with, lines_with};

use crate::course::Course;
use bus_medium::Medium;
use log_lines::LineList;
use std::alloc::{AllocError, Global};

fn finish_on(
    alloc: Global,
    buses: &mut Vec<Medium>,
    bus: u32,
    now: u64,
) -> Result<LineList, AllocError>
    requires numbered { AreNumbered buses.old.items }
    requires due { IsDueOn buses.old.items bus (at Finish now) }
    requires moment { now ≤ 2 ^ 62 }
    ensures state { OnOk result (buses.new.items ≡ buses_with bus (λ b. model.finish b now) buses.old.items) }
    ensures lines { IfOk result (λ lines. lines ≡ lines_with bus (λ b. model.finish b now) buses.old.items) }
{
    let medium = &mut buses[bus as usize];
    let lines = medium.finish(alloc, now)?;
    Ok(lines)
}

fn recover_on(
    alloc: Global,
    buses: &mut Vec<Medium>,
    bus: u32,
    node: u32,
    now: u64,
) -> Result<LineList, AllocError>
    requires numbered { AreNumbered buses.old.items }
    requires due { IsDueOn buses.old.items bus (at (Return node) now) }
    ensures state { OnOk result (buses.new.items ≡ buses_with bus (λ b. model.recover b now node) buses.old.items) }
    ensures lines { IfOk result (λ lines. lines ≡ lines_with bus (λ b. model.recover b now node) buses.old.items) }
{
    let medium = &mut buses[bus as usize];
    let lines = medium.recover(alloc, now, node)?;
    Ok(lines)
}

fn start_on(
    alloc: Global,
    buses: &mut Vec<Medium>,
    bus: u32,
    now: u64,
) -> Result<LineList, AllocError>
    requires numbered { AreNumbered buses.old.items }
    requires due { IsDueOn buses.old.items bus (at Start now) }
    requires moment { now ≤ 2 ^ 62 }
    requires attempts { All (λ b. b.attempts < 2 ^ 63) buses.old.items }
    ensures state { OnOk result (buses.new.items ≡ buses_with bus (λ b. start_of b now) buses.old.items) }
    ensures lines { IfOk result (λ lines. lines ≡ lines_with bus (λ b. start_of b now) buses.old.items) }
{
    let medium = &mut buses[bus as usize];
    let lines = medium.start(alloc, now)?;
    Ok(lines)
}

impl Course {
    /// The running frame of a bus comes to its end.
    pub(crate) fn finish(
        &mut self,
        alloc: Global,
        bus: u32,
        now: u64,
    ) -> Result<LineList, AllocError>
        requires plan { IsPlan self.old.plan }
        requires due { IsDueOn self.old.buses bus (at Finish now) }
        requires moment { now ≤ 2 ^ 62 }
        ensures state { OnOk result (self.new ≡ record self.old { buses = buses_with bus (λ b. model.finish b now) self.old.buses }) }
        ensures lines { IfOk result (λ lines. lines ≡ lines_with bus (λ b. model.finish b now) self.old.buses) }
        ensures events { self.new.events ≡ self.old.events }
    {
        finish_on(alloc, &mut self.buses, bus, now)
    }

    /// A node that is off returns on a bus.
    pub(crate) fn recover(
        &mut self,
        alloc: Global,
        bus: u32,
        node: u32,
        now: u64,
    ) -> Result<LineList, AllocError>
        requires plan { IsPlan self.old.plan }
        requires due { IsDueOn self.old.buses bus (at (Return node) now) }
        ensures state { OnOk result (self.new ≡ record self.old { buses = buses_with bus (λ b. model.recover b now node) self.old.buses }) }
        ensures lines { IfOk result (λ lines. lines ≡ lines_with bus (λ b. model.recover b now node) self.old.buses) }
        ensures events { self.new.events ≡ self.old.events }
    {
        recover_on(alloc, &mut self.buses, bus, node, now)
    }

    /// A frame starts on a bus.
    pub(crate) fn start(
        &mut self,
        alloc: Global,
        bus: u32,
        now: u64,
    ) -> Result<LineList, AllocError>
        requires plan { IsPlan self.old.plan }
        requires due { IsDueOn self.old.buses bus (at Start now) }
        requires moment { now ≤ 2 ^ 62 }
        requires attempts { All (λ b. b.attempts < 2 ^ 63) self.old.buses }
        ensures state { OnOk result (self.new ≡ record self.old { buses = buses_with bus (λ b. start_of b now) self.old.buses }) }
        ensures lines { IfOk result (λ lines. lines ≡ lines_with bus (λ b. start_of b now) self.old.buses) }
        ensures events { self.new.events ≡ self.old.events }
    {
        start_on(alloc, &mut self.buses, bus, now)
    }

    /// An event has happened at this moment.
    pub(crate) fn count(&mut self, moment: u64)
        requires room { self.old.events < 2 ^ 62 }
        ensures { self.new ≡ record self.old { events = self.old.events + 1; now = moment } }
    {
        self.events += 1;
        self.now = moment;
    }
}
