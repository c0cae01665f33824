//! A network and its units.
ghost use Rattle.std.specs.Prelude.{◌≡◌, ◌<◌, All, IfOk, IfSome, OnErr, OnOk, Some, true, false, is_some, length, map, option_map, slice_get};
ghost use Rattle.fmi_states.specs.declared.phase.Phase.TheVariants.{Fresh};
ghost use Rattle.network_images.specs.Images.{network_image};
ghost use Rattle.world_specs.specs.Next.{Finish, Return, Sessions, Start, at, next_event};
ghost use Rattle.world_specs.specs.Network.{close_lines};
ghost use Rattle.world_specs.specs.Plan.{IsPlan, units_of};
ghost use Rattle.world_specs.specs.Step.{event_lines, world_behind};
ghost use Rattle.world_core.specs.Events.{event_of};
ghost use Rattle.world_core.specs.Happened.{Failed, Happened};
ghost use Rattle.world_core.specs.Left.{KeepsShared, network_closed, units_behind, units_closed};
ghost use Rattle.world_core.specs.Seen.{opened};
ghost use Rattle.world_core.specs.Units.{AreApart, states_of};

use crate::course::Course;
use crate::event::{Event, What};
use crate::image::WorldImage;
use crate::plan::Plan;
use fmi_states::Ecu;
use log_lines::LineList;
use std::alloc::{AllocError, Global};
use std::marker::Model;

/// A network of nodes on several buses, with the unit of each node.
///
/// After want of memory in the midst of an event or of the close it has failed, and nothing but that and the
/// number of events can be asked.
#[derive(Drop)]
pub struct World<E: Ecu> {
    course: Course,
    // The unit of each node.
    ecus: Vec<E>,
    shared: E::Shared,
    failed: bool,
}

impl<E: Ecu> Model for World<E> {
    ghost use Rattle.std.specs.Prelude.{◌≡◌, false, map};
    ghost use Rattle.world_core.specs.Courses.{network_of};
    ghost use Rattle.world_core.specs.Kept.{IsKept};
    ghost use Rattle.world_core.specs.Seen.{Seen};
    ghost use Rattle.world_core.specs.Units.{states_of};

    ghost Value = { Seen E.State E.Shared };

    ghost view = { λ w. record {
      plan = w.course.plan;
      network = network_of w.course (states_of E.Ecu w.ecus.items w.shared);
      units = states_of E.Ecu w.ecus.items w.shared;
      parts = map E.parts w.ecus.items;
      shared = w.shared;
      failed = w.failed;
    } };

    ghost invariant = { λ w. w.failed ≡ false → IsKept E.Ecu w.course w.ecus.items w.shared };
}

impl<E: Ecu> World<E> {
    /// The network of a plan, in which nothing has happened, with a fresh unit for each node.
    pub fn new(
        alloc: Global,
        plan: Plan,
        ecus: Vec<E>,
        shared: E::Shared,
    ) -> Result<World<E>, AllocError>
        requires plan { IsPlan plan }
        requires each { length ecus.items ≡ length plan.nodes }
        requires fresh { All (λ e. E.phase_of (E.state e shared) ≡ Fresh) ecus.items }
        requires apart { AreApart E.Ecu ecus.items shared }
        ensures { IfOk result (λ world. world ≡ opened plan (states_of E.Ecu ecus.items shared) (map E.parts ecus.items) shared) }
    {
        let course = Course::opening(alloc, plan)?;
        Ok(World {
            course,
            ecus,
            shared,
            failed: false,
        })
    }

    /// What happens next: the first of all that is enabled, where it isn't after the stop of the plan.
    /// None exactly where nothing is enabled up to the stop.
    pub fn next_event(&self) -> Option<Event>
        requires goes_on { self.now.failed ≡ false }
        ensures { option_map event_of result ≡ next_event self.now.plan.stop self.now.network }
    {
        self.course.next_event()
    }

    /// How many events have happened.
    pub fn events(&self) -> u64
        ensures { result ≡ self.now.network.events }
    {
        self.course.events
    }

    /// Whether memory ran out in the midst of an event or of the close.
    pub fn failed(&self) -> bool
        ensures { result ≡ self.now.failed }
    {
        self.failed
    }

    /// The unit of a node, which is numbered by its place in the plan.
    pub fn ecu(&self, node: usize) -> &E
        requires goes_on { self.now.failed ≡ false }
        requires there { node < length self.now.units }
        ensures state { slice_get self.now.units node ≡ Some (E.state result.now self.now.shared) }
        ensures here { E.is_in result.now self.now.shared }
    {
        &self.ecus[node]
    }

    /// What the units share.
    pub fn shared(&self) -> &E::Shared
        requires goes_on { self.now.failed ≡ false }
        ensures { result.now ≡ self.now.shared }
    {
        &self.shared
    }

    /// What is saved of the network, all but its plan and its units.
    pub fn image(&self, alloc: Global) -> Result<WorldImage, AllocError>
        requires goes_on { self.now.failed ≡ false }
        ensures { IfOk result (λ i. i ≡ network_image (λ s. tt) self.now.network) }
    {
        self.course.image(alloc)
    }

    /// The running frame of a bus comes to its end.
    fn finish(&mut self, alloc: Global, bus: u32, moment: u64) -> Result<LineList, AllocError>
        requires goes_on { self.old.failed ≡ false }
        requires next { next_event self.old.plan.stop self.old.network ≡ Some (at (Finish bus) moment) }
        requires budget { self.old.network.events < self.old.plan.events }
        ensures state { OnOk result (self.new ≡ record self.old { network = world_behind (units_of E.answer E.phase_of self.old.plan) self.old.network (at (Finish bus) moment) }) }
        ensures lines { IfOk result (λ lines. lines ≡ event_lines (units_of E.answer E.phase_of self.old.plan) self.old.network (at (Finish bus) moment)) }
        ensures failed { OnErr result (Failed self.old self.new) }
    {
        self.failed = true;
        let lines = self.course.finish(alloc, bus, moment)?;
        self.course.count(moment);
        self.failed = false;
        Ok(lines)
    }

    /// A node that is off returns on a bus.
    fn recover(
        &mut self,
        alloc: Global,
        bus: u32,
        node: u32,
        moment: u64,
    ) -> Result<LineList, AllocError>
        requires goes_on { self.old.failed ≡ false }
        requires next { next_event self.old.plan.stop self.old.network ≡ Some (at (Return bus node) moment) }
        requires budget { self.old.network.events < self.old.plan.events }
        ensures state { OnOk result (self.new ≡ record self.old { network = world_behind (units_of E.answer E.phase_of self.old.plan) self.old.network (at (Return bus node) moment) }) }
        ensures lines { IfOk result (λ lines. lines ≡ event_lines (units_of E.answer E.phase_of self.old.plan) self.old.network (at (Return bus node) moment)) }
        ensures failed { OnErr result (Failed self.old self.new) }
    {
        self.failed = true;
        let lines = self.course.recover(alloc, bus, node, moment)?;
        self.course.count(moment);
        self.failed = false;
        Ok(lines)
    }

    /// A frame starts on a bus.
    fn start(&mut self, alloc: Global, bus: u32, moment: u64) -> Result<LineList, AllocError>
        requires goes_on { self.old.failed ≡ false }
        requires next { next_event self.old.plan.stop self.old.network ≡ Some (at (Start bus) moment) }
        requires budget { self.old.network.events < self.old.plan.events }
        ensures state { OnOk result (self.new ≡ record self.old { network = world_behind (units_of E.answer E.phase_of self.old.plan) self.old.network (at (Start bus) moment) }) }
        ensures lines { IfOk result (λ lines. lines ≡ event_lines (units_of E.answer E.phase_of self.old.plan) self.old.network (at (Start bus) moment)) }
        ensures failed { OnErr result (Failed self.old self.new) }
    {
        self.failed = true;
        let lines = self.course.start(alloc, bus, moment)?;
        self.course.count(moment);
        self.failed = false;
        Ok(lines)
    }

    /// The sessions of a moment.
    fn sessions(&mut self, alloc: Global, moment: u64) -> Result<LineList, AllocError>
        requires goes_on { self.old.failed ≡ false }
        requires next { next_event self.old.plan.stop self.old.network ≡ Some (at Sessions moment) }
        requires budget { self.old.network.events < self.old.plan.events }
        ensures state { OnOk result (self.new ≡ record self.old {
          network = world_behind (units_of E.answer E.phase_of self.old.plan) self.old.network (at Sessions moment);
          units = units_behind (units_of E.answer E.phase_of self.old.plan) self.old.network (at Sessions moment) self.old.units;
          shared = self.new.shared;
        }) }
        ensures lines { IfOk result (λ lines. lines ≡ event_lines (units_of E.answer E.phase_of self.old.plan) self.old.network (at Sessions moment)) }
        ensures failed { OnErr result (Failed self.old self.new) }
    {
        self.failed = true;
        let turns = self
            .course
            .sit_all(alloc, &mut self.ecus, &mut self.shared, moment)?;
        let lines = self.course.take_turns(alloc, moment, &turns)?;
        self.course.count(moment);
        self.failed = false;
        Ok(lines)
    }

    /// This event happens.
    fn act(&mut self, alloc: Global, event: Event) -> Result<LineList, AllocError>
        requires goes_on { self.old.failed ≡ false }
        requires next { next_event self.old.plan.stop self.old.network ≡ Some (event_of event) }
        requires budget { self.old.network.events < self.old.plan.events }
        ensures state { OnOk result (self.new ≡ record self.old {
          network = world_behind (units_of E.answer E.phase_of self.old.plan) self.old.network (event_of event);
          units = units_behind (units_of E.answer E.phase_of self.old.plan) self.old.network (event_of event) self.old.units;
          shared = self.new.shared;
        }) }
        ensures shared { OnOk result (KeepsShared (event_of event).what self.old.shared self.new.shared) }
        ensures lines { IfOk result (λ lines. lines ≡ event_lines (units_of E.answer E.phase_of self.old.plan) self.old.network (event_of event)) }
        ensures failed { OnErr result (Failed self.old self.new) }
    {
        let moment = event.moment;
        match event.what {
            What::Finish(bus) => self.finish(alloc, bus, moment),
            What::Return { bus, node } => self.recover(alloc, bus, node, moment),
            What::Sessions => self.sessions(alloc, moment),
            What::Start(bus) => self.start(alloc, bus, moment),
        }
    }

    /// This event, which is the next one, happens, and its lines come out: for a caller that has looked for it. The units
    /// of the nodes that take part in its sessions change, each by the calls of its own session; where it is no
    /// Sessions, none does. An error comes where memory runs out: then the world has failed.
    pub fn happen(&mut self, alloc: Global, event: Event) -> Result<LineList, AllocError>
        requires goes_on { self.old.failed ≡ false }
        requires next { next_event self.old.plan.stop self.old.network ≡ Some (event_of event) }
        requires budget { self.old.network.events < self.old.plan.events }
        ensures happened { IfOk result (λ lines. Happened E.Ecu self.old (event_of event) lines self.new) }
        ensures failed { OnErr result (Failed self.old self.new) }
    {
        self.act(alloc, event)
    }

    /// The next event happens, as by `happen`.
    pub fn event(&mut self, alloc: Global) -> Result<LineList, AllocError>
        requires goes_on { self.old.failed ≡ false }
        requires next { is_some (next_event self.old.plan.stop self.old.network) ≡ true }
        requires budget { self.old.network.events < self.old.plan.events }
        ensures happened { IfOk result (λ lines. IfSome (next_event self.old.plan.stop self.old.network) (λ e. Happened E.Ecu self.old e lines self.new)) }
        ensures failed { OnErr result (Failed self.old self.new) }
    {
        let event = self.next_event().unwrap();
        self.happen(alloc, event)
    }

    /// The unit of each live node is closed, in the order of the nodes, and the lines of those that fail come
    /// out. A node that fails is down then, and every other that was live is over; they have left their buses.
    /// Other units stay as they were. An error comes where memory runs out: then the world has failed.
    pub fn close(&mut self, alloc: Global) -> Result<LineList, AllocError>
        requires goes_on { self.old.failed ≡ false }
        ensures state { OnOk result (self.new ≡ record self.old {
          network = network_closed (units_of E.answer E.phase_of self.old.plan) self.old.network;
          units = units_closed (units_of E.answer E.phase_of self.old.plan) self.old.network.nodes self.old.units;
          shared = self.new.shared;
        }) }
        ensures lines { IfOk result (λ lines. lines ≡ close_lines (units_of E.answer E.phase_of self.old.plan) self.old.network) }
        ensures failed { OnErr result (Failed self.old self.new) }
    {
        self.failed = true;
        self.course.leave_live();
        let lines = self
            .course
            .close_all(alloc, &mut self.ecus, &mut self.shared)?;
        self.failed = false;
        Ok(lines)
    }
}
