//! Which event comes next.
ghost use Rattle.std.specs.Prelude.{◌≡◌, ◌≤◌, length, option_map};
ghost use Rattle.bus_medium.specs.Dues.{due_of};
ghost use Rattle.world_specs.specs.Next as model;
ghost use Rattle.world_specs.specs.Plan.{AllFrom, IsPlan};
ghost use Rattle.world_core.specs.Events.{event_of, what_of};
ghost use Rattle.world_core.specs.First as first;

use crate::course::Course;
use crate::event::{Event, What};
use crate::standing::Standing;
use bus_medium::{Due, Medium};

impl What {
    /// Its kind, its bus and its node, by which it comes at one moment, with 0 for what it hasn't.
    fn numbers(self) -> (u8, u32, u32)
        ensures { result ≡ first.numbers_of (what_of self) }
    {
        match self {
            What::Finish(bus) => (0, bus, 0),
            What::Return { bus, node } => (1, bus, node),
            What::Sessions => (2, 0, 0),
            What::Start(bus) => (3, bus, 0),
        }
    }

    /// Whether it comes before the other at one moment.
    fn precedes(self, other: What) -> bool
        ensures { result ≡ model.comes_before (model.rank (what_of self)) (model.rank (what_of other)) }
    {
        let (kind, bus, node) = self.numbers();
        let (other_kind, other_bus, other_node) = other.numbers();
        kind < other_kind
            || kind == other_kind && (bus < other_bus || bus == other_bus && node < other_node)
    }
}

impl Event {
    /// Whether it comes before the other.
    fn precedes(self, other: Event) -> bool
        ensures { result ≡ model.precedes (event_of self) (event_of other) }
    {
        self.moment < other.moment || self.moment == other.moment && self.what.precedes(other.what)
    }
}

/// What is due on the bus with this number.
fn event_on(bus: u32, due: Due) -> Event
    ensures { event_of result ≡ model.event_of bus (due_of due) }
{
    let what = match due.what {
        bus_medium::What::Finish => What::Finish(bus),
        bus_medium::What::Return(node) => What::Return { bus, node },
        bus_medium::What::Notices => What::Sessions,
        bus_medium::What::Start => What::Start(bus),
    };
    Event {
        moment: due.moment,
        what,
    }
}

/// The first of two, where they are there.
fn earlier(event: Option<Event>, other: Option<Event>) -> Option<Event>
    ensures { option_map event_of result ≡ first.earlier (option_map event_of event) (option_map event_of other) }
{
    match (event, other) {
        (Some(event), Some(other)) => Some(if other.precedes(event) { other } else { event }),
        (None, other) => other,
        (event, None) => event,
    }
}

/// The first of what is due on a bus, which has this number.
fn first_on(number: u32, bus: &Medium, now: u64) -> Option<Event>
    requires { number ≡ bus.now.setup.number }
    ensures { option_map event_of result ≡ first.first_on now bus.now }
{
    bus.next_due(now).map(|due| event_on(number, due))
}

/// The first of what is due on the buses, each of which has its place as its number.
fn first_due(buses: &[Medium], now: u64) -> Option<Event>
    requires numbers { AllFrom 0 (λ place b. b.setup.number ≡ place) buses.now }
    requires few { length buses.now ≤ 4 }
    ensures { option_map event_of result ≡ first.first_due now buses.now }
{
    let mut event = None;
    for (place, bus) in buses.iter().enumerate() {
        event = earlier(event, first_on(place as u32, bus, now));
    }
    event
}

/// Whether mail or a due notice waits for a node.
pub(crate) fn waits(buses: &[Medium], now: u64, node: u32) -> bool
    ensures { result ≡ first.waits buses.now now node }
{
    buses.iter().any(|bus| bus.has_inbox(now, node))
}

/// Whether a node calls for sessions at once: it is new, or something waits for it and it is live.
fn calls_now(buses: &[Medium], now: u64, node: u32, standing: Standing) -> bool
    ensures { result ≡ first.calls_now buses.now now node standing }
{
    match standing {
        Standing::New => true,
        Standing::Live { .. } => waits(buses, now, node),
        Standing::Down | Standing::Over => false,
    }
}

/// Whether one of the nodes does.
fn any_calls(buses: &[Medium], now: u64, standings: &[Standing]) -> bool
    requires few { length standings.now ≤ 32 }
    ensures { result ≡ first.any_calls buses.now now 0 standings.now }
{
    for (node, standing) in standings.iter().enumerate() {
        if calls_now(buses, now, node as u32, *standing) {
            return true;
        }
    }
    false
}

impl Course {
    /// When sessions are called for.
    fn first_call(&self) -> Option<u64>
        requires few { length self.now.standings ≤ 32 }
        ensures { result ≡ first.first_call self.entry.now }
    {
        if any_calls(&self.buses, self.now, &self.standings) {
            return Some(self.now);
        }
        let (moment, _entry) = self.clocks.least()?;
        Some(moment.ticks())
    }

    /// What happens next, also after the stop.
    fn first_event(&self) -> Option<Event>
        requires plan { IsPlan self.now.plan }
        requires standings { length self.now.standings ≡ length self.now.plan.nodes }
        ensures { option_map event_of result ≡ first.first_event self.entry.now }
    {
        let call = self.first_call().map(|moment| Event {
            moment,
            what: What::Sessions,
        });
        earlier(first_due(&self.buses, self.now), call)
    }

    /// What happens next, where it isn't after the stop.
    pub(crate) fn next_event(&self) -> Option<Event>
        requires plan { IsPlan self.now.plan }
        requires standings { length self.now.standings ≡ length self.now.plan.nodes }
        ensures { option_map event_of result ≡ model.up_to self.entry.now.plan.stop (first.first_event self.entry.now) }
    {
        let event = self.first_event()?;
        if event.moment > self.stop {
            return None;
        }
        Some(event)
    }
}
