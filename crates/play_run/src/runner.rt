//! A play that runs.
ghost use Rattle.std.specs.Prelude.{◌≡◌, ◌≤◌, ◌<◌, ◌^◌, ℕ, Some, IfOk, OnOk, option_map};
ghost use Rattle.bus_specs.specs.Due.{at, Notices, precedes as precedes_of};
ghost use Rattle.run_specs.specs.Order.{better_of};
ghost use Rattle.play_specs.specs.Scenario as model;
ghost use Rattle.bus_medium.specs.Dues.{due_of, what_of};
ghost use Rattle.play_run.specs.Ready.{IsReady};
ghost use Rattle.play_run.specs.Worlds.{world_of};

use crate::Emission;
use crate::moment::moment_lines;
use bus_medium::{Due, Medium, What};
use log_lines::LineList;
use std::alloc::{AllocError, Global};
use std::collections::VecDeque;

/// A play that runs.
#[derive(Drop)]
pub struct Runner {
    medium: Medium,
    /// What is still asked, by moment.
    ahead: VecDeque<Emission>,
    /// The moment of the last event, in ticks.
    moment: u64,
    /// The events so far.
    events: u64,
}

/// Whether what is asked at this moment comes before what the bus does.
fn is_before(due: Due, moment: u64) -> bool
    ensures { result ≡ precedes_of (at Notices moment) (due_of due) }
{
    moment < due.moment || (moment == due.moment && matches!(due.what, What::Start))
}

/// What comes first: what the bus does, if it does anything, or what is asked at this moment.
fn first_of(due: Option<Due>, moment: u64) -> Due
    ensures { Some (due_of result) ≡ better_of precedes_of (option_map due_of due) (at Notices moment) }
{
    let asked = Due {
        moment,
        what: What::Notices,
    };
    match due {
        Some(due) => { if is_before(due, moment) { asked } else { due } }
        None => asked,
    }
}

/// It, unless it comes after the stop.
fn up_to(due: Option<Due>, stop: u64) -> Option<Due>
    ensures { option_map due_of result ≡ model.up_to stop (option_map due_of due) }
{
    due.filter(|due| due.moment <= stop)
}

impl Runner {
    /// A run before its first event, on a bus all of whose nodes are live. The actions stand by moment.
    pub fn new(medium: Medium, actions: Vec<Emission>) -> Runner
        ensures { world_of result ≡ record { events = 0; now = 0; ahead = actions.items; bus = medium } }
    {
        Runner {
            medium,
            ahead: VecDeque::from(actions),
            moment: 0,
            events: 0,
        }
    }

    /// The events so far.
    pub fn events(&self) -> u64
        ensures { result ≡ (world_of self.now).events }
    {
        self.events
    }

    /// What happens next, up to the stop.
    #[tactic(auto, unfolding(play_specs::specs::Scenario::next_event))]
    pub fn next_event(&self, stop: u64) -> Option<Due>
        ensures { option_map due_of result ≡ model.next_event stop (world_of self.now) }
    {
        let due = self.medium.next_due(self.moment);
        let next = match self.ahead.front() {
            Some(action) => Some(first_of(due, action.moment())),
            None => due,
        };
        up_to(next, stop)
    }

    /// What the next event does to the bus and to what is ahead, and its lines.
    fn event(&mut self, alloc: Global, due: Due) -> Result<LineList, AllocError>
        requires ready { IsReady (world_of self.old) }
        requires next { (stop : ℕ) × (model.next_event stop (world_of self.old) ≡ Some (due_of due)) }
        requires moment { due.moment ≤ 2 ^ 62 }
        requires few { (world_of self.old).events < 2 ^ 62 }
        ensures bus { OnOk result ((world_of self.new).bus ≡ (model.event_step (world_of self.old) due.moment (what_of due.what)).0) }
        ensures ahead { OnOk result ((world_of self.new).ahead ≡ model.left_ahead (world_of self.old) due.moment (what_of due.what)) }
        ensures lines { IfOk result (λ lines. lines ≡ (model.event_step (world_of self.old) due.moment (what_of due.what)).1) }
        ensures events { (world_of self.new).events ≡ (world_of self.old).events }
    {
        let now = due.moment;
        match due.what {
            What::Finish => self.medium.finish(alloc, now),
            What::Return(node) => self.medium.recover(alloc, now, node),
            What::Notices => moment_lines(alloc, &mut self.medium, &mut self.ahead, now),
            What::Start => self.medium.start(alloc, now),
        }
    }

    /// Carries out the next event, and gives its lines.
    pub fn step(&mut self, alloc: Global, due: Due) -> Result<LineList, AllocError>
        requires ready { IsReady (world_of self.old) }
        requires next { (stop : ℕ) × (model.next_event stop (world_of self.old) ≡ Some (due_of due)) }
        requires moment { due.moment ≤ 2 ^ 62 }
        requires few { (world_of self.old).events < 2 ^ 62 }
        ensures world { OnOk result (world_of self.new ≡ (model.world_behind (world_of self.old) (due_of due)).0) }
        ensures lines { IfOk result (λ lines. lines ≡ (model.world_behind (world_of self.old) (due_of due)).1) }
    {
        let lines = self.event(alloc, due)?;
        self.moment = due.moment;
        self.events += 1;
        Ok(lines)
    }
}
