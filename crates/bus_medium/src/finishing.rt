//! The end of a frame, and the return of a node that was off.
ghost use Rattle.std.specs.Prelude.{◌≡◌, ℕ, ◌≤◌, ◌+◌, ◌^◌, ◌&&◌, ◌∷◌, ◌++◌, [], Some, All, option_to_list, IfOk, OnOk, OnErr, false, not, filter, flat_map, length, map, vec_len, vec_capacity, if◌then◌else◌, ◌==◌};
ghost use Rattle.log_specs.specs.Line as log;
ghost use Rattle.log_lines.specs.Lines.{line_of, declared_of};
ghost use Rattle.error_counters.specs.States as states;
ghost use Rattle.bus_specs.specs.Bus.{among, member_is, off};
ghost use Rattle.bus_specs.specs.Counters.{level};
ghost use Rattle.bus_specs.specs.Due.{next_due as next_due_of, at, Finish, Return};
ghost use Rattle.bus_specs.specs.Finish as model;
ghost use Rattle.bus_medium.specs.Finishing.{IsCounted, after, with_afters, receiver, state_line, outcome as outcome_of, hurt_line};
ghost use Rattle.bus_medium.specs.Parts.{part_of};
ghost use Rattle.bus_medium.specs.Places.{Rising};

use crate::Medium;
use crate::lookup::is_off_at;
use crate::member::Member;
use crate::part::{After, Part};
use crate::request::Request;
use crate::running::Running;
use can_frame::Numbers;
use error_counters::{Counters, State};
use log_lines::{Level, Line, LineList};
use std::alloc::{AllocError, Global};

/// What the end of a frame makes of each node, who receives it, and whose state changes.
#[derive(Drop)]
struct Plan {
    afters: Vec<After>,
    receivers: Vec<u32>,
    states: Vec<Line>,
}

/// The word of a line for a state.
fn level_of(state: State) -> Level
    ensures { declared_of result ≡ states.declared_of state }
{
    match state {
        State::Active => Level::Active,
        State::Passive => Level::Passive,
        State::Off => Level::Off,
    }
}

/// Whether two states are one.
fn is_same(state: State, other: State) -> bool
    ensures { result ≡ model.same_level (states.declared_of state) (states.declared_of other) }
{
    match (state, other) {
        (State::Active, State::Active)
        | (State::Passive, State::Passive)
        | (State::Off, State::Off) => true,
        _ => false,
    }
}

/// The line of a node whose state changes.
fn state_change(now: u64, bus: u32, counters: Counters, member: &Member) -> Option<Line>
    ensures { map line_of (option_to_list result) ≡ state_line now bus counters member.now }
{
    let state = counters.state();
    if is_same(member.counters.state(), state) {
        return None;
    }
    Some(Line::State {
        moment: now,
        bus,
        node: member.node,
        level: level_of(state),
    })
}

/// Whether a node that has this part in the frame receives it.
fn receives(running: &Running, member: &Member, part: Part) -> bool
    requires part { part_of part ≡ model.part running.now member.now.node }
    requires apart { among running.now.listeners running.now.sender ≡ false }
    ensures { result ≡ (among running.now.listeners member.now.node && member.now.live && member.now.awake) }
{
    match part {
        Part::Listening => member.live && member.awake,
        _ => false,
    }
}

impl Plan {
    /// The plan of all members.
    fn of(
        alloc: Global,
        now: u64,
        bus: u32,
        running: &Running,
        members: &[Member],
    ) -> Result<Plan, AllocError>
        requires counted { All IsCounted members.now }
        requires apart { among running.now.listeners running.now.sender ≡ false }
        ensures afters { IfOk result (λ plan. plan.afters.items ≡ map (after running.now) members.now) }
        ensures receivers { IfOk result (λ plan. plan.receivers.items ≡ flat_map (receiver running.now) members.now) }
        ensures states { IfOk result (λ plan. map line_of plan.states.items
            ≡ flat_map (λ m. state_line now bus (model.counters_after running.now m) m) members.now) }
    {
        let mut plan = Plan {
            afters: Vec::new(alloc),
            receivers: Vec::new(alloc),
            states: Vec::new(alloc),
        };
        for member in members {
            plan.add(alloc, now, bus, running, member)?;
        }
        Ok(plan)
    }

    /// Takes the next member into account.
    fn add(
        &mut self,
        alloc: Global,
        now: u64,
        bus: u32,
        running: &Running,
        member: &Member,
    ) -> Result<(), AllocError>
        requires counted { IsCounted member.now }
        requires apart { among running.now.listeners running.now.sender ≡ false }
        ensures afters { OnOk result (self.new.afters.items ≡ self.old.afters.items ++ after running.now member.now ∷ []) }
        ensures receivers { OnOk result (self.new.receivers.items ≡ self.old.receivers.items ++ receiver running.now member.now) }
        ensures states { OnOk result (map line_of self.new.states.items
            ≡ map line_of self.old.states.items ++ state_line now bus (model.counters_after running.now member.now) member.now) }
    {
        let part = running.part(member.node);
        let after = After::of(alloc, running, member, part)?;
        if receives(running, member, part) {
            self.receivers.push(member.node)?;
        }
        if let Some(line) = state_change(now, bus, after.counters, member) {
            self.states.push(line)?;
        }
        self.afters.push(after)?;
        Ok(())
    }
}

/// Each member becomes what is planned.
fn apply(members: &mut [Member], mut afters: Vec<After>)
    requires counted { All IsCounted members.old }
    requires length { vec_len afters ≡ length members.old }
    ensures { members.new ≡ with_afters afters.items members.old }
{
    while let Some(after) = afters.pop() {
        let place = afters.len();
        members[place].finish(after);
    }
}

/// Whether this is the request of the frame, which is delivered.
fn is_sent(running: &Running, request: &Request) -> bool
    ensures { result ≡ model.is_sent running.now running.now.fault request.now }
{
    match running.fault {
        None => request.is(running.sender, running.number),
        Some(_) => false,
    }
}

/// Without the request of a frame that is delivered, and without those of nodes that are off.
fn drop_requests(requests: &mut Vec<Request>, members: &[Member], running: &Running)
    requires { Rising members.now }
    ensures { requests.new.items
        ≡ filter (λ q. not (model.is_sent running.now running.now.fault q) && not (member_is off members.now q.node)) requests.old.items }
{
    requests.retain(|q| !is_sent(running, q) && !is_off_at(members, q.node));
}

/// The line that the frame is delivered, or that the attempt fails.
fn outcome(now: u64, bus: u32, running: Running, receivers: Vec<u32>) -> Line
    ensures { line_of result ≡ outcome_of now bus running receivers.items running.fault }
{
    let Running {
        sender: node,
        frame,
        fault,
        ..
    } = running;
    match fault {
        None => Line::Done {
            moment: now,
            bus,
            node,
            frame,
            receivers: Numbers::of(receivers),
        },
        Some(fault) => Line::Fail {
            moment: now,
            bus,
            node,
            frame,
            kind: fault.kind,
            by: fault.by,
        },
    }
}

/// All lines of the end of a frame, where there is room for them.
fn lines_of(
    mut lines: Vec<Line>,
    now: u64,
    bus: u32,
    running: Running,
    receivers: Vec<u32>,
    states: Vec<Line>,
) -> LineList
    requires empty { lines.items ≡ [] }
    requires room { vec_len states + 2 ≤ vec_capacity lines }
    ensures { result ≡ outcome_of now bus running receivers.items running.fault
        ∷ hurt_line now bus running.hurt ++ map line_of states.items }
{
    let hurt = running.hurt;
    lines.push_reserved(outcome(now, bus, running, receivers));
    if let Some(hurt) = hurt {
        lines.push_reserved(Line::Hurt {
            moment: now,
            bus,
            node: hurt.node,
            kind: hurt.kind,
        });
    }
    append(&mut lines, states);
    LineList::of(lines)
}

/// Moves lines behind others, where there is room for them.
fn append(lines: &mut Vec<Line>, more: Vec<Line>)
    requires { vec_len lines.old + vec_len more ≤ vec_capacity lines.old }
    ensures { lines.new.items ≡ lines.old.items ++ more.items }
{
    for line in more {
        lines.push_reserved(line);
    }
}

/// The node takes part again, with counters of 0.
fn come_back(members: &mut [Member], node: u32)
    ensures { members.new ≡ map (λ m. if m.node == node then model.member_after_return m else m) members.old }
{
    for member in members.iter_mut() {
        if member.is_node(node) {
            member.counters = Counters { tec: 0, rec: 0 };
            member.occurrences = None;
        }
    }
}

impl Medium {
    /// The running frame has come to its end, as is due at this moment: it is delivered, or the
    /// attempt fails, and the error counters change (ISO 11898-1, fault confinement). An
    /// intermission of three bits follows. A frame that is delivered waits no longer, and what a
    /// node that is off now asked for is gone. The bus is unchanged after want of memory.
    #[tactic(auto, unfolding(bus_specs::specs::Finish::finish))]
    pub fn finish(&mut self, alloc: Global, now: u64) -> Result<LineList, AllocError>
        requires due { (since : ℕ) × (next_due_of self.old since ≡ Some (at Finish now)) }
        requires moment { now ≤ 2 ^ 63 }
        ensures state { OnOk result (self.new ≡ (model.finish self.old now).0) }
        ensures lines { IfOk result (λ lines. lines ≡ (model.finish self.old now).1) }
        ensures err { OnErr result (self.new ≡ self.old) }
    {
        let bus = self.number;
        let Some(running) = &self.running else {
            unreachable!()
        };
        let plan = Plan::of(alloc, now, bus, running, &self.members)?;
        let lines = Vec::with_capacity(alloc, plan.states.len() + 2)?;
        let Some(running) = self.running.take() else {
            unreachable!()
        };
        let Plan {
            afters,
            receivers,
            states,
        } = plan;
        apply(&mut self.members, afters);
        drop_requests(&mut self.requests, &self.members, &running);
        self.idle = now + self.nominal.bits(3);
        self.last_sender = Some(running.sender);
        Ok(lines_of(lines, now, bus, running, receivers, states))
    }

    /// The node has seen 128 occurrences of 11 recessive bits, as is due at this moment, and takes
    /// part again with counters of 0 (ISO 11898-1, bus-off recovery). The bus is unchanged after
    /// want of memory.
    #[tactic(auto, unfolding(bus_specs::specs::Finish::recover))]
    pub fn recover(&mut self, alloc: Global, now: u64, node: u32) -> Result<LineList, AllocError>
        requires due { (since : ℕ) × (next_due_of self.old since ≡ Some (at (Return node) now)) }
        ensures state { OnOk result (self.new ≡ (model.recover self.old now node).0) }
        ensures lines { IfOk result (λ lines. lines ≡ (model.recover self.old now node).1) }
        ensures err { OnErr result (self.new ≡ self.old) }
    {
        let back = Line::Back {
            moment: now,
            bus: self.number,
            node,
        };
        let lines = vec![in alloc; back]?;
        come_back(&mut self.members, node);
        Ok(LineList::of(lines))
    }
}
