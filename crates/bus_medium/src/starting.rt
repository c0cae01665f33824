//! The start of a frame: one wins, and the others lose (ISO 11898-1, bitwise arbitration).
ghost use Rattle.std.specs.Prelude.{◌≡◌, ℕ, ◌≤◌, ◌<◌, ◌+◌, ◌^◌, ◌++◌, ◌∷◌, [], Some, IfOk, IfSome, OnOk, OnErr, All, filter, map, not, option_to_list};
ghost use Rattle.bus_specs.specs.Bus.{Request as request, winner};
ghost use Rattle.bus_specs.specs.Due.{next_due as next_due_of, at, Start};
ghost use Rattle.bus_specs.specs.Start.{spans, discards, running_frame, course, discarded, start_lines, start as start_of};
ghost use Rattle.log_specs.specs.Line as log;
ghost use Rattle.log_lines.specs.Lines.{line_of};
ghost use Rattle.bus_medium.specs.Offers.{request_at, IsPlaceIn, somes};
ghost use Rattle.bus_medium.specs.Losers.{gone_of, loser_line, loser_lines, gone_from, gone_id, is_among_gone, member_behind, member_from};

use crate::Medium;
use crate::course::Course;
use crate::lookup::discards_at;
use crate::member::{LostNotice, Member};
use crate::offers::foremost_offer;
use crate::request::Request;
use crate::running::Running;
use log_lines::{Line, LineList};
use std::alloc::{AllocError, Global};

/// A request that lost arbitration and is discarded.
#[derive(Clone, Copy, Debug, PartialEq, Eq)]
struct Gone {
    node: u32,
    number: u64,
    id: u32,
}

/// What is written of the offers, and what is discarded of them.
#[derive(Drop)]
struct Losses {
    lines: Vec<Line>,
    gone: Vec<Gone>,
}

/// What a start brings.
#[derive(Drop)]
struct Plan {
    running: Running,
    losses: Losses,
}

/// The identifier of what is gone of a node.
fn gone_id_of(gone: &[Gone], node: u32) -> Option<u32>
    ensures { result ≡ gone_id gone.now node }
{
    gone.iter().find(|g| g.node == node).map(|g| g.id)
}

/// Whether a request is gone.
fn is_gone(gone: &[Gone], request: &Request) -> bool
    ensures { result ≡ is_among_gone gone.now request.now }
{
    gone.iter().any(|g| request.is(g.node, g.number))
}

/// Without those that are gone.
fn drop_gone(requests: &mut Vec<Request>, gone: &[Gone])
    ensures { requests.new.items ≡ filter (λ q. not (is_among_gone gone.now q)) requests.old.items }
{
    requests.retain(|q| !is_gone(gone, q));
}

impl Member {
    /// A frame has started: it has seen so many occurrences more while it is off, and its request with
    /// this identifier is discarded.
    fn see_start(&mut self, spans: u64, due: u64, id: Option<u32>)
        requires { IfSome self.old.occurrences (λ n. n + spans < 2 ^ 63) }
        ensures { self.new ≡ member_behind spans due id self.old }
    {
        if let Some(seen) = self.occurrences {
            self.occurrences = Some(seen + spans);
        }
        if let Some(id) = id {
            self.lost = Some(LostNotice { due, id });
        }
    }
}

/// A frame has started: off members have seen so many occurrences more, and each member whose request
/// is gone gets a notice.
fn see_starts(members: &mut [Member], spans: u64, due: u64, gone: &[Gone])
    requires { All (λ m. IfSome m.occurrences (λ n. n + spans < 2 ^ 63)) members.old }
    ensures { members.new ≡ map (member_from spans due gone.now) members.old }
{
    for member in members.iter_mut() {
        let id = gone_id_of(gone, member.node);
        member.see_start(spans, due, id);
    }
}

impl Medium {
    /// The spans of 11 nominal bits between the idle moment and now.
    fn spans(&self, now: u64) -> u64
        ensures value { result ≡ spans self.now now }
        ensures bound { result ≤ now }
    {
        now.saturating_sub(self.idle) / self.bits(11)
    }

    /// The frame of a request on the wire, from this moment on.
    fn running_of(&self, alloc: Global, now: u64, request: &Request) -> Result<Running, AllocError>
        requires moment { now ≤ 2 ^ 62 }
        requires attempts { self.now.attempts < 2 ^ 63 }
        ensures { IfOk result (λ r. r ≡ running_frame request.now (course self.now now request.now)) }
    {
        let Course {
            end,
            fault,
            hurt,
            listeners,
        } = self.course(alloc, now, request)?;
        Ok(Running {
            sender: request.node,
            number: request.number,
            frame: request.frame.copy(alloc)?,
            end,
            fault,
            hurt,
            listeners,
        })
    }

    /// Writes of a request that loses.
    fn push_loser(
        &self,
        alloc: Global,
        now: u64,
        request: &Request,
        losses: &mut Losses,
    ) -> Result<(), AllocError>
        ensures lines { OnOk result (map line_of losses.new.lines.items ≡ map line_of losses.old.lines.items ++ loser_line self.now now request.now ∷ []) }
        ensures gone { OnOk result (losses.new.gone.items ≡ losses.old.gone.items ++ map gone_of (filter (discards self.now) (request.now ∷ []))) }
    {
        let (moment, bus, node) = (now, self.number, request.node);
        let frame = request.frame.copy(alloc)?;
        if discards_at(&self.members, node) {
            losses.gone.push(Gone {
                node,
                number: request.number,
                id: request.frame.id(),
            })?;
            losses.lines.push(Line::LostGone {
                moment,
                bus,
                node,
                frame,
            })?;
        } else {
            losses.lines.push(Line::LostKept {
                moment,
                bus,
                node,
                frame,
            })?;
        }
        Ok(())
    }

    /// Writes of a request, if it loses.
    fn push_other(
        &self,
        alloc: Global,
        now: u64,
        winner: u32,
        request: &Request,
        losses: &mut Losses,
    ) -> Result<(), AllocError>
        ensures lines { OnOk result (map line_of losses.new.lines.items ≡ map line_of losses.old.lines.items ++ loser_lines self.now now winner (request.now ∷ [])) }
        ensures gone { OnOk result (losses.new.gone.items ≡ losses.old.gone.items ++ gone_from self.now winner (request.now ∷ [])) }
    {
        if request.is_of(winner) {
            return Ok(());
        }
        self.push_loser(alloc, now, request, losses)
    }

    /// Writes of an offer, if there is one and it loses.
    fn push_offer(
        &self,
        alloc: Global,
        now: u64,
        winner: u32,
        offer: Option<usize>,
        losses: &mut Losses,
    ) -> Result<(), AllocError>
        requires { IsPlaceIn self.now.requests offer }
        ensures lines { OnOk result (map line_of losses.new.lines.items
            ≡ map line_of losses.old.lines.items ++ loser_lines self.now now winner (option_to_list (request_at self.now.requests offer))) }
        ensures gone { OnOk result (losses.new.gone.items
            ≡ losses.old.gone.items ++ gone_from self.now winner (option_to_list (request_at self.now.requests offer))) }
    {
        if let Some(place) = offer {
            self.push_other(alloc, now, winner, &self.requests[place], losses)?;
        }
        Ok(())
    }

    /// Writes of the offers that lose.
    fn push_losers(
        &self,
        alloc: Global,
        now: u64,
        winner: u32,
        offers: &[Option<usize>],
        losses: &mut Losses,
    ) -> Result<(), AllocError>
        requires { All (IsPlaceIn self.now.requests) offers.now }
        ensures lines { OnOk result (map line_of losses.new.lines.items
            ≡ map line_of losses.old.lines.items ++ loser_lines self.now now winner (somes (map (request_at self.now.requests) offers.now))) }
        ensures gone { OnOk result (losses.new.gone.items
            ≡ losses.old.gone.items ++ gone_from self.now winner (somes (map (request_at self.now.requests) offers.now))) }
    {
        for offer in offers {
            self.push_offer(alloc, now, winner, *offer, losses)?;
        }
        Ok(())
    }

    /// The line of the request that wins.
    fn first_line(
        &self,
        alloc: Global,
        now: u64,
        request: &Request,
    ) -> Result<Vec<Line>, AllocError>
        ensures { IfOk result (λ v. map line_of v.items ≡ log.On now self.now.setup.number request.now.node (log.Start request.now.frame) ∷ []) }
    {
        let frame = request.frame.copy(alloc)?;
        let mut lines = Vec::new(alloc);
        lines.push(Line::Start {
            moment: now,
            bus: self.number,
            node: request.node,
            frame,
        })?;
        Ok(lines)
    }

    /// The line of the start, and what the losses are.
    fn losses(
        &self,
        alloc: Global,
        now: u64,
        request: &Request,
        offers: &[Option<usize>],
    ) -> Result<Losses, AllocError>
        requires { All (IsPlaceIn self.now.requests) offers.now }
        ensures lines { IfOk result (λ l. map line_of l.lines.items ≡ log.On now self.now.setup.number request.now.node (log.Start request.now.frame)
            ∷ loser_lines self.now now request.now.node (somes (map (request_at self.now.requests) offers.now))) }
        ensures gone { IfOk result (λ l. l.gone.items ≡ gone_from self.now request.now.node (somes (map (request_at self.now.requests) offers.now))) }
    {
        let mut losses = Losses {
            lines: self.first_line(alloc, now, request)?,
            gone: Vec::new(alloc),
        };
        self.push_losers(alloc, now, request.node, offers, &mut losses)?;
        Ok(losses)
    }

    /// What the start that is due brings.
    fn plan(&self, alloc: Global, now: u64) -> Result<Plan, AllocError>
        requires due { (since : ℕ) × (next_due_of self.now since ≡ Some (at Start now)) }
        requires moment { now ≤ 2 ^ 62 }
        requires attempts { self.now.attempts < 2 ^ 63 }
        ensures running { IfOk result (λ p. (w : request) → winner self.now now ≡ Some w → p.running ≡ running_frame w (course self.now now w)) }
        ensures lines { IfOk result (λ p. (w : request) → winner self.now now ≡ Some w → map line_of p.losses.lines.items ≡ start_lines self.now now w) }
        ensures gone { IfOk result (λ p. (w : request) → winner self.now now ≡ Some w → p.losses.gone.items ≡ map gone_of (discarded self.now now w.node)) }
    {
        let offers = self.offers(alloc, now)?;
        let Some(place) = foremost_offer(&self.requests, &offers) else {
            unreachable!()
        };
        let request = &self.requests[place];
        let running = self.running_of(alloc, now, request)?;
        let losses = self.losses(alloc, now, request, &offers)?;
        Ok(Plan { running, losses })
    }

    /// A start is due at this moment: no frame runs, and a node that has a request may start. The nodes
    /// arbitrate (ISO 11898-1, bitwise arbitration): the frame that no other offer beats goes on the
    /// wire, and the other offers lose. A node that discards is told of it a nominal bit later. The
    /// bus is unchanged after want of memory.
    pub fn start(&mut self, alloc: Global, now: u64) -> Result<LineList, AllocError>
        requires due { (since : ℕ) × (next_due_of self.old since ≡ Some (at Start now)) }
        requires moment { now ≤ 2 ^ 62 }
        requires attempts { self.old.attempts < 2 ^ 63 }
        ensures state { OnOk result (self.new ≡ (start_of self.old now).0) }
        ensures lines { IfOk result (λ lines. lines ≡ (start_of self.old now).1) }
        ensures err { OnErr result (self.new ≡ self.old) }
    {
        let Plan { running, losses } = self.plan(alloc, now)?;
        let spans = self.spans(now);
        let due = now + self.bits(1);
        see_starts(&mut self.members, spans, due, &losses.gone);
        drop_gone(&mut self.requests, &losses.gone);
        self.attempts += 1;
        self.running = Some(running);
        Ok(LineList::of(losses.lines))
    }
}
