//! What a bus does next.
ghost use Rattle.std.specs.Prelude.{◌≡◌, ◌≤◌, ◌+◌, ◌*◌, ◌^◌, ◌&&◌, fold, option_map, option_to_list, filter_map, flat_map, map, max};
ghost use Rattle.std.specs.List.{list_any};
ghost use Rattle.run_specs.specs.Order.{better_of};
ghost use Rattle.bus_specs.specs.Bus.{member_is, has_request as has_request_of};
ghost use Rattle.bus_specs.specs.Due.{next_due as next_due_of, notice_moments, precedes as precedes_of, rank as rank_of, at, Notices, Start};
ghost use Rattle.bus_medium.specs.Dues.{what_of, due_of};
ghost use Rattle.bus_medium.specs.FirstDues.{suspended_by, starts_at_once as at_once, starts_later as later, last_waits as last_waits_of, first_ready as first_ready_of, return_of};
ghost use Rattle.bus_medium.specs.Places.{Rising};

use crate::Medium;
use crate::lookup::place_of;
use crate::member::Member;
use crate::request::Request;
use tick_time::BitTime;

/// A node that is off returns after so many occurrences of 11 recessive bits (ISO 11898-1, bus-off recovery).
const OCCURRENCES: u64 = 128;

/// What a bus does. Where several are due at one moment, they come in this order.
#[derive(Clone, Copy, Debug, PartialEq, Eq)]
pub enum What {
    /// The running frame comes to its end.
    Finish,
    /// The node with this number returns from off.
    Return(u32),
    /// Notices fall due.
    Notices,
    /// A frame starts.
    Start,
}

impl What {
    /// The place in the order of what is due at one moment.
    fn rank(self) -> u8
        ensures { result ≡ rank_of (what_of self) }
    {
        match self {
            What::Finish => 0,
            What::Return(_) => 1,
            What::Notices => 2,
            What::Start => 3,
        }
    }
}

/// What is due, and its moment in ticks.
#[derive(Clone, Copy, Debug, PartialEq, Eq)]
pub struct Due {
    /// When, in ticks.
    pub moment: u64,
    /// What happens then.
    pub what: What,
}

impl Due {
    /// Whether it comes before the other.
    fn precedes(self, other: Due) -> bool
        ensures { result ≡ precedes_of (due_of self) (due_of other) }
    {
        self.moment < other.moment
            || self.moment == other.moment && self.what.rank() < other.what.rank()
    }
}

/// The first of the best so far and a later due, where it is there.
fn first(best: Option<Due>, later: Option<Due>) -> Option<Due>
    ensures { option_map due_of result ≡ fold (better_of precedes_of) (option_map due_of best) (option_to_list (option_map due_of later)) }
{
    match (best, later) {
        (Some(due), Some(other)) => Some(if other.precedes(due) { other } else { due }),
        (None, later) => later,
        (best, None) => best,
    }
}

/// A notice that is due at this moment, where it is there.
fn notice(moment: Option<u64>) -> Option<Due>
    ensures { option_map due_of result ≡ option_map (at Notices) moment }
{
    moment.map(|moment| Due {
        moment,
        what: What::Notices,
    })
}

/// The first of the best so far and the notices of a node.
fn with_notices(best: Option<Due>, member: &Member) -> Option<Due>
    ensures { option_map due_of result ≡ fold (better_of precedes_of) (option_map due_of best) (map (at Notices) (notice_moments member.now)) }
{
    let lost = member.lost.map(|lost| lost.due);
    let format = member.format.as_ref().map(|format| format.due);
    let best = first(best, notice(lost));
    let best = first(best, notice(format));
    first(best, notice(member.wake))
}

/// The first of the best so far and all notices.
fn first_notice(best: Option<Due>, members: &[Member]) -> Option<Due>
    ensures { option_map due_of result ≡ fold (better_of precedes_of) (option_map due_of best) (map (at Notices) (flat_map notice_moments members.now)) }
{
    let mut best = best;
    for member in members {
        best = with_notices(best, member);
    }
    best
}

/// The return of a node that is off.
fn return_due(member: &Member, idle: u64, nominal: BitTime) -> Option<Due>
    requires { idle ≤ 2 ^ 63 + 2 ^ 42 }
    ensures { option_map due_of result ≡ return_of idle nominal member.now }
{
    let seen = member.occurrences?;
    Some(Due {
        moment: idle + OCCURRENCES.saturating_sub(seen) * nominal.bits(11),
        what: What::Return(member.node),
    })
}

/// The first return of a node that is off.
fn first_return(members: &[Member], idle: u64, nominal: BitTime) -> Option<Due>
    requires { idle ≤ 2 ^ 63 + 2 ^ 42 }
    ensures { option_map due_of result ≡ fold (better_of precedes_of) None (filter_map (return_of idle nominal) members.now) }
{
    let mut best = None;
    for member in members {
        best = first(best, return_due(member, idle, nominal));
    }
    best
}

/// Whether a node waits longer before it sends again: it is error passive, and was the last sender.
fn is_suspended(member: &Member, last: Option<u32>) -> bool
    ensures { result ≡ suspended_by last member.now }
{
    member.is_passive() && last == Some(member.node)
}

/// Whether a node may start as soon as the bus is idle.
fn may_start_at_once(members: &[Member], last: Option<u32>, node: u32) -> bool
    requires { Rising members.now }
    ensures { result ≡ member_is (at_once last) members.now node }
{
    match place_of(members, node) {
        Some(place) => members[place].takes_part() && !is_suspended(&members[place], last),
        None => false,
    }
}

/// Whether a node may start, and waits longer.
fn may_start_later(members: &[Member], last: Option<u32>, node: u32) -> bool
    requires { Rising members.now }
    ensures { result ≡ member_is (later last) members.now node }
{
    match place_of(members, node) {
        Some(place) => members[place].takes_part() && is_suspended(&members[place], last),
        None => false,
    }
}

/// Whether a request is of a node that may start as soon as the bus is idle.
fn starts_at_once(members: &[Member], requests: &[Request], last: Option<u32>) -> bool
    requires { Rising members.now }
    ensures { result ≡ list_any (λ q. member_is (at_once last) members.now q.node) requests.now }
{
    for request in requests {
        if may_start_at_once(members, last, request.node) {
            return true;
        }
    }
    false
}

/// Whether a request is of the last sender, and that waits longer.
fn last_waits(members: &[Member], requests: &[Request], last: Option<u32>) -> bool
    requires { Rising members.now }
    ensures { result ≡ last_waits_of last members.now requests.now }
{
    match last {
        Some(node) => may_start_later(members, last, node) && has_request(requests, node),
        None => false,
    }
}

/// Whether a node has a request.
fn has_request(requests: &[Request], node: u32) -> bool
    ensures { result ≡ has_request_of requests.now node }
{
    requests.iter().any(|request| request.is_of(node))
}

/// A start, not before this moment, of a node that may start from a moment on.
fn start(now: u64, ready: Option<u64>) -> Option<Due>
    ensures { option_map due_of result ≡ option_map (λ ready. at Start (max now ready)) ready }
{
    ready.map(|ready| Due {
        moment: now.max(ready),
        what: What::Start,
    })
}

impl Medium {
    /// From when on a node that has a request may start (ISO 11898-1, suspend transmission).
    fn first_ready(&self) -> Option<u64>
        ensures { result ≡ first_ready_of self.now }
    {
        if starts_at_once(&self.members, &self.requests, self.last_sender) {
            return Some(self.idle);
        }
        if last_waits(&self.members, &self.requests, self.last_sender) {
            return Some(self.idle + self.nominal.bits(8));
        }
        None
    }

    /// What the bus does next, where the last event was at this moment: the first of all that is
    /// due, and of equals at one moment first the end of a frame, then the returns in the order of
    /// the nodes, the notices, a start. None exactly where nothing is due.
    pub fn next_due(&self, now: u64) -> Option<Due>
        ensures { option_map due_of result ≡ next_due_of self.now now }
    {
        if let Some(running) = &self.running {
            let finish = Due {
                moment: running.end,
                what: What::Finish,
            };
            return first_notice(Some(finish), &self.members);
        }
        let back = first_return(&self.members, self.idle, self.nominal);
        let notice = first_notice(back, &self.members);
        first(notice, start(now, self.first_ready()))
    }
}
