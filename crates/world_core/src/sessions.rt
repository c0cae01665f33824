//! The sessions of one moment: who takes part, and what each session is given.
ghost use Rattle.std.specs.Prelude.{◌≡◌, ◌<◌, ◌≤◌, ◌+◌, ◌*◌, ◌^◌, ◌||◌, All, IfOk, drop, length, map, nat_lt};
ghost use Rattle.world_specs.specs.Sessions.{inbox_on};
ghost use Rattle.ecu_session.specs.Words.{end_of};
ghost use Rattle.world_core.specs.Called.{call_of as called, input_at};
ghost use Rattle.world_core.specs.First.{waits as waits_of};
ghost use Rattle.world_core.specs.OnBuses.{AreNumbered};
ghost use Rattle.world_core.specs.Settled as behind;

use crate::clocks::{clear_all, settle, ticked};
use crate::next::waits;
use crate::plan::NodePlan;
use crate::standing::Standing;
use bus_medium::Medium;
use can_frame::Numbers;
use clock_queue::{Moment, Queue};
use ecu_session::{End, Inbox, SessionIn, SessionOut};
use std::alloc::{AllocError, Global};

/// A node that takes part in the sessions of a moment.
#[derive(Drop)]
pub(crate) struct Call {
    /// Whether its unit is new.
    pub(crate) is_new: bool,
    /// What its session is given.
    pub(crate) input: SessionIn,
}

/// What waits for a node on each bus that it names.
fn inboxes(
    alloc: Global,
    buses: &[Medium],
    names: &[u32],
    now: u64,
    node: u32,
) -> Result<Inbox, AllocError>
    requires numbered { AreNumbered buses.now }
    requires there { All (λ bus. bus < length buses.now) names.now }
    ensures { IfOk result (λ inbox. inbox ≡ map (inbox_on buses.now now node) names.now) }
{
    let mut items = Vec::new(alloc);
    for bus in names {
        let medium = &buses[*bus as usize];
        items.push(medium.inbox(alloc, now, node)?)?;
    }
    Ok(Inbox::of(items))
}

/// What the session of a node is given.
fn input_of(
    alloc: Global,
    plan: &NodePlan,
    buses: &[Medium],
    resolution: u64,
    node: u32,
    last: u64,
    ticked: Numbers,
    now: u64,
) -> Result<SessionIn, AllocError>
    requires numbered { AreNumbered buses.now }
    requires there { All (λ bus. bus < length buses.now) plan.now.buses }
    ensures { IfOk result (λ input. input ≡ input_at buses.now resolution now node plan.now last ticked) }
{
    let inbox = inboxes(alloc, buses, plan.buses.as_slice(), now, node)?;
    Ok(SessionIn {
        moment: now,
        last,
        resolution,
        ticked,
        inbox,
    })
}

/// Whether a live node takes part: clocks of it tick, or mail or a due notice is there.
fn is_called(buses: &[Medium], ticked: &[u32], now: u64, node: u32) -> bool
    ensures { result ≡ (nat_lt 0 (length ticked.now) || waits_of buses.now now node) }
{
    !ticked.is_empty() || waits(buses, now, node)
}

/// The call of a node, where it takes part.
pub(crate) fn call_of(
    alloc: Global,
    plan: &NodePlan,
    buses: &[Medium],
    clocks: &Queue<Moment>,
    standing: Standing,
    resolution: u64,
    node: u32,
    now: u64,
) -> Result<Option<Call>, AllocError>
    requires numbered { AreNumbered buses.now }
    requires there { All (λ bus. bus < length buses.now) plan.now.buses }
    requires few { length plan.now.description.countdown ≤ 8 }
    requires within { node * 8 + 8 ≤ length clocks.now }
    requires low { node < 32 }
    ensures { IfOk result (λ call. call ≡ called buses.now resolution now node plan.now standing (drop (node * 8) clocks.now)) }
{
    match standing {
        Standing::New => {
            let none = Numbers::of(Vec::new(alloc));
            let input = input_of(alloc, plan, buses, resolution, node, 0, none, now)?;
            Ok(Some(Call {
                is_new: true,
                input,
            }))
        }
        Standing::Live { last } => {
            let d = &plan.description;
            let ticked = ticked(alloc, clocks, node * 8, d.countdown.as_slice(), now)?;
            if !is_called(buses, ticked.as_slice(), now, node) {
                return Ok(None);
            }
            let input = input_of(alloc, plan, buses, resolution, node, last, ticked, now)?;
            Ok(Some(Call {
                is_new: false,
                input,
            }))
        }
        Standing::Down | Standing::Over => Ok(None),
    }
}

/// The standing behind a session.
pub(crate) fn standing_behind(end: End, now: u64) -> Standing
    ensures { result ≡ behind.standing_behind now (end_of end) }
{
    match end {
        End::Live => Standing::Live { last: now },
        End::Over => Standing::Over,
        End::Down(_) => Standing::Down,
    }
}

/// What a session leaves of the entries of its node, which has so many clocks, from `first` on.
pub(crate) fn settle_entries(
    clocks: &mut Queue<Moment>,
    first: u32,
    count: u32,
    out: &SessionOut,
    now: u64,
)
    requires few { count ≤ 8 }
    requires each { length out.now.dues ≡ count }
    requires within { first + count ≤ length clocks.old }
    requires room { first < 2 ^ 31 }
    ensures { clocks.new ≡ behind.entries_behind now first count out.now.end out.now.dues clocks.old }
{
    match out.end {
        End::Live => settle(clocks, first, out.dues.as_slice(), now),
        End::Over => clear_all(clocks, first, count),
        End::Down(_) => clear_all(clocks, first, count),
    }
}
