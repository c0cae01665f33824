//! The clock entries of a node in the queue: which tick, and what a session makes of them.
ghost use Rattle.std.specs.Prelude.{◌≡◌, ◌≤◌, ◌<◌, ◌+◌, ◌^◌, IfOk, drop, length, map, replicate, slice_index, slice_set, take};
ghost use Rattle.clock_queue.specs.Dues.{due_of};
ghost use Rattle.ecu_session.specs.Words.{due_change_of};
ghost use Rattle.session_specs.specs.Outcome as model;
ghost use Rattle.world_specs.specs.Sessions.{clock_after, ticking_from};
ghost use Rattle.world_specs.specs.Sessions.{ticks as ticks_of};
ghost use Rattle.world_core.specs.Clocks.{settled};

use can_frame::Numbers;
use clock_queue::{ByTicks, Moment, Queue};
use ecu_session::DueChange;
use std::alloc::{AllocError, Global};

/// Whether an entry ticks at this moment.
fn ticks(clocks: &Queue<Moment>, entry: u32, now: u64) -> bool
    requires { entry < length clocks.now }
    ensures { result ≡ ticks_of now (due_of clocks.now entry) }
{
    match clocks.get(entry) {
        Some(due) => due.ticks() <= now,
        None => false,
    }
}

/// The value references of the clocks that tick at this moment, where the entries of these clocks begin at
/// `first`.
pub(crate) fn ticked(
    alloc: Global,
    clocks: &Queue<Moment>,
    first: u32,
    countdown: &[u32],
    now: u64,
) -> Result<Numbers, AllocError>
    requires few { length countdown.now ≤ 8 }
    requires within { first + length countdown.now ≤ length clocks.now }
    requires room { first < 2 ^ 31 }
    ensures { IfOk result (λ v. v ≡ map (slice_index countdown.now) (ticking_from 0 now (take (length countdown.now) (drop first clocks.now)))) }
{
    let mut values = Vec::new(alloc);
    for (place, clock) in countdown.iter().enumerate() {
        if ticks(clocks, first + place as u32, now) {
            values.push(*clock)?;
        }
    }
    Ok(Numbers::of(values))
}

/// What a session makes of an entry.
fn settle_one(clocks: &mut Queue<Moment>, entry: u32, change: DueChange, now: u64)
    requires { entry < length clocks.old }
    ensures { clocks.new ≡ slice_set clocks.old entry (clock_after now (due_change_of change) (due_of clocks.old entry)) }
{
    match change {
        DueChange::Keep => {
            if ticks(clocks, entry, now) {
                clocks.clear(&mut ByTicks, entry);
            }
        }
        DueChange::Clear => clocks.clear(&mut ByTicks, entry),
        DueChange::At(due) => clocks.set(&mut ByTicks, entry, Moment::of(due)),
    }
}

/// What a session makes of the entries from `first` on.
pub(crate) fn settle(clocks: &mut Queue<Moment>, first: u32, changes: &[DueChange], now: u64)
    requires few { length changes.now ≤ 8 }
    requires within { first + length changes.now ≤ length clocks.old }
    requires room { first < 2 ^ 31 }
    ensures { clocks.new ≡ settled now first (map due_change_of changes.now) clocks.old }
{
    for (place, change) in changes.iter().enumerate() {
        settle_one(clocks, first + place as u32, *change, now);
    }
}

/// Clears so many entries from `first` on.
pub(crate) fn clear_all(clocks: &mut Queue<Moment>, first: u32, count: u32)
    requires few { count ≤ 8 }
    requires within { first + count ≤ length clocks.old }
    requires room { first < 2 ^ 31 }
    ensures { clocks.new ≡ settled 0 first (replicate count model.Clear) clocks.old }
{
    for place in 0..count {
        clocks.clear(&mut ByTicks, first + place);
    }
}
