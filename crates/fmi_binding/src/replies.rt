//! What a guest replies.
ghost use Rattle.std.specs.Prelude.{◌≡◌, ℕ, ◌≤◌, IfOk, false};
ghost use Rattle.fmi_states.specs.declared.phase.Phase.{Phase};
ghost use Rattle.fmi_states.specs.declared.call.Call.TheVariants.{GetClock, GetBinary, Update, GetInterval};
ghost use Rattle.code_specs.specs.Stores.{Store};
ghost use Rattle.wasm_memory.specs.Pools.{IsThere};
ghost use Rattle.binding_specs.specs.Guests.{Guest, most_bytes};
ghost use Rattle.binding_specs.specs.Exchanges.{is_fine, bare_reply, full_reply, reply_if};
ghost use Rattle.binding_laws.specs.Words.{is_instantiation};
ghost use Rattle.fmi_binding.specs.Coming.{Comes, held, guest_with};

use crate::bound_unit::BoundUnit;
use crate::guests::Guests;
use crate::reading::{binary_in_area, flag_in_area, number_in_area, qualifier_in_area};
use crate::sizes::most_bytes;
use can_frame::Bytes;
use fmi_states::{Broken, Call, FmiStatus, Qualifier, Reply};
use std::alloc::{AllocError, Global};
use wasm_machine::Instance;

/// Whether the call did what was asked.
pub(crate) fn is_fine(status: FmiStatus) -> bool
    ensures { result ≡ is_fine status }
{
    match status {
        FmiStatus::Ok | FmiStatus::Warning => true,
        FmiStatus::Discard | FmiStatus::Error | FmiStatus::Fatal => false,
    }
}

/// What is replied with a status that isn't fine.
fn bare_reply(alloc: Global, call: &Call, status: FmiStatus) -> Reply
    ensures { result ≡ bare_reply call.now status }
{
    match call {
        Call::GetClock(_) => Reply::Clock(status, false),
        Call::GetBinary(_) => Reply::Data(status, Bytes::of(Vec::new(alloc))),
        Call::Update => Reply::Updated(status, false, false),
        Call::GetInterval(_) => Reply::Interval {
            status,
            counter: 0,
            resolution: 0,
            qualifier: Qualifier::Unchanged,
        },
        _ => Reply::Plain(status),
    }
}

fn clock_reply(
    alloc: Global,
    guests: &Guests,
    instance: &Instance,
    area: u32,
    status: FmiStatus,
) -> Result<Result<Reply, Broken>, AllocError>
    requires there { IsThere guests.now.pool instance.now.memory }
    requires area { area ≤ 16777216 }
    ensures { IfOk result (λ r. (g : Guest) (reference : ℕ) → Comes (full_reply g (GetClock reference) status)
        (held guests.now.pool instance.now area) (held guests.now.pool instance.now area) r) }
{
    match flag_in_area(alloc, guests, instance, area, 0)? {
        Err(why) => Ok(Err(why)),
        Ok(ticks) => Ok(Ok(Reply::Clock(status, ticks))),
    }
}

fn data_reply(
    alloc: Global,
    guests: &Guests,
    instance: &Instance,
    area: u32,
    status: FmiStatus,
    most: u32,
) -> Result<Result<Reply, Broken>, AllocError>
    requires there { IsThere guests.now.pool instance.now.memory }
    requires area { area ≤ 16777216 }
    ensures { IfOk result (λ r. (g : Guest) (reference : ℕ) → most_bytes g.description.terminals reference ≡ most
        → Comes (full_reply g (GetBinary reference) status)
        (held guests.now.pool instance.now area) (held guests.now.pool instance.now area) r) }
{
    match binary_in_area(alloc, guests, instance, area, most)? {
        Err(why) => Ok(Err(why)),
        Ok(bytes) => Ok(Ok(Reply::Data(status, bytes))),
    }
}

fn updated_reply(
    alloc: Global,
    guests: &Guests,
    instance: &Instance,
    area: u32,
    status: FmiStatus,
) -> Result<Result<Reply, Broken>, AllocError>
    requires there { IsThere guests.now.pool instance.now.memory }
    requires area { area ≤ 16777216 }
    ensures { IfOk result (λ r. (g : Guest) → Comes (full_reply g Update status)
        (held guests.now.pool instance.now area) (held guests.now.pool instance.now area) r) }
{
    match flag_in_area(alloc, guests, instance, area, 0)? {
        Err(why) => Ok(Err(why)),
        Ok(another) => match flag_in_area(alloc, guests, instance, area, 4)? {
            Err(why) => Ok(Err(why)),
            Ok(end) => Ok(Ok(Reply::Updated(status, another, end))),
        },
    }
}

fn interval_reply(
    alloc: Global,
    guests: &Guests,
    instance: &Instance,
    area: u32,
    status: FmiStatus,
) -> Result<Result<Reply, Broken>, AllocError>
    requires there { IsThere guests.now.pool instance.now.memory }
    requires area { area ≤ 16777216 }
    ensures { IfOk result (λ r. (g : Guest) (reference : ℕ) → Comes (full_reply g (GetInterval reference) status)
        (held guests.now.pool instance.now area) (held guests.now.pool instance.now area) r) }
{
    let counter = match number_in_area(alloc, guests, instance, area, 0, 8)? {
        Err(why) => return Ok(Err(why)),
        Ok(counter) => counter,
    };
    let resolution = match number_in_area(alloc, guests, instance, area, 8, 8)? {
        Err(why) => return Ok(Err(why)),
        Ok(resolution) => resolution,
    };
    match qualifier_in_area(alloc, guests, instance, area, 16)? {
        Err(why) => Ok(Err(why)),
        Ok(qualifier) => Ok(Ok(Reply::Interval {
            status,
            counter,
            resolution,
            qualifier,
        })),
    }
}

/// What is replied with a status that is fine, to a call that isn't the instantiation.
fn full_reply(
    alloc: Global,
    guests: &Guests,
    instance: &Instance,
    bound: &BoundUnit,
    area: u32,
    call: &Call,
    status: FmiStatus,
) -> Result<Result<Reply, Broken>, AllocError>
    requires there { IsThere guests.now.pool instance.now.memory }
    requires area { area ≤ 16777216 }
    requires other { is_instantiation call.now ≡ false }
    ensures { IfOk result (λ r. (phase : Phase) (s : Store) → Comes (full_reply (guest_with bound.now phase area s) call.now status)
        (held guests.now.pool instance.now area) (held guests.now.pool instance.now area) r) }
{
    match call {
        Call::GetClock(_) => clock_reply(alloc, guests, instance, area, status),
        Call::GetBinary(reference) => {
            let most = most_bytes(&bound.description.terminals, *reference);
            data_reply(alloc, guests, instance, area, status, most)
        }
        Call::Update => updated_reply(alloc, guests, instance, area, status),
        Call::GetInterval(_) => interval_reply(alloc, guests, instance, area, status),
        _ => Ok(Ok(Reply::Plain(status))),
    }
}

/// What is replied with a status, to a call that isn't the instantiation.
pub(crate) fn reply_with(
    alloc: Global,
    guests: &Guests,
    instance: &Instance,
    bound: &BoundUnit,
    area: u32,
    call: &Call,
    status: FmiStatus,
) -> Result<Result<Reply, Broken>, AllocError>
    requires there { IsThere guests.now.pool instance.now.memory }
    requires area { area ≤ 16777216 }
    requires other { is_instantiation call.now ≡ false }
    ensures { IfOk result (λ r. (phase : Phase) (s : Store) → Comes (reply_if (is_fine status) (guest_with bound.now phase area s) call.now status)
        (held guests.now.pool instance.now area) (held guests.now.pool instance.now area) r) }
{
    if is_fine(status) {
        full_reply(alloc, guests, instance, bound, area, call, status)
    } else {
        Ok(Ok(bare_reply(alloc, call, status)))
    }
}
