//! Copies of calls and replies.
ghost use Rattle.std.specs.Prelude.{◌≡◌, IfOk};

use can_frame::Bytes;
use fmi_states::{Call, Reply};
use std::alloc::{AllocError, Global};

/// A copy of bytes.
fn copy_bytes(alloc: Global, bytes: &Bytes) -> Result<Bytes, AllocError>
    ensures { IfOk result (λ copy. copy ≡ bytes.now) }
{
    let items = bytes.as_slice().to_vec(alloc)?;
    Ok(Bytes::of(items))
}

/// A copy of a call.
pub(crate) fn copy_call(alloc: Global, call: &Call) -> Result<Call, AllocError>
    ensures { IfOk result (λ copy. copy ≡ call.now) }
{
    Ok(match call {
        Call::Instantiate => Call::Instantiate,
        Call::EnterInit => Call::EnterInit,
        Call::ExitInit => Call::ExitInit,
        Call::EnterEvent => Call::EnterEvent,
        Call::EnterStep => Call::EnterStep,
        Call::SetClock(reference) => Call::SetClock(*reference),
        Call::SetBinary(reference, bytes) => Call::SetBinary(*reference, copy_bytes(alloc, bytes)?),
        Call::GetClock(reference) => Call::GetClock(*reference),
        Call::GetBinary(reference) => Call::GetBinary(*reference),
        Call::Update => Call::Update,
        Call::GetInterval(reference) => Call::GetInterval(*reference),
        Call::DoStep { from, size } => Call::DoStep {
            from: *from,
            size: *size,
        },
        Call::Terminate => Call::Terminate,
        Call::Free => Call::Free,
    })
}

/// A copy of a reply.
pub(crate) fn copy_reply(alloc: Global, reply: &Reply) -> Result<Reply, AllocError>
    ensures { IfOk result (λ copy. copy ≡ reply.now) }
{
    Ok(match reply {
        Reply::Plain(status) => Reply::Plain(*status),
        Reply::Clock(status, ticks) => Reply::Clock(*status, *ticks),
        Reply::Data(status, bytes) => Reply::Data(*status, copy_bytes(alloc, bytes)?),
        Reply::Updated(status, another_update, end) => {
            Reply::Updated(*status, *another_update, *end)
        }
        Reply::Interval {
            status,
            counter,
            resolution,
            qualifier,
        } => Reply::Interval {
            status: *status,
            counter: *counter,
            resolution: *resolution,
            qualifier: *qualifier,
        },
        Reply::Broken(reason) => Reply::Broken(*reason),
    })
}
