//! The phases of a unit: which call each one permits, and where a call leads.
ghost use Rattle.std.specs.Prelude.{◌≡◌, IsTrue};
ghost use Rattle.fmi_states.specs.Phase.{is_permitted, next_phase, phase_after, phase_after_refusal};

use crate::call::Call;
use crate::reply::Reply;
use crate::status::FmiStatus;

/// The phase of a unit (FMI 3.0, sections 2.3 and 4.2).
#[derive(Clone, Copy, Debug, PartialEq, Eq)]
pub enum Phase {
    /// There is no instance yet.
    Fresh,
    /// Instantiated: there is an instance, and nothing else has happened.
    Instantiated,
    /// Initialization Mode: the unit finds its first values.
    Init,
    /// Event Mode: time stands, clocks tick and values are exchanged.
    Event,
    /// Step Mode: time advances by DoStep.
    Step,
    /// Terminated: the simulation is over, and the instance is still there.
    Terminated,
    /// A call was refused or failed: the instance can only be freed.
    Failed,
    /// There is no instance any more.
    Gone,
}

/// Whether the call may be made in the phase.
pub fn permitted(phase: Phase, call: &Call) -> bool
    ensures { result ≡ is_permitted phase call.now }
{
    match phase {
        Phase::Fresh => matches!(call, Call::Instantiate),
        Phase::Instantiated => matches!(call, Call::EnterInit | Call::Free),
        Phase::Init => matches!(call, Call::ExitInit),
        Phase::Event => matches!(
            call,
            Call::SetClock(_)
                | Call::SetBinary(_, _)
                | Call::GetClock(_)
                | Call::GetBinary(_)
                | Call::Update
                | Call::GetInterval(_)
                | Call::EnterStep
                | Call::Terminate
        ),
        Phase::Step => matches!(
            call,
            Call::DoStep { .. } | Call::EnterEvent | Call::Terminate
        ),
        Phase::Terminated => matches!(call, Call::Free),
        Phase::Failed => matches!(call, Call::Free),
        Phase::Gone => false,
    }
}

/// The phase after a call that was answered so.
/// A call leads to the same phases wherever it is permitted, so `phase` serves the condition alone.
pub fn next(phase: Phase, call: &Call, reply: &Reply) -> Phase
    requires permitted { IsTrue (is_permitted phase call.now) }
    ensures { result ≡ next_phase phase call.now reply.now }
{
    match reply.status() {
        Some(FmiStatus::Ok | FmiStatus::Warning) => after(call),
        Some(FmiStatus::Discard | FmiStatus::Error) => after_refusal(call),
        Some(FmiStatus::Fatal) | None => Phase::Gone,
    }
}

fn after(call: &Call) -> Phase
    ensures { result ≡ phase_after call.now }
{
    match call {
        Call::Instantiate => Phase::Instantiated,
        Call::EnterInit => Phase::Init,
        Call::ExitInit
        | Call::EnterEvent
        | Call::SetClock(_)
        | Call::SetBinary(_, _)
        | Call::GetClock(_)
        | Call::GetBinary(_)
        | Call::Update
        | Call::GetInterval(_) => Phase::Event,
        Call::EnterStep | Call::DoStep { .. } => Phase::Step,
        Call::Terminate => Phase::Terminated,
        Call::Free => Phase::Gone,
    }
}

fn after_refusal(call: &Call) -> Phase
    ensures { result ≡ phase_after_refusal call.now }
{
    match call {
        Call::Instantiate | Call::Free => Phase::Gone,
        _ => Phase::Failed,
    }
}
