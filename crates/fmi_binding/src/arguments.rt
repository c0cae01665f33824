//! The functions of calls, and their arguments.
ghost use Rattle.std.specs.Prelude.{◌≡◌};
ghost use Rattle.code_laws.specs.Answers.{Fit};
ghost use Rattle.binding_specs.specs.Exports.{type_of};
ghost use Rattle.binding_specs.specs.Exchanges.{function_of, arguments_of};
ghost use Rattle.fmi_binding.specs.Coming.{HasLength};
ghost use Rattle.fmi_binding.specs.Arguments.{numbers_of};

use binding_specs::Function;
use fmi_states::Call;

/// The arguments of a function of a unit: it has two at most.
#[derive(Clone, Copy)]
pub(crate) enum Arguments {
    /// No argument.
    Nothing,
    /// One number.
    One(u64),
    /// Two numbers.
    Two(u64, u64),
}

/// The function of a call.
pub(crate) fn function_of(call: &Call) -> Function
    ensures { result ≡ function_of call.now }
{
    match call {
        Call::Instantiate => Function::Instantiate,
        Call::EnterInit => Function::EnterInit,
        Call::ExitInit => Function::ExitInit,
        Call::EnterEvent => Function::EnterEvent,
        Call::EnterStep => Function::EnterStep,
        Call::SetClock(_) => Function::SetClock,
        Call::SetBinary(_, _) => Function::SetBinary,
        Call::GetClock(_) => Function::GetClock,
        Call::GetBinary(_) => Function::GetBinary,
        Call::Update => Function::Update,
        Call::GetInterval(_) => Function::GetInterval,
        Call::DoStep { .. } => Function::DoStep,
        Call::Terminate => Function::Terminate,
        Call::Free => Function::Free,
    }
}

/// The arguments of a call's function. A clock that is set is on.
pub(crate) fn arguments_of(call: &Call) -> Arguments
    requires few { HasLength call.now }
    ensures numbers { numbers_of result ≡ arguments_of call.now }
    ensures fit { Fit (type_of (function_of call.now)).params (numbers_of result) }
{
    match call {
        Call::SetClock(reference) => Arguments::Two(u64::from(*reference), 1),
        Call::SetBinary(reference, bytes) => {
            Arguments::Two(u64::from(*reference), bytes.as_slice().len() as u64)
        }
        Call::GetClock(reference) | Call::GetBinary(reference) | Call::GetInterval(reference) => {
            Arguments::One(u64::from(*reference))
        }
        Call::DoStep { from, size } => Arguments::Two(*from, *size),
        Call::Instantiate
        | Call::EnterInit
        | Call::ExitInit
        | Call::EnterEvent
        | Call::EnterStep
        | Call::Update
        | Call::Terminate
        | Call::Free => Arguments::Nothing,
    }
}
