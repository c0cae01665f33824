//! What is done before the function of a call is run, and its run.
ghost use Rattle.std.specs.Prelude.{◌≡◌, ℕ, ◌≤◌, ◌+◌, ◌<◌, ◌^◌, None, IfOk, length, false};
ghost use Rattle.fmi_states.specs.declared.call.Call.TheVariants.{Free};
ghost use Rattle.fmi_states.specs.declared.phase.Phase.{Phase};
ghost use Rattle.wasm_types.specs.Back.{nested_module};
ghost use Rattle.code_specs.specs.Stores.{Store};
ghost use Rattle.code_laws.specs.Answers.{Fit};
ghost use Rattle.wasm_machine.specs.Instances.{Stands, Leaves};
ghost use Rattle.binding_specs.specs.Exports.{type_of, binding_fault};
ghost use Rattle.binding_specs.specs.Pieces.{writes};
ghost use Rattle.binding_specs.specs.Exchanges.{prepares, status_of, status_by};
ghost use Rattle.binding_laws.specs.Words.{is_instantiation};
ghost use Rattle.fmi_binding.specs.Coming.{Comes, held, guest_with, HasLength};
ghost use Rattle.fmi_binding.specs.Arguments.{numbers_of};

use crate::arguments::{Arguments, arguments_of, function_of};
use crate::bound_unit::BoundUnit;
use crate::guests::Guests;
use crate::reading::BYTES;
use crate::running::{call_function, call_status};
use binding_specs::Function;
use fmi_states::{Broken, Call, FmiStatus};
use std::alloc::{AllocError, Global};
use wasm_machine::Instance;

/// Writes the bytes of a variable into the area, if they fit.
fn write_bytes(
    alloc: Global,
    guests: &mut Guests,
    instance: &mut Instance,
    bound: &BoundUnit,
    area: u32,
    bytes: &[u8],
) -> Result<Result<(), Broken>, AllocError>
    requires stands { Stands bound.now.code guests.old.pool instance.old }
    requires area { area ≤ 16777216 }
    ensures comes { IfOk result (λ r. Comes (writes (area + 64) bytes.now)
        (held guests.old.pool instance.old area) (held guests.new.pool instance.new area) r) }
    ensures few { IfOk result (λ r. IfOk r (λ _. length bytes.now < 2 ^ 32)) }
    ensures leaves { Leaves bound.now.code guests.old.pool guests.new.pool instance.old instance.new }
{
    let done = instance.write(alloc, &mut guests.pool, area + BYTES, bytes)?;
    if done {
        Ok(Ok(()))
    } else {
        Ok(Err(Broken::BadBuffer))
    }
}

/// Does what comes before the function of a call that isn't the instantiation.
pub(crate) fn prepare(
    alloc: Global,
    guests: &mut Guests,
    instance: &mut Instance,
    bound: &BoundUnit,
    area: u32,
    call: &Call,
) -> Result<Result<(), Broken>, AllocError>
    requires stands { Stands bound.now.code guests.old.pool instance.old }
    requires area { area ≤ 16777216 }
    requires other { is_instantiation call.now ≡ false }
    ensures comes { IfOk result (λ r. (phase : Phase) (s : Store) → Comes (prepares (guest_with bound.now phase area s) call.now)
        (held guests.old.pool instance.old area) (held guests.new.pool instance.new area) r) }
    ensures few { IfOk result (λ r. IfOk r (λ _. HasLength call.now)) }
    ensures leaves { Leaves bound.now.code guests.old.pool guests.new.pool instance.old instance.new }
{
    match call {
        Call::SetBinary(_, bytes) => {
            write_bytes(alloc, guests, instance, bound, area, bytes.as_slice())
        }
        _ => Ok(Ok(())),
    }
}

/// Runs the function of a call, and gives its status.
pub(crate) fn status_by(
    alloc: Global,
    guests: &mut Guests,
    instance: &mut Instance,
    bound: &BoundUnit,
    call: &Call,
) -> Result<Result<FmiStatus, Broken>, AllocError>
    requires stands { Stands bound.now.code guests.old.pool instance.old }
    requires bound { binding_fault (nested_module bound.now.code) ≡ None }
    requires few { HasLength call.now }
    ensures comes { IfOk result (λ r. (phase : Phase) (s : Store) (area : ℕ) → Comes (status_by (guest_with bound.now phase area s) call.now)
        (held guests.old.pool instance.old area) (held guests.new.pool instance.new area) r) }
    ensures leaves { Leaves bound.now.code guests.old.pool guests.new.pool instance.old instance.new }
{
    match call {
        Call::Free => free(alloc, guests, instance, bound),
        _ => call_with(
            alloc,
            guests,
            instance,
            bound,
            function_of(call),
            arguments_of(call),
        ),
    }
}

/// Runs a function of a unit with these arguments, and gives the status that it returns.
fn call_with(
    alloc: Global,
    guests: &mut Guests,
    instance: &mut Instance,
    bound: &BoundUnit,
    function: Function,
    arguments: Arguments,
) -> Result<Result<FmiStatus, Broken>, AllocError>
    requires stands { Stands bound.now.code guests.old.pool instance.old }
    requires bound { binding_fault (nested_module bound.now.code) ≡ None }
    requires fit { Fit (type_of function).params (numbers_of arguments) }
    ensures comes { IfOk result (λ r. (phase : Phase) (s : Store) (area : ℕ) →
        Comes (status_of (guest_with bound.now phase area s) function (numbers_of arguments))
        (held guests.old.pool instance.old area) (held guests.new.pool instance.new area) r) }
    ensures leaves { Leaves bound.now.code guests.old.pool guests.new.pool instance.old instance.new }
{
    match arguments {
        Arguments::Nothing => call_status(alloc, guests, instance, bound, function, &[]),
        Arguments::One(number) => {
            let numbers = [number];
            call_status(alloc, guests, instance, bound, function, &numbers)
        }
        Arguments::Two(first, second) => {
            let numbers = [first, second];
            call_status(alloc, guests, instance, bound, function, &numbers)
        }
    }
}

// fmi3FreeInstance returns no status.
fn free(
    alloc: Global,
    guests: &mut Guests,
    instance: &mut Instance,
    bound: &BoundUnit,
) -> Result<Result<FmiStatus, Broken>, AllocError>
    requires stands { Stands bound.now.code guests.old.pool instance.old }
    requires bound { binding_fault (nested_module bound.now.code) ≡ None }
    ensures comes { IfOk result (λ r. (phase : Phase) (s : Store) (area : ℕ) → Comes (status_by (guest_with bound.now phase area s) Free)
        (held guests.old.pool instance.old area) (held guests.new.pool instance.new area) r) }
    ensures leaves { Leaves bound.now.code guests.old.pool guests.new.pool instance.old instance.new }
{
    match call_function(alloc, guests, instance, bound, Function::Free, &[])? {
        Err(why) => Ok(Err(why)),
        Ok(_) => Ok(Ok(FmiStatus::Ok)),
    }
}
