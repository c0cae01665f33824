//! Functions of a guest.
ghost use Rattle.std.specs.Prelude.{◌≡◌, ℕ, None, IfOk};
ghost use Rattle.fmi_states.specs.declared.phase.Phase.{Phase};
ghost use Rattle.wasm_types.specs.Back.{nested_module};
ghost use Rattle.code_specs.specs.Stores.{Store};
ghost use Rattle.code_laws.specs.Answers.{Fit};
ghost use Rattle.wasm_machine.specs.Calls.{Fits};
ghost use Rattle.wasm_machine.specs.Instances.{Stands, Leaves};
ghost use Rattle.binding_specs.specs.Exports.{type_of, index_of, binding_fault};
ghost use Rattle.binding_specs.specs.Pieces.{run};
ghost use Rattle.binding_specs.specs.Exchanges.{calls, status_of};
ghost use Rattle.fmi_binding.specs.Coming.{Comes, held, guest_with, then_in, numbers_in, status_in};

use crate::bound_unit::BoundUnit;
use crate::exports::{export_named, name_of};
use crate::guests::Guests;
use binding_specs::Function;
use fmi_states::{Broken, FmiStatus};
use std::alloc::{AllocError, Global};
use wasm_machine::{Instance, Outcome};
use wasm_types::Module;
use wasm_validate::Checked;

const FUNCTION: u8 = 0;

const STATUSES: [FmiStatus; 5] = [
    FmiStatus::Ok,
    FmiStatus::Warning,
    FmiStatus::Discard,
    FmiStatus::Error,
    FmiStatus::Fatal,
];

/// Runs a function, by its index, with a budget of its own, and gives what it returns.
pub(crate) fn run(
    alloc: Global,
    guests: &mut Guests,
    instance: &mut Instance,
    code: &Checked,
    budget: u64,
    index: u32,
    arguments: &[u64],
) -> Result<Result<Option<u64>, Broken>, AllocError>
    requires stands { Stands code.now guests.old.pool instance.old }
    requires fits { Fits code.now index arguments.now }
    ensures comes { IfOk result (λ r. (area : ℕ) → Comes (run (nested_module code.now) budget index arguments.now)
        (held guests.old.pool instance.old area) (held guests.new.pool instance.new area) (numbers_in r)) }
    ensures leaves { Leaves code.now guests.old.pool guests.new.pool instance.old instance.new }
{
    let mut fuel = budget;
    let outcome = instance.call(
        alloc,
        &mut guests.pool,
        code,
        &mut guests.stack,
        index,
        arguments,
        &mut fuel,
    )?;
    Ok(match outcome {
        Outcome::Value(value) => Ok(value),
        Outcome::Trap(_) => Err(Broken::Trap),
        Outcome::Spent => Err(Broken::Spent),
    })
}

/// The index of a function, by its name.
fn index_of(code: &Module, function: Function) -> Option<u32>
    ensures { result ≡ index_of (nested_module code.now) function }
{
    match export_named(name_of(function), code.exports.as_slice()) {
        Some(export) if export.kind == FUNCTION => Some(export.index),
        _ => None,
    }
}

/// Runs a function of a unit.
pub(crate) fn call_function(
    alloc: Global,
    guests: &mut Guests,
    instance: &mut Instance,
    bound: &BoundUnit,
    function: Function,
    arguments: &[u64],
) -> Result<Result<Option<u64>, Broken>, AllocError>
    requires stands { Stands bound.now.code guests.old.pool instance.old }
    requires bound { binding_fault (nested_module bound.now.code) ≡ None }
    requires fit { Fit (type_of function).params arguments.now }
    ensures comes { IfOk result (λ r. (phase : Phase) (s : Store) (area : ℕ) →
        Comes (calls (guest_with bound.now phase area s) function arguments.now)
        (held guests.old.pool instance.old area) (held guests.new.pool instance.new area) (numbers_in r)) }
    ensures leaves { Leaves bound.now.code guests.old.pool guests.new.pool instance.old instance.new }
{
    match index_of(bound.code.module(), function) {
        None => Ok(Err(Broken::Trap)),
        Some(index) => run(
            alloc,
            guests,
            instance,
            &bound.code,
            bound.budget,
            index,
            arguments,
        ),
    }
}

/// The status that a function returned.
fn status_in(returned: Result<Option<u64>, Broken>) -> Result<FmiStatus, Broken>
    ensures { result ≡ then_in (numbers_in returned) status_in }
{
    match returned {
        Err(why) => Err(why),
        Ok(None) => Err(Broken::BadReply),
        Ok(Some(number)) => match STATUSES.get(number as usize) {
            None => Err(Broken::BadReply),
            Some(status) => Ok(*status),
        },
    }
}

/// Runs a function of a unit, and gives the status that it returns.
pub(crate) fn call_status(
    alloc: Global,
    guests: &mut Guests,
    instance: &mut Instance,
    bound: &BoundUnit,
    function: Function,
    arguments: &[u64],
) -> Result<Result<FmiStatus, Broken>, AllocError>
    requires stands { Stands bound.now.code guests.old.pool instance.old }
    requires bound { binding_fault (nested_module bound.now.code) ≡ None }
    requires fit { Fit (type_of function).params arguments.now }
    ensures comes { IfOk result (λ r. (phase : Phase) (s : Store) (area : ℕ) →
        Comes (status_of (guest_with bound.now phase area s) function arguments.now)
        (held guests.old.pool instance.old area) (held guests.new.pool instance.new area) r) }
    ensures leaves { Leaves bound.now.code guests.old.pool guests.new.pool instance.old instance.new }
{
    let returned = call_function(alloc, guests, instance, bound, function, arguments)?;
    Ok(status_in(returned))
}
