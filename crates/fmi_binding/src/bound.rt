//! Whether a module is that of a unit.
ghost use Rattle.std.specs.Prelude.{◌≡◌, ◌+◌, ◌<◌, ◌^◌, None, Some, IfOk, IfErr, map, length, codes};
ghost use Rattle.wasm_types.specs.Back.{nested_module};
ghost use Rattle.binding_specs.specs.Exports.{AMemory, AFunction, name_of, type_of, export_named, fault_at, function_row, first_fault_from, binding_fault};
ghost use Rattle.fmi_binding.specs.Faults.{fault_in};

use crate::exports::{export_named, exported_type, name_of};
use crate::types::is_type;
use binding_specs::{BindError, Function};
use fmu_description::Description;
use wasm_types::Module;
use wasm_validate::Checked;

const MEMORY: u8 = 2;

const FUNCTIONS: [Function; 15] = [
    Function::Area,
    Function::Instantiate,
    Function::EnterInit,
    Function::ExitInit,
    Function::EnterEvent,
    Function::EnterStep,
    Function::SetClock,
    Function::SetBinary,
    Function::GetClock,
    Function::GetBinary,
    Function::Update,
    Function::GetInterval,
    Function::DoStep,
    Function::Terminate,
    Function::Free,
];

fn check_memory(code: &Module) -> Result<(), BindError>
    ensures { fault_in result ≡ fault_at (nested_module code.now) 0 AMemory (export_named (codes "memory") code.now.exports) }
{
    match export_named(b"memory", code.exports.as_slice()) {
        None => Err(BindError::Missing(0)),
        Some(export) if export.kind == MEMORY => Ok(()),
        Some(_) => Err(BindError::Signature(0)),
    }
}

fn check_function(code: &Module, row: u32, function: Function) -> Result<(), BindError>
    ensures { fault_in result ≡ fault_at (nested_module code.now) row (AFunction (type_of function))
        (export_named (name_of function) code.now.exports) }
{
    match export_named(name_of(function), code.exports.as_slice()) {
        None => Err(BindError::Missing(row)),
        Some(export) if is_type(function, exported_type(code, export)) => Ok(()),
        Some(_) => Err(BindError::Signature(row)),
    }
}

/// The functions of these rows, from this one on.
fn check_functions(code: &Module, first: u32, functions: &[Function]) -> Result<(), BindError>
    requires { first + length functions.now < 2 ^ 32 }
    ensures { fault_in result ≡ first_fault_from (nested_module code.now) first (map function_row functions.now) }
{
    let mut row = first;
    let mut left = functions;
    while let [function, others @ ..] = left {
        check_function(code, row, *function)?;
        row += 1;
        left = others;
    }
    Ok(())
}

/// Whether a module exports its memory and the functions of a unit, each with its type.
/// Else the first of these rows that is missing or of another kind or type.
pub fn check_module(code: &Module) -> Result<(), BindError>
    ensures bound { IfOk result (λ _. binding_fault (nested_module code.now) ≡ None) }
    ensures refused { IfErr result (λ fault. binding_fault (nested_module code.now) ≡ Some fault) }
{
    check_memory(code)?;
    check_functions(code, 1, &FUNCTIONS)
}

/// Whether the module of a unit exports what its calls need. The description asks for no more: its rows are the same
/// whatever it says.
pub fn check(code: &Checked, _description: &Description) -> Result<(), BindError>
    ensures bound { IfOk result (λ _. binding_fault (nested_module code.now) ≡ None) }
    ensures refused { IfErr result (λ fault. binding_fault (nested_module code.now) ≡ Some fault) }
{
    check_module(code.module())
}
