//! The module that all guests have, before anything is put into its memory.
ghost use Rattle.std.specs.Prelude.{◌≡◌, ◌∷◌, [], IfOk, None, map, take};
ghost use Rattle.wasm_types.specs.Modules.{flat_func, flat_module};
ghost use Rattle.wasm_writer.specs.Building.{nothing};
ghost use Rattle.guest_kit.specs.Program.{types, functions, exports, program};

use crate::bodies;
use std::alloc::{AllocError, Global};
use wasm_types::Instr;
use wasm_types::ValType::{I32, I64};
use wasm_writer::ModuleBuilder;

// The types of the functions.
fn with_types(alloc: Global) -> Result<ModuleBuilder, AllocError>
    ensures { IfOk result (λ b. b ≡ record nothing { types = types }) }
{
    let mut builder = ModuleBuilder::new(alloc);
    builder.ty(alloc, &[], &[I32])?;
    builder.ty(alloc, &[I32], &[I32])?;
    builder.ty(alloc, &[I32, I32], &[I32])?;
    builder.ty(alloc, &[I64, I64], &[I32])?;
    builder.ty(alloc, &[], &[])?;
    builder.ty(alloc, &[I32, I32], &[])?;
    builder.ty(alloc, &[I32, I32, I32], &[])?;
    Ok(builder)
}

// And the functions that take or give bytes.
fn with_exchanges(alloc: Global) -> Result<ModuleBuilder, AllocError>
    ensures { IfOk result (λ b. b ≡ record nothing { types = types; funcs = map flat_func (take 6 functions) }) }
{
    let mut builder = with_types(alloc)?;
    builder.func(alloc, 1, &[], bodies::area(alloc)?)?;
    builder.func(alloc, 0, &[], bodies::fine(alloc)?)?;
    builder.func(alloc, 2, &[], bodies::tick(alloc)?)?;
    builder.func(alloc, 2, &[I32], bodies::take(alloc)?)?;
    builder.func(alloc, 1, &[], bodies::ask(alloc)?)?;
    builder.func(alloc, 1, &[], bodies::give(alloc)?)?;
    Ok(builder)
}

// And the others, with a page of memory.
fn with_functions(alloc: Global) -> Result<ModuleBuilder, AllocError>
    ensures { IfOk result (λ b. b
        ≡ record nothing { types = types; funcs = map flat_func functions; memories = record { min = 1; max = None } ∷ [] }) }
{
    let mut builder = with_exchanges(alloc)?;
    builder.func(alloc, 0, &[], bodies::update(alloc)?)?;
    builder.func(alloc, 1, &[], bodies::interval(alloc)?)?;
    builder.func(alloc, 3, &[], bodies::fine(alloc)?)?;
    builder.func(alloc, 4, &[], vec![in alloc; Instr::End]?)?;
    builder.func(alloc, 5, &[], bodies::append(alloc)?)?;
    builder.func(alloc, 6, &[], bodies::copy(alloc)?)?;
    builder.memory(alloc, 1, None)?;
    Ok(builder)
}

// And the first exports: kind 2 is a memory, and kind 0 a function.
fn with_states(alloc: Global) -> Result<ModuleBuilder, AllocError>
    ensures { IfOk result (λ b. b ≡ record (flat_module program) { exports = take 7 exports }) }
{
    let mut builder = with_functions(alloc)?;
    builder.export(alloc, b"memory", 2, 0)?;
    builder.export(alloc, b"bench_area", 0, 0)?;
    builder.export(alloc, b"fmi3InstantiateCoSimulation", 0, 1)?;
    builder.export(alloc, b"fmi3EnterInitializationMode", 0, 1)?;
    builder.export(alloc, b"fmi3ExitInitializationMode", 0, 1)?;
    builder.export(alloc, b"fmi3EnterEventMode", 0, 1)?;
    builder.export(alloc, b"fmi3EnterStepMode", 0, 1)?;
    Ok(builder)
}

/// The program of all guests, with nothing in its memory.
pub fn program(alloc: Global) -> Result<ModuleBuilder, AllocError>
    ensures { IfOk result (λ b. b ≡ flat_module program) }
{
    let mut builder = with_states(alloc)?;
    builder.export(alloc, b"fmi3SetClock", 0, 2)?;
    builder.export(alloc, b"fmi3SetBinary", 0, 3)?;
    builder.export(alloc, b"fmi3GetClock", 0, 4)?;
    builder.export(alloc, b"fmi3GetBinary", 0, 5)?;
    builder.export(alloc, b"fmi3UpdateDiscreteStates", 0, 6)?;
    builder.export(alloc, b"fmi3GetIntervalFraction", 0, 7)?;
    builder.export(alloc, b"fmi3DoStep", 0, 8)?;
    builder.export(alloc, b"fmi3Terminate", 0, 1)?;
    builder.export(alloc, b"fmi3FreeInstance", 0, 9)?;
    Ok(builder)
}
