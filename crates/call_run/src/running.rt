//! Running the function that is called.
ghost use Rattle.std.specs.Prelude.{◌≡◌, Some, None, IfOk};
ghost use Rattle.wasm_types.specs.Back.{nested_module};
ghost use Rattle.code_specs.specs.Values.{Value};
ghost use Rattle.code_specs.specs.Instances.{first_misfit};
ghost use Rattle.code_specs.specs.Execution.{Answer};
ghost use Rattle.machine_steps.specs.Answers.{bits_of_answer};
ghost use Rattle.wasm_machine.specs.Calls.{Fits, meant, answer_with};
ghost use Rattle.call_specs.specs.CallLine.{outcome_line, after_start, call_line};
ghost use Rattle.call_run.specs.Ends.{store_of, StandsIn};

use crate::line::line_on;
use crate::machine::{End, Machine};
use std::alloc::{AllocError, Global};
use wasm_machine::Outcome;
use wasm_validate::Checked;

/// Calls a function, and gives the line on how that ended.
fn line_on_call(
    alloc: Global,
    machine: &mut Machine,
    code: &Checked,
    index: u32,
    arguments: &[u64],
    fuel: u64,
) -> Result<Vec<u8>, AllocError>
    requires stands { StandsIn code.now machine.old }
    requires fits { Fits code.now index arguments.now }
    ensures { IfOk result (λ line. line.items
        ≡ outcome_line (meant code.now index arguments.now (store_of machine.old) fuel)) }
{
    let end = machine.call(alloc, code, index, arguments, fuel)?;
    line_on(alloc, b"", &end)
}

/// Calls a function where the one that runs first has ended so.
fn line_after_start(
    alloc: Global,
    machine: &mut Machine,
    code: &Checked,
    first: &End,
    index: u32,
    arguments: &[u64],
    fuel: u64,
) -> Result<Vec<u8>, AllocError>
    requires stands { StandsIn code.now machine.old }
    requires fits { Fits code.now index arguments.now }
    ensures { IfOk result (λ line. (answer : Answer Value)
        → answer_with first.now.outcome (store_of machine.old) first.now.left ≡ bits_of_answer answer
        → line.items ≡ after_start (nested_module code.now) index arguments.now fuel (Some answer)) }
{
    match first.outcome {
        Outcome::Value(_) => line_on_call(alloc, machine, code, index, arguments, fuel),
        _ => line_on(alloc, b"start ", first),
    }
}

/// Calls a function of a new instance, and gives the line on how that ended. The function that runs first has as much fuel as the call.
pub(crate) fn line_of(
    alloc: Global,
    code: &Checked,
    index: u32,
    arguments: &[u64],
    fuel: u64,
) -> Result<Vec<u8>, AllocError>
    requires fit { first_misfit (nested_module code.now) ≡ None }
    requires fits { Fits code.now index arguments.now }
    ensures { IfOk result (λ line. line.items ≡ call_line (nested_module code.now) index arguments.now fuel) }
{
    let mut machine = Machine::new(alloc, code)?;
    match code.module().start {
        None => line_on_call(alloc, &mut machine, code, index, arguments, fuel),
        Some(first) => {
            let end = machine.call(alloc, code, first, &[], fuel)?;
            line_after_start(alloc, &mut machine, code, &end, index, arguments, fuel)
        }
    }
}
