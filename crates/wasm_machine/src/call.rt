//! Calls from outside.
ghost use Rattle.std.specs.Prelude.{◌≡◌, ◌≢◌, ◌≤◌, List, ℕ, length, IfOk, IsOk};
ghost use Rattle.code_specs.specs.Execution.{Stuck, fuel_left};
ghost use Rattle.machine_steps.specs.Answers.{bits_of_answer};
ghost use Rattle.wasm_memory.specs.Pools.{bytes_in, IsUnshared};
ghost use Rattle.wasm_validate.specs.Valid.{IsChecked};
ghost use Rattle.wasm_machine.specs.Instances.{store_in, Stands, Leaves};
ghost use Rattle.wasm_machine.specs.Calls.{Fits, meant, answer_at, answer_with, KeepsSize};

use crate::instance::Instance;
use crate::outcome::Outcome;
use crate::stack::{Stack, Turn, func_at, push_all, push_zeros};
use std::alloc::{AllocError, Global};
use wasm_memory::Pool;
use wasm_types::Module;
use wasm_validate::Checked;

/// Runs a function of a checked module from its arguments to the last turn.
pub(crate) fn run(
    alloc: Global,
    stack: &mut Stack,
    parts: &Module,
    instance: &mut Instance,
    pool: &mut Pool,
    func: u32,
    arguments: &[u64],
    fuel: &mut u64,
) -> Result<Turn, AllocError>
    requires checked { IsChecked parts.now }
    requires stands { Stands parts.now pool.old instance.old }
    requires fits { Fits parts.now func arguments.now }
    ensures answer { IfOk result (λ t. answer_at t (store_in pool.new instance.new) fuel.new ≡ bits_of_answer (meant parts.now func arguments.now (store_in pool.old instance.old) fuel.old)) }
    ensures never { meant parts.now func arguments.now (store_in pool.old instance.old) fuel.old ≢ Stuck }
    ensures leaves { Leaves parts.now pool.old pool.new instance.old instance.new }
    ensures room { IsUnshared pool.old instance.old.memory.table → KeepsSize (length (bytes_in pool.old instance.old.memory)) (meant parts.now func arguments.now (store_in pool.old instance.old) fuel.old) → IsOk result }
{
    let locals = func_at(parts, func).locals.as_slice().len();
    stack.func = func;
    stack.position = 0;
    stack.base = 0;
    stack.depth = 0;
    stack.values.clear();
    stack.labels.clear();
    stack.callers.clear();
    push_all(&mut stack.values, arguments);
    push_zeros(&mut stack.values, locals);
    loop {
        match stack.step(alloc, parts, instance, pool, fuel)? {
            Turn::Go => {}
            end => return Ok(end),
        }
    }
}

impl Instance {
    /// Calls a function of the module that the instance was made from, with at most so much fuel: each instruction takes
    /// a unit before it begins (WebAssembly Core 1.0, section 4.5.5). It gives what the code means, with its store and
    /// what is left of the fuel. Every other table of the pool stays as it was. It takes memory only where a page is
    /// shared, or where pages are added.
    pub fn call(
        &mut self,
        alloc: Global,
        pool: &mut Pool,
        code: &Checked,
        stack: &mut Stack,
        func: u32,
        arguments: &[u64],
        fuel: &mut u64,
    ) -> Result<Outcome, AllocError>
        requires stands { Stands code.now pool.old self.old }
        requires fits { Fits code.now func arguments.now }
        ensures answer { IfOk result (λ o. answer_with o (store_in pool.new self.new) fuel.new ≡ bits_of_answer (meant code.now func arguments.now (store_in pool.old self.old) fuel.old)) }
        ensures fuel { IfOk result (λ o. fuel.new ≡ fuel_left (meant code.now func arguments.now (store_in pool.old self.old) fuel.old)) }
        ensures never { meant code.now func arguments.now (store_in pool.old self.old) fuel.old ≢ Stuck }
        ensures leaves { Leaves code.now pool.old pool.new self.old self.new }
        ensures room { IsUnshared pool.old self.old.memory.table → KeepsSize (length (bytes_in pool.old self.old.memory)) (meant code.now func arguments.now (store_in pool.old self.old) fuel.old) → IsOk result }
    {
        match run(
            alloc,
            stack,
            code.module(),
            self,
            pool,
            func,
            arguments,
            fuel,
        )? {
            Turn::Returned(value) => Ok(Outcome::Value(value)),
            Turn::Trapped(kind) => Ok(Outcome::Trap(kind)),
            Turn::Spent => {
                *fuel = 0;
                Ok(Outcome::Spent)
            }
            Turn::Go => unreachable!(),
        }
    }
}
