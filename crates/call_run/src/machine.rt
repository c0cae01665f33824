//! An instance, and what its calls take: its memory's bytes, and the room for their runs.
ghost use Rattle.std.specs.Prelude.{◌≡◌, None, IfOk};
ghost use Rattle.wasm_types.specs.Back.{nested_module};
ghost use Rattle.code_specs.specs.Instances.{first_misfit, opening_store};
ghost use Rattle.machine_steps.specs.Answers.{bits_of_answer};
ghost use Rattle.wasm_machine.specs.Instances.{Stands, store_in};
ghost use Rattle.wasm_machine.specs.Calls.{Fits, meant, answer_with};
ghost use Rattle.call_run.specs.Ends.{store_of, StandsIn};

use std::alloc::{AllocError, Global};
use wasm_machine::{Instance, Outcome, Stack};
use wasm_memory::Pool;
use wasm_validate::Checked;

/// How a call ended.
#[derive(Clone, Copy)]
pub(crate) struct End {
    /// The outcome.
    pub outcome: Outcome,
    /// What is left of the fuel.
    pub left: u64,
}

/// An instance, the pool that has its memory's bytes, and the room for its runs.
#[derive(Drop)]
pub(crate) struct Machine {
    pool: Pool,
    stack: Stack,
    instance: Instance,
}

impl Machine {
    /// A new instance of a module whose segments fit. The function that runs first isn't run.
    pub fn new(alloc: Global, code: &Checked) -> Result<Machine, AllocError>
        requires { first_misfit (nested_module code.now) ≡ None }
        ensures store { IfOk result (λ k. store_of k ≡ opening_store (nested_module code.now)) }
        ensures stands { IfOk result (λ k. StandsIn code.now k) }
    {
        let mut pool = Pool::new(alloc)?;
        let stack = Stack::new(alloc)?;
        let instance = Instance::new(alloc, &mut pool, code)?;
        Ok(Machine {
            pool,
            stack,
            instance,
        })
    }

    /// Calls a function of the module, with at most so much fuel.
    pub fn call(
        &mut self,
        alloc: Global,
        code: &Checked,
        index: u32,
        arguments: &[u64],
        fuel: u64,
    ) -> Result<End, AllocError>
        requires stands { StandsIn code.now self.old }
        requires fits { Fits code.now index arguments.now }
        ensures answer { IfOk result (λ e. answer_with e.outcome (store_of self.new) e.left
            ≡ bits_of_answer (meant code.now index arguments.now (store_of self.old) fuel)) }
        ensures stands { StandsIn code.now self.new }
    {
        let mut left = fuel;
        let outcome = self.instance.call(
            alloc,
            &mut self.pool,
            code,
            &mut self.stack,
            index,
            arguments,
            &mut left,
        )?;
        Ok(End { outcome, left })
    }
}
