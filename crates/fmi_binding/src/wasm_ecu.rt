//! A guest as a unit.
ghost use Rattle.std.specs.Prelude.{◌≡◌, ◌≤◌, ℕ, None, IfOk, OnErr};
ghost use Rattle.fmi_states.specs.Parts.{Among, Spares};
ghost use Rattle.wasm_types.specs.Back.{nested_module};
ghost use Rattle.code_specs.specs.Instances.{first_misfit};
ghost use Rattle.binding_specs.specs.Exports.{binding_fault};
ghost use Rattle.binding_specs.specs.Guests.{greatest_size};
ghost use Rattle.binding_specs.specs.Answers.{reply_of};
ghost use Rattle.fmi_binding.specs.Ecus.{part_at, parts_of, state_of, opening_state, IsIn};

use crate::bound_unit::BoundUnit;
use crate::copies::copy_description;
use crate::guests::Guests;
use crate::instantiating::exchange_any;
use crate::state::GuestState;
use fmi_states::{Broken, Call, Ecu, Phase, Reply, next};
use fmu_description::Description;
use std::alloc::{AllocError, Global};
use wasm_machine::Instance;
use wasm_validate::Checked;

/// A guest: a unit whose calls are functions of a WebAssembly module. Its memory is a table of the pool that it shares
/// with others.
#[derive(Drop)]
pub struct WasmEcu {
    pub(crate) bound: BoundUnit,
    pub(crate) instance: Instance,
    pub(crate) phase: Phase,
    pub(crate) area: u32,
}

impl WasmEcu {
    /// A guest before its first call, in a table that wasn't there before: its memory and globals are as the module has
    /// them at the beginning. Each function may use so much fuel. Every other table is as it was, and after want of
    /// memory every table.
    pub fn new(
        alloc: Global,
        shared: &mut Guests,
        code: Checked,
        description: &Description,
        fuel: u64,
    ) -> Result<WasmEcu, AllocError>
        // `fits` is Ok, and so is `check`.
        requires fits { first_misfit (nested_module code) ≡ None }
        requires bound { binding_fault (nested_module code) ≡ None }
        // No binary of a terminal is longer than 65,536 bytes.
        requires sizes { greatest_size description.now.terminals ≤ 65536 }
        ensures state { IfOk result (λ e. state_of e shared.new ≡ opening_state code description.now fuel) }
        ensures here { IfOk result (λ e. IsIn e shared.new) }
        ensures fresh { IfOk result (λ e. (p : ℕ) → Among p (parts_of e) → part_at p shared.old ≡ None) }
        ensures others { IfOk result (λ e. Spares part_at (parts_of e) shared.old shared.new) }
        ensures err { OnErr result ((p : ℕ) → part_at p shared.new ≡ part_at p shared.old) }
    {
        let description = copy_description(alloc, description)?;
        let instance = Instance::new(alloc, &mut shared.pool, &code)?;
        Ok(WasmEcu {
            bound: BoundUnit {
                code,
                description,
                budget: fuel,
            },
            instance,
            phase: Phase::Fresh,
            area: 0,
        })
    }
}

// What is replied: that the guest broke, where it did.
fn reply_of(came: Result<Reply, Broken>) -> Reply
    ensures { result ≡ reply_of came }
{
    match came {
        Ok(reply) => reply,
        Err(why) => Reply::Broken(why),
    }
}

impl Ecu for WasmEcu {
    ghost use Rattle.fmi_binding.specs.States.{state_answer};
    ghost use Rattle.fmi_binding.specs.Laws.{moves, suits, are_bytes, same_state, same_place, is_there};

    type Shared = Guests;

    type State = GuestState;

    ghost state = { state_of };

    ghost answer = { state_answer };

    ghost phase_of = { λ s. s.phase };

    ghost part = { part_at };

    ghost parts = { parts_of };

    ghost is_in = { IsIn };

    fn phase(&self) -> Phase {
        self.phase
    }

    fn call(
        &mut self,
        alloc: Global,
        shared: &mut Guests,
        call: &Call,
    ) -> Result<Reply, AllocError> {
        let came = exchange_any(
            alloc,
            shared,
            &mut self.instance,
            &self.bound,
            &mut self.area,
            call,
        )?;
        let reply = reply_of(came);
        self.phase = next(self.phase, call, &reply);
        Ok(reply)
    }

    ghost state_by_parts = { λ e s t here shares. same_state e s t shares };

    ghost in_by_parts = { λ e s t here shares. same_place e s t here shares };

    ghost part_is_there = { λ e s p here among. is_there e s p here among };

    ghost moves = { λ s c permitted. moves s c permitted };

    ghost replies_suit = { λ s c permitted. suits s c permitted };

    ghost replies_are_bytes = { λ s c. are_bytes s c };
}
