//! The instantiation of a guest.
ghost use Rattle.std.specs.Prelude.{◌≡◌, ℕ, ◌≤◌, None, IfOk};
ghost use Rattle.fmi_states.specs.declared.phase.Phase.{Phase};
ghost use Rattle.fmi_states.specs.declared.call.Call.TheVariants.{Instantiate};
ghost use Rattle.wasm_types.specs.Back.{nested_module};
ghost use Rattle.code_specs.specs.Stores.{Store};
ghost use Rattle.wasm_machine.specs.Instances.{Stands, Leaves};
ghost use Rattle.binding_specs.specs.Exports.{binding_fault};
ghost use Rattle.binding_specs.specs.Guests.{greatest_size};
ghost use Rattle.binding_specs.specs.Exchanges.{prepares, asks_area};
ghost use Rattle.fmi_binding.specs.Coming.{Comes, held, guest_with, area_after, done_in};

use crate::bound_unit::BoundUnit;
use crate::guests::Guests;
use crate::running::{call_function, run};
use crate::sizes::{address_in, area_size};
use binding_specs::Function;
use fmi_states::Broken;
use std::alloc::{AllocError, Global};
use wasm_machine::Instance;

/// Runs the start function, if there is one.
pub(crate) fn start(
    alloc: Global,
    guests: &mut Guests,
    instance: &mut Instance,
    bound: &BoundUnit,
) -> Result<Result<(), Broken>, AllocError>
    requires stands { Stands bound.now.code guests.old.pool instance.old }
    ensures comes { IfOk result (λ r. (phase : Phase) (s : Store) (area : ℕ) → Comes (prepares (guest_with bound.now phase area s) Instantiate)
        (held guests.old.pool instance.old area) (held guests.new.pool instance.new area) r) }
    ensures leaves { Leaves bound.now.code guests.old.pool guests.new.pool instance.old instance.new }
{
    match bound.code.module().start {
        None => Ok(Ok(())),
        Some(index) => {
            match run(
                alloc,
                guests,
                instance,
                &bound.code,
                bound.budget,
                index,
                &[],
            )? {
                Err(why) => Ok(Err(why)),
                Ok(_) => Ok(Ok(())),
            }
        }
    }
}

/// Asks the guest where its area lies, and gives the address if the area lies in the memory.
pub(crate) fn ask_area(
    alloc: Global,
    guests: &mut Guests,
    instance: &mut Instance,
    bound: &BoundUnit,
) -> Result<Result<u32, Broken>, AllocError>
    requires stands { Stands bound.now.code guests.old.pool instance.old }
    requires bound { binding_fault (nested_module bound.now.code) ≡ None }
    requires sizes { greatest_size bound.now.description.terminals ≤ 65536 }
    ensures comes { IfOk result (λ r. (phase : Phase) (s : Store) (area : ℕ) → Comes (asks_area (guest_with bound.now phase area s))
        (held guests.old.pool instance.old area) (held guests.new.pool instance.new (area_after area r)) (done_in r)) }
    ensures within { IfOk result (λ r. IfOk r (λ address. address ≤ 16777216)) }
    ensures leaves { Leaves bound.now.code guests.old.pool guests.new.pool instance.old instance.new }
{
    let size = area_size(&bound.description);
    let arguments = [u64::from(size)];
    let returned = call_function(alloc, guests, instance, bound, Function::Area, &arguments)?;
    Ok(address_in(returned, size, instance.pages()))
}
