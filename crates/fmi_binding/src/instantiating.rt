//! The exchange of any call: the instantiation is one of its own.
ghost use Rattle.std.specs.Prelude.{◌≡◌, ◌≤◌, None, IfOk};
ghost use Rattle.fmi_states.specs.declared.phase.Phase.{Phase};
ghost use Rattle.fmi_states.specs.declared.call.Call.TheVariants.{Instantiate};
ghost use Rattle.wasm_types.specs.Back.{nested_module};
ghost use Rattle.code_specs.specs.Stores.{Store};
ghost use Rattle.wasm_machine.specs.Instances.{Stands, Leaves};
ghost use Rattle.binding_specs.specs.Exports.{binding_fault};
ghost use Rattle.binding_specs.specs.Guests.{greatest_size};
ghost use Rattle.binding_specs.specs.Exchanges.{is_fine, reply_if, exchange};
ghost use Rattle.fmi_binding.specs.Coming.{Comes, held, guest_with};

use crate::asking::{ask_area, start};
use crate::bound_unit::BoundUnit;
use crate::exchanging::exchange;
use crate::guests::Guests;
use crate::replies::is_fine;
use crate::running::call_status;
use binding_specs::Function;
use fmi_states::{Broken, Call, FmiStatus, Reply};
use std::alloc::{AllocError, Global};
use wasm_machine::Instance;

/// What is replied with the status of an instantiation: where that is fine, the area has its place from now on.
fn reply_placed(
    alloc: Global,
    guests: &mut Guests,
    instance: &mut Instance,
    bound: &BoundUnit,
    area: &mut u32,
    status: FmiStatus,
) -> Result<Result<Reply, Broken>, AllocError>
    requires stands { Stands bound.now.code guests.old.pool instance.old }
    requires bound { binding_fault (nested_module bound.now.code) ≡ None }
    requires sizes { greatest_size bound.now.description.terminals ≤ 65536 }
    requires area { area.old ≤ 16777216 }
    ensures comes { IfOk result (λ r. (phase : Phase) (s : Store) → Comes (reply_if (is_fine status) (guest_with bound.now phase area.old s) Instantiate status)
        (held guests.old.pool instance.old area.old) (held guests.new.pool instance.new area.new) r) }
    ensures area { area.new ≤ 16777216 }
    ensures leaves { Leaves bound.now.code guests.old.pool guests.new.pool instance.old instance.new }
{
    if !is_fine(status) {
        return Ok(Ok(Reply::Plain(status)));
    }
    match ask_area(alloc, guests, instance, bound)? {
        Err(why) => Ok(Err(why)),
        Ok(address) => {
            *area = address;
            Ok(Ok(Reply::Plain(status)))
        }
    }
}

/// The exchange of an instantiation.
fn instantiate(
    alloc: Global,
    guests: &mut Guests,
    instance: &mut Instance,
    bound: &BoundUnit,
    area: &mut u32,
) -> Result<Result<Reply, Broken>, AllocError>
    requires stands { Stands bound.now.code guests.old.pool instance.old }
    requires bound { binding_fault (nested_module bound.now.code) ≡ None }
    requires sizes { greatest_size bound.now.description.terminals ≤ 65536 }
    requires area { area.old ≤ 16777216 }
    ensures comes { IfOk result (λ r. (phase : Phase) (s : Store) → Comes (exchange (guest_with bound.now phase area.old s) Instantiate)
        (held guests.old.pool instance.old area.old) (held guests.new.pool instance.new area.new) r) }
    ensures area { area.new ≤ 16777216 }
    ensures leaves { Leaves bound.now.code guests.old.pool guests.new.pool instance.old instance.new }
{
    match start(alloc, guests, instance, bound)? {
        Err(why) => return Ok(Err(why)),
        Ok(()) => {}
    }
    match call_status(alloc, guests, instance, bound, Function::Instantiate, &[])? {
        Err(why) => Ok(Err(why)),
        Ok(status) => reply_placed(alloc, guests, instance, bound, area, status),
    }
}

/// The exchange of a call. Behind an instantiation the area may have another place.
pub(crate) fn exchange_any(
    alloc: Global,
    guests: &mut Guests,
    instance: &mut Instance,
    bound: &BoundUnit,
    area: &mut u32,
    call: &Call,
) -> Result<Result<Reply, Broken>, AllocError>
    requires stands { Stands bound.now.code guests.old.pool instance.old }
    requires bound { binding_fault (nested_module bound.now.code) ≡ None }
    requires sizes { greatest_size bound.now.description.terminals ≤ 65536 }
    requires area { area.old ≤ 16777216 }
    ensures comes { IfOk result (λ r. (phase : Phase) (s : Store) → Comes (exchange (guest_with bound.now phase area.old s) call.now)
        (held guests.old.pool instance.old area.old) (held guests.new.pool instance.new area.new) r) }
    ensures area { area.new ≤ 16777216 }
    ensures leaves { Leaves bound.now.code guests.old.pool guests.new.pool instance.old instance.new }
{
    match call {
        Call::Instantiate => instantiate(alloc, guests, instance, bound, area),
        _ => exchange(alloc, guests, instance, bound, *area, call),
    }
}
