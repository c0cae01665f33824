//! The exchange of a call that isn't the instantiation.
ghost use Rattle.std.specs.Prelude.{◌≡◌, ◌≤◌, None, IfOk, false};
ghost use Rattle.fmi_states.specs.declared.phase.Phase.{Phase};
ghost use Rattle.wasm_types.specs.Back.{nested_module};
ghost use Rattle.code_specs.specs.Stores.{Store};
ghost use Rattle.wasm_machine.specs.Instances.{Stands, Leaves};
ghost use Rattle.binding_specs.specs.Exports.{binding_fault};
ghost use Rattle.binding_specs.specs.Exchanges.{exchange};
ghost use Rattle.binding_laws.specs.Words.{is_instantiation};
ghost use Rattle.fmi_binding.specs.Coming.{Comes, held, guest_with};

use crate::bound_unit::BoundUnit;
use crate::guests::Guests;
use crate::preparing::{prepare, status_by};
use crate::replies::reply_with;
use fmi_states::{Broken, Call, Reply};
use std::alloc::{AllocError, Global};
use wasm_machine::Instance;

/// The exchange of a call that isn't the instantiation.
pub(crate) fn exchange(
    alloc: Global,
    guests: &mut Guests,
    instance: &mut Instance,
    bound: &BoundUnit,
    area: u32,
    call: &Call,
) -> Result<Result<Reply, Broken>, AllocError>
    requires stands { Stands bound.now.code guests.old.pool instance.old }
    requires bound { binding_fault (nested_module bound.now.code) ≡ None }
    requires area { area ≤ 16777216 }
    requires other { is_instantiation call.now ≡ false }
    ensures comes { IfOk result (λ r. (phase : Phase) (s : Store) → Comes (exchange (guest_with bound.now phase area s) call.now)
        (held guests.old.pool instance.old area) (held guests.new.pool instance.new area) r) }
    ensures leaves { Leaves bound.now.code guests.old.pool guests.new.pool instance.old instance.new }
{
    match prepare(alloc, guests, instance, bound, area, call)? {
        Err(why) => return Ok(Err(why)),
        Ok(()) => {}
    }
    match status_by(alloc, guests, instance, bound, call)? {
        Err(why) => Ok(Err(why)),
        Ok(status) => reply_with(alloc, guests, instance, bound, area, call, status),
    }
}
