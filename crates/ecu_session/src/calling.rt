//! One call of a session.
ghost use Rattle.std.specs.Prelude.{◌≡◌, IsTrue, OnOk, true, option_map, if◌then◌else◌};
ghost use Rattle.fmi_states.specs.Phase.{is_permitted, phase_after};
ghost use Rattle.fmi_states.specs.Unit.{StaysApart};
ghost use Rattle.fmi_states.specs.declared.call.Call.TheVariants.{Free};
ghost use Rattle.log_lines.specs.Lines.{cause_of};
ghost use Rattle.session_specs.specs.Replies.{fault_of, status_fault, is_freed_behind};
ghost use Rattle.session_specs.specs.Session.{effect_of};
ghost use Rattle.ecu_session.specs.Pieces.{ComesTo, UnlessMemory};

use crate::causes::Stop;
use fmi_states::{Broken, Call, Ecu, FmiStatus, Reply};
use log_lines::Cause;
use std::alloc::{AllocError, Global};

fn status_fault(status: FmiStatus) -> Option<Cause>
    ensures { option_map cause_of result ≡ status_fault status }
{
    match status {
        FmiStatus::Ok | FmiStatus::Warning => None,
        FmiStatus::Discard => Some(Cause::Status2),
        FmiStatus::Error => Some(Cause::Status3),
        FmiStatus::Fatal => Some(Cause::Status4),
    }
}

fn fault(reply: &Reply) -> Option<Cause>
    ensures { option_map cause_of result ≡ fault_of reply.now }
{
    match reply {
        Reply::Plain(status)
        | Reply::Clock(status, _)
        | Reply::Data(status, _)
        | Reply::Updated(status, _, _)
        | Reply::Interval { status, .. } => status_fault(*status),
        Reply::Broken(Broken::Trap) => Some(Cause::Trap),
        Reply::Broken(Broken::Spent) => Some(Cause::Spent),
        Reply::Broken(Broken::BadReply) => Some(Cause::BadReply),
        Reply::Broken(Broken::BadBuffer) => Some(Cause::BadBuffer),
    }
}

fn is_freed(call: &Call, cause: Cause) -> bool
    ensures { result ≡ is_freed_behind call.now (cause_of cause) }
{
    match call {
        Call::Instantiate | Call::Free => false,
        _ => matches!(cause, Cause::Status2 | Cause::Status3),
    }
}

/// Frees a unit where that is wanted. Its reply decides nothing.
pub(crate) fn free_if<E: Ecu>(
    alloc: Global,
    unit: &mut E,
    shared: &mut E::Shared,
    wanted: bool,
) -> Result<(), AllocError>
    requires here { E.is_in unit.old shared.old }
    requires permitted { wanted ≡ true → IsTrue (is_permitted (E.phase_of (E.state unit.old shared.old)) Free) }
    ensures state { OnOk result (E.state unit.new shared.new
        ≡ (if wanted then (E.answer (E.state unit.old shared.old) Free).1 else E.state unit.old shared.old)) }
    ensures apart { StaysApart E.Ecu (OnOk result) unit.old unit.new shared.old shared.new }
{
    if wanted {
        let _ = unit.call(alloc, shared, &Call::Free)?;
    }
    Ok(())
}

/// Makes one call of a session. Behind a fault the unit is freed where it refused the call and has an instance.
#[tactic(auto, using(session_laws::proofs::Freed::freed_permits, fmi_states::proofs::Spared::spares_on))]
pub(crate) fn make_call<E: Ecu>(
    alloc: Global,
    unit: &mut E,
    shared: &mut E::Shared,
    call: &Call,
) -> Result<Reply, Stop>
    requires here { E.is_in unit.old shared.old }
    requires permitted { IsTrue (is_permitted (E.phase_of (E.state unit.old shared.old)) call.now) }
    ensures gives { ComesTo (λ reply. reply) result (E.state unit.new shared.new)
        (effect_of E.answer call.now (E.state unit.old shared.old)) }
    ensures phase { OnOk result (E.phase_of (E.state unit.new shared.new) ≡ phase_after call.now) }
    ensures apart { StaysApart E.Ecu (UnlessMemory result) unit.old unit.new shared.old shared.new }
{
    let reply = unit.call(alloc, shared, call)?;
    match fault(&reply) {
        None => Ok(reply),
        Some(cause) => {
            free_if(alloc, unit, shared, is_freed(call, cause))?;
            Err(Stop::Down(cause))
        }
    }
}
