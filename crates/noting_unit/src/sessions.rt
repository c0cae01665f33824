//! Sessions of a unit that notes its calls.
ghost use Rattle.std.specs.Prelude.{◌≡◌, ◌≤◌, ◌^◌, [], ◌++◌, All, OnOk, length, true};
ghost use Rattle.fmi_states.specs.declared.phase.Phase.TheVariants.{Step};
ghost use Rattle.session_specs.specs.Session.{is_fresh, can_begin, is_sublist};
ghost use Rattle.session_specs.specs.Exchanges.{session_calls, close_calls};

use crate::noting::NotingUnit;
use ecu_session::{End, SessionIn, SessionOut, close, session};
use fmi_states::Ecu;
use fmu_description::Description;
use std::alloc::{AllocError, Global};

/// A session of a unit that notes its calls, and has made none. They are those that `session_calls` names
/// for the unit alone, with their replies, in order. The conditions are those of `session`.
pub fn noted_session<E: Ecu>(
    alloc: Global,
    unit: &mut NotingUnit<E>,
    shared: &mut E::Shared,
    d: &Description,
    input: &SessionIn,
) -> Result<SessionOut, AllocError>
    requires here { E.is_in unit.old.unit shared.old }
    requires phase { can_begin (E.phase_of (E.state unit.old.unit shared.old)) ≡ true }
    requires since { input.now.last ≤ input.now.moment }
    requires early { input.now.moment ≤ 2 ^ 62 }
    requires ticked { is_sublist input.now.ticked d.now.countdown ≡ true }
    requires first { is_fresh (E.phase_of (E.state unit.old.unit shared.old)) ≡ true → input.now.ticked ≡ [] }
    requires each { length input.now.inbox ≡ length d.now.terminals }
    requires short { All (λ bytes. length bytes ≤ 175) input.now.inbox }
    requires none { unit.old.exchanges ≡ [] }
    ensures { OnOk result (unit.new.exchanges
        ≡ session_calls E.answer E.phase_of d.now input.now (E.state unit.old.unit shared.old)) }
{
    session(alloc, unit, shared, d, input)
}

/// The close of a unit that notes its calls, and has made none. They are those that `close_calls` names
/// for the unit alone, with their replies, in order. The conditions are those of `close`.
pub fn noted_close<E: Ecu>(
    alloc: Global,
    unit: &mut NotingUnit<E>,
    shared: &mut E::Shared,
) -> Result<End, AllocError>
    requires here { E.is_in unit.old.unit shared.old }
    requires phase { E.phase_of (E.state unit.old.unit shared.old) ≡ Step }
    requires none { unit.old.exchanges ≡ [] }
    ensures { OnOk result (unit.new.exchanges ≡ close_calls E.answer (E.state unit.old.unit shared.old)) }
{
    close(alloc, unit, shared)
}
