//! The session and the close of one unit of several over one shared value.
ghost use Rattle.std.specs.Prelude.{◌≡◌, ◌<◌, IfOk, OnOk, length, map};
ghost use Rattle.ecu_session.specs.Words.{end_of};
ghost use Rattle.world_core.specs.Sitting.{Closed, IsInput, MayClose, MaySit, Sat};
ghost use Rattle.world_core.specs.Units.{AreApart, states_of};

use ecu_session::{End, SessionIn, SessionOut, close, session};
use fmi_states::Ecu;
use fmu_description::Description;
use std::alloc::{AllocError, Global};

/// The session of the unit at a place. The other units stay as they were.
pub(crate) fn session_at<E: Ecu>(
    alloc: Global,
    ecus: &mut Vec<E>,
    shared: &mut E::Shared,
    place: u32,
    d: &Description,
    input: &SessionIn,
) -> Result<SessionOut, AllocError>
    requires there { place < length ecus.old.items }
    requires apart { AreApart E.Ecu ecus.old.items shared.old }
    requires may { MaySit E.Ecu input.now place ecus.old.items shared.old }
    requires input { IsInput d.now input.now }
    ensures sat { IfOk result (λ out. Sat E.Ecu d.now input.now place (states_of E.Ecu ecus.old.items shared.old) out (states_of E.Ecu ecus.new.items shared.new)) }
    ensures apart { OnOk result (AreApart E.Ecu ecus.new.items shared.new) }
    ensures parts { OnOk result (map E.parts ecus.new.items ≡ map E.parts ecus.old.items) }
    ensures each { OnOk result (length ecus.new.items ≡ length ecus.old.items) }
{
    let ecu = &mut ecus[place as usize];
    let out = session(alloc, ecu, shared, d, input)?;
    Ok(out)
}

/// The close of the unit at a place. The other units stay as they were.
pub(crate) fn close_at<E: Ecu>(
    alloc: Global,
    ecus: &mut Vec<E>,
    shared: &mut E::Shared,
    place: u32,
) -> Result<End, AllocError>
    requires there { place < length ecus.old.items }
    requires apart { AreApart E.Ecu ecus.old.items shared.old }
    requires may { MayClose E.Ecu place ecus.old.items shared.old }
    ensures closed { IfOk result (λ end. Closed E.Ecu place (states_of E.Ecu ecus.old.items shared.old) (end_of end) (states_of E.Ecu ecus.new.items shared.new)) }
    ensures apart { OnOk result (AreApart E.Ecu ecus.new.items shared.new) }
    ensures parts { OnOk result (map E.parts ecus.new.items ≡ map E.parts ecus.old.items) }
    ensures each { OnOk result (length ecus.new.items ≡ length ecus.old.items) }
{
    let ecu = &mut ecus[place as usize];
    let end = close(alloc, ecu, shared)?;
    Ok(end)
}
