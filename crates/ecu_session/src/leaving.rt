//! The ways out of Event Mode.
ghost use Rattle.std.specs.Prelude.{◌≡◌, ◌≤◌, ◌^◌, true};
ghost use Rattle.fmi_states.specs.declared.phase.Phase.TheVariants.{Event};
ghost use Rattle.fmi_states.specs.Unit.{StaysApart};
ghost use Rattle.session_specs.specs.Session.{can_terminate, termination_calls, exit_calls};
ghost use Rattle.ecu_session.specs.Pieces.{ComesTo, UnlessMemory};

use crate::calling::{free_if, make_call};
use crate::causes::Stop;
use crate::dues::Dues;
use crate::emissions::Emissions;
use crate::ends::End;
use crate::inputs::SessionIn;
use crate::intervals::ask_intervals;
use crate::outcome::SessionOut;
use fmi_states::{Call, Ecu};
use fmu_description::Description;
use std::alloc::Global;

/// Terminates and frees a unit.
#[tactic(auto, using(fmi_states::proofs::Spared::spares_on))]
pub(crate) fn terminate<E: Ecu>(
    alloc: Global,
    unit: &mut E,
    shared: &mut E::Shared,
) -> Result<(), Stop>
    requires here { E.is_in unit.old shared.old }
    requires phase { can_terminate (E.phase_of (E.state unit.old shared.old)) ≡ true }
    ensures gives { ComesTo (λ _. tt) result (E.state unit.new shared.new)
        (termination_calls E.answer (E.state unit.old shared.old)) }
    ensures apart { StaysApart E.Ecu (UnlessMemory result) unit.old unit.new shared.old shared.new }
{
    let _ = make_call(alloc, unit, shared, &Call::Terminate)?;
    free_if(alloc, unit, shared, true)?;
    Ok(())
}

/// Leaves Event Mode: by the end of the unit where it asked for that, else to Step Mode.
#[tactic(auto, using(fmi_states::proofs::Spared::spares_on))]
pub(crate) fn leave_event_mode<E: Ecu>(
    alloc: Global,
    unit: &mut E,
    shared: &mut E::Shared,
    d: &Description,
    input: &SessionIn,
    emitted: Emissions,
    ends: bool,
) -> Result<SessionOut, Stop>
    requires early { input.now.moment ≤ 2 ^ 62 }
    requires here { E.is_in unit.old shared.old }
    requires phase { E.phase_of (E.state unit.old shared.old) ≡ Event }
    ensures gives { ComesTo (λ out. out) result (E.state unit.new shared.new)
        (exit_calls E.answer d.now input.now emitted ends (E.state unit.old shared.old)) }
    ensures apart { StaysApart E.Ecu (UnlessMemory result) unit.old unit.new shared.old shared.new }
{
    let clocks = d.countdown.as_slice();
    if ends {
        terminate(alloc, unit, shared)?;
        let dues = Dues::all_kept(alloc, clocks)?;
        return Ok(SessionOut {
            emitted,
            dues,
            end: End::Over,
        });
    }
    let mut dues = Dues::new(alloc);
    ask_intervals(alloc, unit, shared, input, clocks, &mut dues)?;
    let _ = make_call(alloc, unit, shared, &Call::EnterStep)?;
    Ok(SessionOut {
        emitted,
        dues,
        end: End::Live,
    })
}
