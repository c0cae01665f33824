//! A session, and the close of a unit.
ghost use Rattle.std.specs.Prelude.{◌≡◌, ◌≤◌, ◌^◌, ◌+◌, ◌*◌, All, IfOk, OnOk, [], length, true};
ghost use Rattle.fmi_states.specs.declared.phase.Phase.TheVariants.{Step};
ghost use Rattle.fmi_states.specs.Unit.{StaysApart};
ghost use Rattle.session_specs.specs.Session.{all_calls, session_of, close_of, is_fresh, can_begin, is_sublist, phase_behind};
ghost use Rattle.session_specs.specs.Exchanges.{session_calls, close_calls, IsRun};
ghost use Rattle.ecu_session.specs.Pieces.{ComesTo, UnlessMemory};
ghost use Rattle.ecu_session.specs.Words.{end_of};

use crate::causes::Stop;
use crate::dues::Dues;
use crate::emissions::Emissions;
use crate::ends::End;
use crate::entering::{enter_event_mode, give_inputs};
use crate::inputs::SessionIn;
use crate::iterating::iterate;
use crate::leaving::{leave_event_mode, terminate};
use crate::outcome::SessionOut;
use fmi_states::{Ecu, Phase};
use fmu_description::Description;
use std::alloc::{AllocError, Global};

/// All calls of a session, up to its end or to what takes the unit down.
#[tactic(auto, using(fmi_states::proofs::Spared::spares_on))]
fn run<E: Ecu>(
    alloc: Global,
    unit: &mut E,
    shared: &mut E::Shared,
    d: &Description,
    input: &SessionIn,
) -> Result<SessionOut, Stop>
    requires since { input.now.last ≤ input.now.moment }
    requires early { input.now.moment ≤ 2 ^ 62 }
    requires each { length input.now.inbox ≡ length d.now.terminals }
    requires here { E.is_in unit.old shared.old }
    requires phase { can_begin (E.phase_of (E.state unit.old shared.old)) ≡ true }
    ensures gives { ComesTo (λ out. out) result (E.state unit.new shared.new)
        (all_calls E.answer d.now input.now (is_fresh (E.phase_of (E.state unit.old shared.old))) (E.state unit.old shared.old)) }
    ensures apart { StaysApart E.Ecu (UnlessMemory result) unit.old unit.new shared.old shared.new }
{
    let is_new = matches!(unit.phase(), Phase::Fresh);
    let _ = enter_event_mode(alloc, unit, shared, is_new, input)?;
    give_inputs(alloc, unit, shared, d, input)?;
    let mut emitted = Emissions::new(alloc);
    let ends = iterate(alloc, unit, shared, &d.terminals, &mut emitted)?;
    leave_event_mode(alloc, unit, shared, d, input, emitted, ends)
}

/// A session, with what comes of it where the unit is down.
#[tactic(auto, using(fmi_states::proofs::Spared::spares_on))]
fn conclude<E: Ecu>(
    alloc: Global,
    unit: &mut E,
    shared: &mut E::Shared,
    d: &Description,
    input: &SessionIn,
) -> Result<SessionOut, AllocError>
    requires since { input.now.last ≤ input.now.moment }
    requires early { input.now.moment ≤ 2 ^ 62 }
    requires each { length input.now.inbox ≡ length d.now.terminals }
    requires here { E.is_in unit.old shared.old }
    requires phase { can_begin (E.phase_of (E.state unit.old shared.old)) ≡ true }
    ensures session { IfOk result (λ out. session_of E.answer E.phase_of d.now input.now (E.state unit.old shared.old)
        ≡ (out, E.state unit.new shared.new)) }
    ensures apart { StaysApart E.Ecu (OnOk result) unit.old unit.new shared.old shared.new }
{
    match run(alloc, unit, shared, d, input) {
        Ok(out) => Ok(out),
        Err(Stop::Down(why)) => {
            let dues = Dues::all_kept(alloc, d.countdown.as_slice())?;
            Ok(SessionOut {
                emitted: Emissions::new(alloc),
                dues,
                end: End::Down(why),
            })
        }
        Err(Stop::Memory) => Err(AllocError),
    }
}

/// A session of a unit at one moment (FMI 3.0, sections 2.3 and 4.2), which opens it exactly where it is Fresh.
///
/// The moment is at most 2^62 ticks, `last` isn't after it, and nothing comes in by a terminal that isn't there.
/// After want of memory nothing is known of the unit and its own parts.
pub fn session<E: Ecu>(
    alloc: Global,
    unit: &mut E,
    shared: &mut E::Shared,
    d: &Description,
    input: &SessionIn,
) -> Result<SessionOut, AllocError>
    // The unit is new, or goes on from its last session.
    requires here { E.is_in unit.old shared.old }
    requires phase { can_begin (E.phase_of (E.state unit.old shared.old)) ≡ true }
    requires since { input.now.last ≤ input.now.moment }
    requires early { input.now.moment ≤ 2 ^ 62 }

    // Countdown clocks tick in the order of the description, each once, and none of a new unit.
    requires ticked { is_sublist input.now.ticked d.now.countdown ≡ true }
    requires first { is_fresh (E.phase_of (E.state unit.old shared.old)) ≡ true → input.now.ticked ≡ [] }

    // Each terminal gets its bytes, at most 175.
    requires each { length input.now.inbox ≡ length d.now.terminals }
    requires short { All (λ bytes. length bytes ≤ 175) input.now.inbox }

    // What comes of the session and the state behind it.
    ensures session { IfOk result (λ out. session_of E.answer E.phase_of d.now input.now (E.state unit.old shared.old)
        ≡ (out, E.state unit.new shared.new)) }

    // Its calls lead there, each permitted and answered as the unit answers, and they are few.
    ensures calls { OnOk result (IsRun E.answer E.phase_of (E.state unit.old shared.old)
        (session_calls E.answer E.phase_of d.now input.now (E.state unit.old shared.old)) (E.state unit.new shared.new)) }
    ensures few { length d.now.countdown ≤ 8
        → length (session_calls E.answer E.phase_of d.now input.now (E.state unit.old shared.old)) ≤ 37 + 34 * length d.now.terminals }

    // The end tells the phase. Every part of the shared value but the unit's own is as it was.
    ensures phase { IfOk result (λ out. E.phase_of (E.state unit.new shared.new) ≡ phase_behind out.end) }
    ensures apart { StaysApart E.Ecu (OnOk result) unit.old unit.new shared.old shared.new }
{
    conclude(alloc, unit, shared, d, input)
}

/// A close, with its end.
#[tactic(auto, using(fmi_states::proofs::Spared::spares_on))]
fn shut<E: Ecu>(alloc: Global, unit: &mut E, shared: &mut E::Shared) -> Result<End, AllocError>
    requires here { E.is_in unit.old shared.old }
    requires phase { E.phase_of (E.state unit.old shared.old) ≡ Step }
    ensures close { IfOk result (λ end. close_of E.answer (E.state unit.old shared.old) ≡ (end_of end, E.state unit.new shared.new)) }
    ensures apart { StaysApart E.Ecu (OnOk result) unit.old unit.new shared.old shared.new }
{
    match terminate(alloc, unit, shared) {
        Ok(()) => Ok(End::Over),
        Err(Stop::Down(why)) => Ok(End::Down(why)),
        Err(Stop::Memory) => Err(AllocError),
    }
}

/// Closes a unit that is live when the simulation ends. It is Over where Terminate was answered by OK or Warning,
/// else Down. After want of memory nothing is known of the unit and its own parts.
pub fn close<E: Ecu>(alloc: Global, unit: &mut E, shared: &mut E::Shared) -> Result<End, AllocError>
    requires here { E.is_in unit.old shared.old }
    requires phase { E.phase_of (E.state unit.old shared.old) ≡ Step }
    ensures close { IfOk result (λ end. close_of E.answer (E.state unit.old shared.old) ≡ (end_of end, E.state unit.new shared.new)) }
    ensures calls { OnOk result (IsRun E.answer E.phase_of (E.state unit.old shared.old)
        (close_calls E.answer (E.state unit.old shared.old)) (E.state unit.new shared.new)) }
    ensures few { length (close_calls E.answer (E.state unit.old shared.old)) ≤ 3 }
    ensures phase { IfOk result (λ end. E.phase_of (E.state unit.new shared.new) ≡ phase_behind (end_of end)) }
    ensures apart { StaysApart E.Ecu (OnOk result) unit.old unit.new shared.old shared.new }
{
    shut(alloc, unit, shared)
}
