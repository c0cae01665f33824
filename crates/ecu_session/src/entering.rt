//! The way to Event Mode, and the inputs of the first iteration.
ghost use Rattle.std.specs.Prelude.{◌≡◌, ◌<◌, ◌≤◌, ◌-◌, length, OnOk, true, false};
ghost use Rattle.fmi_states.specs.declared.phase.Phase.TheVariants.{Event, Fresh, Step};
ghost use Rattle.fmi_states.specs.Unit.{StaysApart};
ghost use Rattle.session_specs.specs.Sequence.{in_order};
ghost use Rattle.session_specs.specs.Session.{entry_calls, clock_tick, delivery_of, delivery_from, input_calls};
ghost use Rattle.ecu_session.specs.Pieces.{ComesTo, UnlessMemory};

use crate::calling::make_call;
use crate::causes::Stop;
use crate::inputs::SessionIn;
use can_frame::Bytes;
use fmi_states::{Call, Ecu, Reply};
use fmu_description::{Description, Terminal};
use std::alloc::Global;

/// Leads a unit to Event Mode: a new one by its initialization, a live one by a step to the moment of the session.
#[tactic(auto, using(fmi_states::proofs::Spared::spares_on))]
pub(crate) fn enter_event_mode<E: Ecu>(
    alloc: Global,
    unit: &mut E,
    shared: &mut E::Shared,
    is_new: bool,
    input: &SessionIn,
) -> Result<Reply, Stop>
    requires here { E.is_in unit.old shared.old }
    requires since { input.now.last ≤ input.now.moment }
    requires fresh { is_new ≡ true → E.phase_of (E.state unit.old shared.old) ≡ Fresh }
    requires stepping { is_new ≡ false → E.phase_of (E.state unit.old shared.old) ≡ Step }
    ensures gives { ComesTo (λ reply. reply) result (E.state unit.new shared.new)
        (entry_calls E.answer is_new input.now (E.state unit.old shared.old)) }
    ensures phase { OnOk result (E.phase_of (E.state unit.new shared.new) ≡ Event) }
    ensures apart { StaysApart E.Ecu (UnlessMemory result) unit.old unit.new shared.old shared.new }
{
    if is_new {
        let _ = make_call(alloc, unit, shared, &Call::Instantiate)?;
        let _ = make_call(alloc, unit, shared, &Call::EnterInit)?;
        make_call(alloc, unit, shared, &Call::ExitInit)
    } else {
        let step = Call::DoStep {
            from: input.last,
            size: input.moment - input.last,
        };
        let _ = make_call(alloc, unit, shared, &step)?;
        make_call(alloc, unit, shared, &Call::EnterEvent)
    }
}

/// Ticks countdown clocks.
#[tactic(auto, using(fmi_states::proofs::Spared::spares_on, crate::proofs::Orders::goes_through))]
fn tick_clocks<E: Ecu>(
    alloc: Global,
    unit: &mut E,
    shared: &mut E::Shared,
    clocks: &[u32],
) -> Result<(), Stop>
    requires here { E.is_in unit.old shared.old }
    requires phase { E.phase_of (E.state unit.old shared.old) ≡ Event }
    ensures gives { ComesTo (λ _. tt) result (E.state unit.new shared.new)
        (in_order (clock_tick E.answer) 0 clocks.now tt (E.state unit.old shared.old)) }
    ensures phase { OnOk result (E.phase_of (E.state unit.new shared.new) ≡ Event) }
    ensures apart { StaysApart E.Ecu (UnlessMemory result) unit.old unit.new shared.old shared.new }
{
    for clock in clocks {
        let _ = make_call(alloc, unit, shared, &Call::SetClock(*clock))?;
    }
    Ok(())
}

/// Gives a terminal its bytes, where any came.
#[tactic(auto, using(fmi_states::proofs::Spared::spares_on))]
fn deliver<E: Ecu>(
    alloc: Global,
    unit: &mut E,
    shared: &mut E::Shared,
    terminal: &Terminal,
    bytes: &Bytes,
) -> Result<(), Stop>
    requires here { E.is_in unit.old shared.old }
    requires phase { E.phase_of (E.state unit.old shared.old) ≡ Event }
    ensures gives { ComesTo (λ _. tt) result (E.state unit.new shared.new)
        (delivery_of E.answer terminal.now bytes.now (E.state unit.old shared.old)) }
    ensures phase { OnOk result (E.phase_of (E.state unit.new shared.new) ≡ Event) }
    ensures apart { StaysApart E.Ecu (UnlessMemory result) unit.old unit.new shared.old shared.new }
{
    let bytes = bytes.as_slice();
    if bytes.is_empty() {
        return Ok(());
    }
    let _ = make_call(alloc, unit, shared, &Call::SetClock(terminal.rx_clock))?;
    let call = Call::SetBinary(terminal.rx_data, Bytes::of(bytes.to_vec(alloc)?));
    let _ = make_call(alloc, unit, shared, &call)?;
    Ok(())
}

/// Gives the terminals their bytes.
#[tactic(auto, using(fmi_states::proofs::Spared::spares_on, crate::proofs::Orders::goes_through))]
fn deliver_all<E: Ecu>(
    alloc: Global,
    unit: &mut E,
    shared: &mut E::Shared,
    terminals: &[Terminal],
    inbox: &[Bytes],
) -> Result<(), Stop>
    requires each { length inbox.now ≡ length terminals.now }
    requires here { E.is_in unit.old shared.old }
    requires phase { E.phase_of (E.state unit.old shared.old) ≡ Event }
    ensures gives { ComesTo (λ _. tt) result (E.state unit.new shared.new)
        (in_order (delivery_from E.answer inbox.now) 0 terminals.now tt (E.state unit.old shared.old)) }
    ensures phase { OnOk result (E.phase_of (E.state unit.new shared.new) ≡ Event) }
    ensures apart { StaysApart E.Ecu (UnlessMemory result) unit.old unit.new shared.old shared.new }
{
    for (n, terminal) in terminals.iter().enumerate() {
        deliver(alloc, unit, shared, terminal, &inbox[n])?;
    }
    Ok(())
}

/// Gives the inputs: the ticks of countdown clocks, then the bytes that came in.
#[tactic(auto, using(fmi_states::proofs::Spared::spares_on))]
pub(crate) fn give_inputs<E: Ecu>(
    alloc: Global,
    unit: &mut E,
    shared: &mut E::Shared,
    d: &Description,
    input: &SessionIn,
) -> Result<(), Stop>
    requires each { length input.now.inbox ≡ length d.now.terminals }
    requires here { E.is_in unit.old shared.old }
    requires phase { E.phase_of (E.state unit.old shared.old) ≡ Event }
    ensures gives { ComesTo (λ _. tt) result (E.state unit.new shared.new)
        (input_calls E.answer d.now input.now (E.state unit.old shared.old)) }
    ensures phase { OnOk result (E.phase_of (E.state unit.new shared.new) ≡ Event) }
    ensures apart { StaysApart E.Ecu (UnlessMemory result) unit.old unit.new shared.old shared.new }
{
    tick_clocks(alloc, unit, shared, input.ticked.as_slice())?;
    deliver_all(alloc, unit, shared, &d.terminals, input.inbox.as_slice())
}
