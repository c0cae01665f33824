//! The iterations in Event Mode.
ghost use Rattle.std.specs.Prelude.{◌≡◌, ◌<◌, ◌≤◌, [], OnOk, length};
ghost use Rattle.fmi_states.specs.declared.phase.Phase.TheVariants.{Event};
ghost use Rattle.fmi_states.specs.Reply.{bytes_in};
ghost use Rattle.fmi_states.specs.Unit.{StaysApart};
ghost use Rattle.session_specs.specs.Sequence.{in_order};
ghost use Rattle.session_specs.specs.Replies.{ticks_by, wish_of};
ghost use Rattle.session_specs.specs.Session.{emission_of, iteration, iteration_of, transmitted, iterations};
ghost use Rattle.ecu_session.specs.Words.{wish_word};
ghost use Rattle.ecu_session.specs.Pieces.{ComesTo, UnlessMemory};

use crate::calling::make_call;
use crate::causes::Stop;
use crate::emissions::{Emission, Emissions};
use can_frame::Bytes;
use fmi_states::{Call, Ecu, Reply};
use fmu_description::Terminal;
use log_lines::Cause;
use std::alloc::Global;

fn ticks(reply: &Reply) -> bool
    ensures { result ≡ ticks_by reply.now }
{
    match reply {
        Reply::Clock(_, ticks) => *ticks,
        _ => false,
    }
}

fn into_bytes(alloc: Global, reply: Reply) -> Bytes
    ensures { result ≡ bytes_in reply }
{
    match reply {
        Reply::Data(_, bytes) => bytes,
        _ => Bytes::of(Vec::new(alloc)),
    }
}

/// What an update asks for.
#[derive(Clone, Copy)]
pub(crate) enum Wish {
    /// Another update.
    AnotherUpdate,
    /// Nothing.
    NoUpdate,
    /// The end of the simulation.
    TheEnd,
}

fn wish_in(reply: &Reply) -> Wish
    ensures { wish_word result ≡ wish_of reply.now }
{
    match reply {
        Reply::Updated(_, _, true) => Wish::TheEnd,
        Reply::Updated(_, true, false) => Wish::AnotherUpdate,
        _ => Wish::NoUpdate,
    }
}

/// Adds what a terminal transmits, where its output clock ticks.
#[tactic(auto, using(fmi_states::proofs::Spared::spares_on))]
fn emit<E: Ecu>(
    alloc: Global,
    unit: &mut E,
    shared: &mut E::Shared,
    place: usize,
    terminal: &Terminal,
    emitted: &mut Emissions,
) -> Result<(), Stop>
    requires here { E.is_in unit.old shared.old }
    requires phase { E.phase_of (E.state unit.old shared.old) ≡ Event }
    ensures gives { ComesTo (λ _. emitted.new) result (E.state unit.new shared.new)
        (emission_of E.answer place terminal.now emitted.old (E.state unit.old shared.old)) }
    ensures phase { OnOk result (E.phase_of (E.state unit.new shared.new) ≡ Event) }
    ensures apart { StaysApart E.Ecu (UnlessMemory result) unit.old unit.new shared.old shared.new }
{
    let clock = make_call(alloc, unit, shared, &Call::GetClock(terminal.tx_clock))?;
    if !ticks(&clock) {
        return Ok(());
    }
    let reply = make_call(alloc, unit, shared, &Call::GetBinary(terminal.tx_data))?;
    emitted.push(Emission {
        terminal: place,
        bytes: into_bytes(alloc, reply),
    })?;
    Ok(())
}

/// Adds what the terminals transmit.
#[tactic(auto, using(fmi_states::proofs::Spared::spares_on, crate::proofs::Orders::goes_through))]
fn emit_all<E: Ecu>(
    alloc: Global,
    unit: &mut E,
    shared: &mut E::Shared,
    terminals: &[Terminal],
    emitted: &mut Emissions,
) -> Result<(), Stop>
    requires here { E.is_in unit.old shared.old }
    requires phase { E.phase_of (E.state unit.old shared.old) ≡ Event }
    ensures gives { ComesTo (λ _. emitted.new) result (E.state unit.new shared.new)
        (in_order (emission_of E.answer) 0 terminals.now emitted.old (E.state unit.old shared.old)) }
    ensures phase { OnOk result (E.phase_of (E.state unit.new shared.new) ≡ Event) }
    ensures apart { StaysApart E.Ecu (UnlessMemory result) unit.old unit.new shared.old shared.new }
{
    for (n, terminal) in terminals.iter().enumerate() {
        emit(alloc, unit, shared, n, terminal, emitted)?;
    }
    Ok(())
}

/// One iteration, with what its update asks for.
#[tactic(auto, using(fmi_states::proofs::Spared::spares_on))]
fn iterate_once<E: Ecu>(
    alloc: Global,
    unit: &mut E,
    shared: &mut E::Shared,
    terminals: &[Terminal],
    emitted: &mut Emissions,
) -> Result<Wish, Stop>
    requires here { E.is_in unit.old shared.old }
    requires phase { E.phase_of (E.state unit.old shared.old) ≡ Event }
    ensures gives { ComesTo (λ wish. iteration emitted.new (wish_word wish)) result (E.state unit.new shared.new)
        (iteration_of E.answer terminals.now emitted.old (E.state unit.old shared.old)) }
    ensures phase { OnOk result (E.phase_of (E.state unit.new shared.new) ≡ Event) }
    ensures apart { StaysApart E.Ecu (UnlessMemory result) unit.old unit.new shared.old shared.new }
{
    emit_all(alloc, unit, shared, terminals, emitted)?;
    let reply = make_call(alloc, unit, shared, &Call::Update)?;
    Ok(wish_in(&reply))
}

/// The iterations. It says whether the unit asked for the end of the simulation.
#[tactic(auto, using(fmi_states::proofs::Spared::spares_on, crate::proofs::Sixteen::goes_on))]
pub(crate) fn iterate<E: Ecu>(
    alloc: Global,
    unit: &mut E,
    shared: &mut E::Shared,
    terminals: &[Terminal],
    emitted: &mut Emissions,
) -> Result<bool, Stop>
    requires here { E.is_in unit.old shared.old }
    requires phase { E.phase_of (E.state unit.old shared.old) ≡ Event }
    ensures gives { ComesTo (λ ends. transmitted emitted.new ends) result (E.state unit.new shared.new)
        (iterations E.answer terminals.now 16 emitted.old (E.state unit.old shared.old)) }
    ensures phase { OnOk result (E.phase_of (E.state unit.new shared.new) ≡ Event) }
    ensures apart { StaysApart E.Ecu (UnlessMemory result) unit.old unit.new shared.old shared.new }
{
    for done in 0..16u8 {
        match iterate_once(alloc, unit, shared, terminals, emitted)? {
            Wish::AnotherUpdate => {}
            Wish::NoUpdate => return Ok(false),
            Wish::TheEnd => return Ok(true),
        }
    }
    Err(Stop::Down(Cause::Loop))
}
