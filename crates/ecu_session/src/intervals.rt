//! The intervals of the countdown clocks.
ghost use Rattle.std.specs.Prelude.{◌≡◌, ◌<◌, ◌≤◌, ◌^◌, [], OnOk, length, option_map};
ghost use Rattle.fmi_states.specs.declared.phase.Phase.TheVariants.{Event};
ghost use Rattle.fmi_states.specs.Unit.{StaysApart};
ghost use Rattle.session_specs.specs.Sequence.{in_order};
ghost use Rattle.session_specs.specs.Replies.{scaled_interval, change_of};
ghost use Rattle.session_specs.specs.Session.{interval_call};
ghost use Rattle.ecu_session.specs.Words.{due_change_of};
ghost use Rattle.ecu_session.specs.Pieces.{ComesTo, UnlessMemory};

use crate::calling::make_call;
use crate::causes::Stop;
use crate::dues::{DueChange, Dues};
use crate::inputs::SessionIn;
use fmi_states::{Call, Ecu, Qualifier, Reply};
use log_lines::Cause;
use std::alloc::Global;
use tick_time::scale;

/// An interval in ticks; None where it isn't a whole number from 1 to 2^62.
fn scaled(counter: u64, from: u64, ticks: u64) -> Option<u64>
    ensures { result ≡ scaled_interval counter from ticks }
{
    match scale(counter, from, ticks) {
        Some(0) | None => None,
        Some(interval) => Some(interval),
    }
}

/// What becomes of a clock's due moment; None where the interval is bad.
fn change(moment: u64, ticks: u64, reply: &Reply) -> Option<DueChange>
    requires { moment ≤ 2 ^ 62 }
    ensures { option_map due_change_of result ≡ change_of moment ticks reply.now }
{
    match reply {
        Reply::Interval {
            counter,
            resolution,
            qualifier,
            ..
        } => match qualifier {
            Qualifier::NotYetKnown => Some(DueChange::Clear),
            Qualifier::Unchanged => Some(DueChange::Keep),
            Qualifier::Changed => match scaled(*counter, *resolution, ticks) {
                Some(interval) => Some(DueChange::At(moment + interval)),
                None => None,
            },
        },
        _ => Some(DueChange::Keep),
    }
}

/// Asks for a clock's interval, and adds what becomes of its due moment.
#[tactic(auto, using(fmi_states::proofs::Spared::spares_on))]
fn ask_interval<E: Ecu>(
    alloc: Global,
    unit: &mut E,
    shared: &mut E::Shared,
    input: &SessionIn,
    place: usize,
    clock: u32,
    dues: &mut Dues,
) -> Result<(), Stop>
    requires early { input.now.moment ≤ 2 ^ 62 }
    requires here { E.is_in unit.old shared.old }
    requires phase { E.phase_of (E.state unit.old shared.old) ≡ Event }
    ensures gives { ComesTo (λ _. dues.new) result (E.state unit.new shared.new)
        (interval_call E.answer input.now place clock dues.old (E.state unit.old shared.old)) }
    ensures phase { OnOk result (E.phase_of (E.state unit.new shared.new) ≡ Event) }
    ensures apart { StaysApart E.Ecu (UnlessMemory result) unit.old unit.new shared.old shared.new }
{
    let reply = make_call(alloc, unit, shared, &Call::GetInterval(clock))?;
    match change(input.moment, input.resolution, &reply) {
        Some(change) => {
            dues.push(change)?;
            Ok(())
        }
        None => Err(Stop::Down(Cause::BadInterval)),
    }
}

/// Asks for the clocks' intervals. Behind a bad one no clock is asked.
#[tactic(auto, using(fmi_states::proofs::Spared::spares_on, crate::proofs::Orders::goes_through))]
pub(crate) fn ask_intervals<E: Ecu>(
    alloc: Global,
    unit: &mut E,
    shared: &mut E::Shared,
    input: &SessionIn,
    clocks: &[u32],
    dues: &mut Dues,
) -> Result<(), Stop>
    requires early { input.now.moment ≤ 2 ^ 62 }
    requires here { E.is_in unit.old shared.old }
    requires phase { E.phase_of (E.state unit.old shared.old) ≡ Event }
    ensures gives { ComesTo (λ _. dues.new) result (E.state unit.new shared.new)
        (in_order (interval_call E.answer input.now) 0 clocks.now dues.old (E.state unit.old shared.old)) }
    ensures phase { OnOk result (E.phase_of (E.state unit.new shared.new) ≡ Event) }
    ensures apart { StaysApart E.Ecu (UnlessMemory result) unit.old unit.new shared.old shared.new }
{
    for (n, clock) in clocks.iter().enumerate() {
        ask_interval(alloc, unit, shared, input, n, *clock, dues)?;
    }
    Ok(())
}
