//! Sessions and closes of units that answer from a list.
ghost use Rattle.std.specs.Prelude.{◌≡◌, [], true};
ghost use Rattle.fmi_states.specs.declared.phase.Phase.TheVariants.{Step};

use crate::descriptions::{at_first, at_once, behind_it, engine, gateway};
use crate::outcomes::{told, told_calls, told_end};
use crate::units::replies_of;
use case_words::{Unanswered, cut};
use ecu_session::SessionOut;
use fmi_states::{Ecu, ListEcu, Phase, Replies};
use noting_unit::{Exchanges, NotingUnit, noted_close, noted_session};
use std::alloc::{AllocError, Global};

/// The unit waits for its next session.
fn is_in_step_mode<E: Ecu>(unit: &E, shared: &E::Shared) -> bool
    requires here { E.is_in unit.now shared.now }
    ensures { result ≡ true → E.phase_of (E.state unit.now shared.now) ≡ Step }
{
    matches!(unit.phase(), Phase::Step)
}

fn noting(alloc: Global, unit: ListEcu) -> NotingUnit<ListEcu>
    ensures unit { result.unit ≡ unit }
    ensures none { result.exchanges ≡ [] }
{
    NotingUnit {
        unit,
        exchanges: Exchanges::new(alloc),
    }
}

/// What a session comes to, and the unit behind it with its calls.
#[derive(Drop)]
struct Noted {
    outcome: SessionOut,
    unit: NotingUnit<ListEcu>,
}

fn opened_engine(alloc: Global, replies: Replies) -> Result<Noted, AllocError> {
    let d = engine(alloc)?;
    let input = at_once(alloc)?;
    let mut unit = noting(alloc, ListEcu::new(replies));
    let outcome = noted_session(alloc, &mut unit, &mut (), &d, &input)?;
    Ok(Noted { outcome, unit })
}

fn opened_gateway(alloc: Global, replies: Replies) -> Result<Noted, AllocError> {
    let d = gateway(alloc)?;
    let input = at_first(alloc)?;
    let mut unit = noting(alloc, ListEcu::new(replies));
    let outcome = noted_session(alloc, &mut unit, &mut (), &d, &input)?;
    Ok(Noted { outcome, unit })
}

/// The session of the gateway behind its opening, where that leaves it in Step Mode.
fn gone_on(alloc: Global, unit: ListEcu) -> Result<Noted, Unanswered> {
    if !is_in_step_mode(&unit, &()) {
        return Err(Unanswered::Unknown);
    }
    let d = gateway(alloc)?;
    let input = behind_it(alloc)?;
    let mut unit = noting(alloc, unit);
    let outcome = noted_session(alloc, &mut unit, &mut (), &d, &input)?;
    Ok(Noted { outcome, unit })
}

fn told_noted(alloc: Global, part: &str, noted: &Noted) -> Result<String, Unanswered> {
    told(alloc, part, &noted.outcome, &noted.unit.exchanges)
}

/// The opening of the engine or of the gateway: `engine outcome: REPLY; ..` or `engine calls: REPLY; ..`.
pub fn opening(alloc: Global, rest: &str) -> Result<String, Unanswered> {
    let (name, rest) = cut(rest);
    let (part, list) = rest.split_once(": ").ok_or(Unanswered::Unknown)?;
    let replies = replies_of(alloc, list)?;
    let noted = match name {
        "engine" => opened_engine(alloc, replies)?,
        "gateway" => opened_gateway(alloc, replies)?,
        _ => return Err(Unanswered::Unknown),
    };
    told_noted(alloc, part, &noted)
}

/// The unit as its session left it.
fn behind(noted: Noted) -> ListEcu {
    let Noted { unit, .. } = noted;
    unit.unit
}

/// The second session of the gateway: `outcome: REPLY; ..` or `calls: REPLY; ..`, with the replies of both sessions.
pub fn second(alloc: Global, rest: &str) -> Result<String, Unanswered> {
    let (part, list) = rest.split_once(": ").ok_or(Unanswered::Unknown)?;
    let opened = opened_gateway(alloc, replies_of(alloc, list)?)?;
    let noted = gone_on(alloc, behind(opened))?;
    told_noted(alloc, part, &noted)
}

fn closed(alloc: Global, unit: ListEcu) -> Result<String, Unanswered> {
    if !is_in_step_mode(&unit, &()) {
        return Err(Unanswered::Unknown);
    }
    let mut unit = noting(alloc, unit);
    let end = told_end(noted_close(alloc, &mut unit, &mut ())?);
    let calls = told_calls(alloc, &unit.exchanges)?;
    Ok(format!(in alloc; "{end}; {calls}")?)
}

/// The end and the calls of the close of the gateway behind its second session: `REPLY; ..`.
pub fn closing(alloc: Global, rest: &str) -> Result<String, Unanswered> {
    let opened = opened_gateway(alloc, replies_of(alloc, rest)?)?;
    let noted = gone_on(alloc, behind(opened))?;
    closed(alloc, behind(noted))
}
