//! Two calls of a unit in turn.
ghost use Rattle.std.specs.Prelude.{◌≡◌, IsTrue, IfOk, OnOk};
ghost use Rattle.fmi_states.specs.Phase.{is_permitted};
ghost use Rattle.fmi_states.specs.InTurn.{answer_in_turn};
ghost use Rattle.fmi_states.specs.Unit.{StaysApart};

use crate::call::Call;
use crate::ecu::Ecu;
use crate::phase::permitted;
use crate::reply::Reply;
use std::alloc::{AllocError, Global};

/// The replies to two calls in turn.
#[derive(Drop)]
pub struct RepliesInTurn {
    /// The reply to the first call.
    pub first: Reply,
    /// The reply to the second call; None where that wasn't made.
    pub second: Option<Reply>,
}

/// Makes a call, and a second one exactly where the first leaves it permitted.
/// So DoStep with EnterEvent behind it stops at a step that went wrong,
/// and Terminate with Free behind it frees every unit that isn't lost.
#[tactic(auto, using(crate::proofs::Spared::spares_on))]
pub fn call_in_turn<E: Ecu>(
    alloc: Global,
    unit: &mut E,
    shared: &mut E::Shared,
    first: &Call,
    second: &Call,
) -> Result<RepliesInTurn, AllocError>
    requires here { E.is_in unit.old shared.old }
    requires permitted { IsTrue (is_permitted (E.phase_of (E.state unit.old shared.old)) first.now) }
    ensures answer { IfOk result (λ replies. answer_in_turn E.answer E.phase_of first.now second.now
        (E.state unit.old shared.old) ≡ (replies, E.state unit.new shared.new)) }
    ensures apart { StaysApart E.Ecu (OnOk result) unit.old unit.new shared.old shared.new }
{
    let reply = unit.call(alloc, shared, first)?;
    if !permitted(unit.phase(), second) {
        return Ok(RepliesInTurn {
            first: reply,
            second: None,
        });
    }
    let last = unit.call(alloc, shared, second)?;
    Ok(RepliesInTurn {
        first: reply,
        second: Some(last),
    })
}
