//! A unit that notes its calls.
use crate::copies::{copy_call, copy_reply};
use crate::exchanges::{Exchange, Exchanges};
use fmi_states::{Call, Ecu, Phase, Reply};
use std::alloc::{AllocError, Global};
use std::marker::Model;

/// The state of a unit, and its calls so far. Contracts name it, and no code makes one.
pub struct NotedState<S> {
    state: S,
    exchanges: Exchanges,
}

impl<S> Model for NotedState<S> {
    ghost use Rattle.session_specs.specs.Exchanges.{Noted};

    ghost Value = { Noted S };

    ghost view = { λ n. record { state = n.state; exchanges = n.exchanges } };
}

/// A unit, and the calls that were made of it.
#[derive(Drop)]
pub struct NotingUnit<E: Ecu> {
    /// The unit.
    pub unit: E,
    /// The calls so far.
    pub exchanges: Exchanges,
}

impl<E: Ecu> Ecu for NotingUnit<E> {
    ghost use Rattle.std.proofs.Common.{ap};
    ghost use Rattle.session_specs.specs.Exchanges.{noted_at, noting};

    type Shared = E::Shared;

    type State = NotedState<E::State>;

    ghost state = { λ e shared. noted_at (E.state e.unit shared) e.exchanges };

    ghost answer = { noting E.answer };

    ghost phase_of = { λ n. E.phase_of n.state };

    ghost part = { E.part };

    ghost parts = { λ e. E.parts e.unit };

    ghost is_in = { λ e shared. E.is_in e.unit shared };

    fn phase(&self) -> Phase {
        self.unit.phase()
    }

    fn call(
        &mut self,
        alloc: Global,
        shared: &mut E::Shared,
        call: &Call,
    ) -> Result<Reply, AllocError> {
        let noted = copy_call(alloc, call)?;
        let reply = self.unit.call(alloc, shared, call)?;
        let copy = copy_reply(alloc, &reply)?;
        self.exchanges.push(Exchange {
            call: noted,
            reply: copy,
        })?;
        Ok(reply)
    }

    ghost state_by_parts = { λ e s t here shares. ap (λ x. noted_at x e.exchanges) (E.state_by_parts e.unit s t here shares) };

    ghost in_by_parts = { λ e s t here shares. E.in_by_parts e.unit s t here shares };

    ghost part_is_there = { λ e s p here among. E.part_is_there e.unit s p here among };

    ghost moves = { λ n c permitted. E.moves n.state c permitted };

    ghost replies_suit = { λ n c permitted. E.replies_suit n.state c permitted };

    ghost replies_are_bytes = { λ n c. E.replies_are_bytes n.state c };
}
