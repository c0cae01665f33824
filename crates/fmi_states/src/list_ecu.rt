//! A unit that answers from a list, for trials of what stands above units.
ghost use Rattle.std.specs.Prelude.{◌≡◌};
ghost use Rattle.fmi_states.specs.ListEcu.{fresh_with, reply_from, replies_behind};

use crate::call::Call;
use crate::ecu::Ecu;
use crate::phase::{Phase, next};
use crate::replies::Replies;
use crate::reply::{Broken, Reply, suits};
use std::alloc::{AllocError, Global};
use std::marker::Model;

/// A unit that answers each call with the next reply of a list, and takes no memory.
/// Where no reply is left, or the one taken doesn't suit its call, it answers `Broken(BadReply)`.
#[derive(Drop)]
pub struct ListEcu {
    phase: Phase,
    // The replies that are left, the next one last.
    stack: Vec<Reply>,
}

impl Model for ListEcu {
    ghost use Rattle.std.specs.Prelude.{reverse};
    ghost use Rattle.fmi_states.specs.ListEcu.{ListState};

    ghost Value = { ListState };

    ghost view = { λ e. record { phase = e.phase; replies = reverse e.stack.items } };
}

impl ListEcu {
    /// A fresh unit with these replies.
    pub fn new(replies: Replies) -> ListEcu
        ensures { result ≡ fresh_with replies }
    {
        let mut stack = replies.into_vec();
        stack.reverse();
        ListEcu {
            phase: Phase::Fresh,
            stack,
        }
    }

    // Takes the reply to a call.
    fn take(&mut self, call: &Call) -> Reply
        ensures reply { result ≡ reply_from call.now self.old.replies }
        ensures left { self.new ≡ record self.old { replies = replies_behind self.old.replies } }
    {
        match self.stack.pop() {
            Some(reply) if suits(call, &reply) => reply,
            _ => Reply::Broken(Broken::BadReply),
        }
    }
}

impl Ecu for ListEcu {
    ghost use Rattle.std.specs.Prelude.{◌≡◌, [], None, refl, IsOk, IfOk, IsTrue};
    ghost use Rattle.fmi_states.specs.Phase.{next_phase, is_permitted};
    ghost use Rattle.fmi_states.specs.Reply.{is_suitable};
    ghost use Rattle.fmi_states.specs.ListEcu.{list_answer, reply_from_suits, reply_from_bytes};

    type Shared = ();

    type State = ListEcu;

    ghost state = { λ e _. e };

    ghost answer = { list_answer };

    ghost phase_of = { λ s. s.phase };

    ghost part = { λ _ _. None };

    ghost parts = { λ _. [] };

    ghost is_in = { λ _ _. Unit {0} };

    fn phase(&self) -> Phase {
        self.phase
    }

    #[tactic(auto, using(crate::specs::ListEcu::reply_from_suits))]
    fn call(&mut self, _alloc: Global, _shared: &mut (), call: &Call) -> Result<Reply, AllocError>
        requires permitted { IsTrue (is_permitted self.old.phase call.now) }
        ensures taken { IsOk result }
        ensures answer { IfOk result (λ reply. list_answer self.old call.now ≡ (reply, self.new)) }
        ensures phase { IfOk result (λ reply. self.new.phase ≡ next_phase self.old.phase call.now reply) }
        ensures suits { IfOk result (λ reply. IsTrue (is_suitable call.now reply)) }
    {
        let reply = self.take(call);
        self.phase = next(self.phase, call, &reply);
        Ok(reply)
    }

    ghost state_by_parts = { λ e s t here shares. refl };

    ghost in_by_parts = { λ e s t here shares. tt };

    ghost part_is_there = { λ e s p here among. absurd among };

    ghost moves = { λ s c permitted. refl };

    ghost replies_suit = { λ s c permitted. reply_from_suits c s.replies };

    ghost replies_are_bytes = { λ s c. reply_from_bytes c s.replies };
}
