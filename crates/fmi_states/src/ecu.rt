//! The trait of a unit over a value that it shares with others.
ghost use Rattle.std.specs.Prelude.{◌≡◌, ◌≢◌, ℕ, List, Option, None, IsTrue, IfOk, OnOk};
ghost use Rattle.fmi_states.specs.Phase.{is_permitted, next_phase};
ghost use Rattle.fmi_states.specs.Reply.{is_suitable, bytes_in, AreBytes};
ghost use Rattle.fmi_states.specs.Parts.{Among, Spares, Shares};
ghost use Rattle.fmi_states.specs.declared.phase.Phase.{Phase};
ghost use Rattle.fmi_states.specs.declared.call.Call.{Call};
ghost use Rattle.fmi_states.specs.declared.reply.Reply.{Reply};

use crate::call::Call;
use crate::phase::Phase;
use crate::reply::Reply;
use std::alloc::{AllocError, Global};

/// A virtual ECU: a unit over a value that it shares with others, of which it owns some parts.
pub trait Ecu: Drop {
    /// What the units of one world share.
    type Shared: Drop;

    /// The meaning of a unit. Contracts name it, and no code needs to make one.
    type State;

    /// The state of a unit over its shared value.
    ghost state: { Self → Self.Shared → Self.State };

    /// The reply to a call in a state, and the state behind it.
    ghost answer: { Self.State → Call → Reply × Self.State };

    /// The phase of a state.
    ghost phase_of: { Self.State → Phase };

    /// The content of the part with a number, or None where the shared value has no such part.
    ghost part: { ℕ → Self.Shared → Option (List ℕ) };

    /// The numbers of the parts that a unit owns.
    ghost parts: { Self → List ℕ };

    /// The unit's parts are in the shared value.
    ghost is_in: { Self → Self.Shared → Type 0 };

    /// The phase of the unit.
    fn phase(&self) -> Phase
        ensures { (shared : Self.Shared) → is_in self.now shared
            → result ≡ phase_of (state self.now shared) };

    /// Makes a call. After want of memory nothing is known of the unit and its own parts.
    fn call(
        &mut self,
        alloc: Global,
        shared: &mut Self::Shared,
        call: &Call,
    ) -> Result<Reply, AllocError>
        requires here { is_in self.old shared.old }
        requires permitted { IsTrue (is_permitted (phase_of (state self.old shared.old)) call.now) }

        // The reply and the new state are those that `answer` names.
        // The phase moves by the table, and the reply is of the call's kind.
        ensures answer { IfOk result (λ reply. answer (state self.old shared.old) call.now
            ≡ (reply, state self.new shared.new)) }
        ensures phase { IfOk result (λ reply. phase_of (state self.new shared.new)
            ≡ next_phase (phase_of (state self.old shared.old)) call.now reply) }
        ensures suits { IfOk result (λ reply. IsTrue (is_suitable call.now reply)) }

        // The unit keeps its parts, and every other part is as it was, after want of memory too.
        ensures parts { OnOk result (parts self.new ≡ parts self.old) }
        ensures here { OnOk result (is_in self.new shared.new) }
        ensures others { Spares part (parts self.old) shared.old shared.new };

    /// A unit's state depends on the unit and its own parts alone.
    ghost state_by_parts: { (e : Self) (s t : Self.Shared) → is_in e s → Shares part (parts e) s t
        → state e t ≡ state e s };

    /// Whether its parts are there depends on the unit and these parts alone.
    ghost in_by_parts: { (e : Self) (s t : Self.Shared) → is_in e s → Shares part (parts e) s t
        → is_in e t };

    /// A part that a unit owns is there where the unit is.
    ghost part_is_there: { (e : Self) (s : Self.Shared) (p : ℕ) → is_in e s → Among p (parts e)
        → part p s ≢ None };

    /// A permitted call moves the phase by the table.
    ghost moves: { (s : Self.State) (c : Call) → IsTrue (is_permitted (phase_of s) c)
        → phase_of (answer s c).1 ≡ next_phase (phase_of s) c (answer s c).0 };

    /// The reply to a permitted call suits it.
    ghost replies_suit: { (s : Self.State) (c : Call) → IsTrue (is_permitted (phase_of s) c)
        → IsTrue (is_suitable c (answer s c).0) };

    /// What a call is replied with are bytes.
    ghost replies_are_bytes: { (s : Self.State) (c : Call) → AreBytes (bytes_in (answer s c).0) };
}
