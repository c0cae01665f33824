//! What follows from the definitions: each contract here is a law, and each body is empty.
ghost use Rattle.std.specs.Prelude.{◌≡◌, ℕ, List, None, IsTrue};
ghost use Rattle.fmi_states.specs.Phase.{is_permitted, next_phase};
ghost use Rattle.fmi_states.specs.Parts.{Among, Spares, AreDisjoint};
ghost use Rattle.fmi_states.specs.declared.phase.Phase.{Phase};
ghost use Rattle.fmi_states.specs.declared.phase.Phase.TheVariants.{Failed, Gone};
ghost use Rattle.fmi_states.specs.declared.call.Call.{Call};
ghost use Rattle.fmi_states.specs.declared.call.Call.TheVariants.{Free};
ghost use Rattle.fmi_states.specs.declared.reply.Reply.{Reply};
ghost use Rattle.fmi_states.specs.declared.reply.Reply.TheVariants.{Broken};
ghost use Rattle.fmi_states.specs.declared.reply.Broken.{Broken as Reason};

use crate::ecu::Ecu;

/// A unit that was freed is gone, whatever it replied.
pub fn a_freed_unit_is_gone()
    ensures { (phase : Phase) (reply : Reply) → next_phase phase Free reply ≡ Gone }
{}

/// A unit that broke is gone, whatever was called.
pub fn a_broken_unit_is_gone()
    ensures { (phase : Phase) (c : Call) (r : Reason) → next_phase phase c (Broken r) ≡ Gone }
{}

/// A unit that failed permits Free alone.
pub fn a_failed_unit_is_only_freed()
    ensures { (c : Call) → IsTrue (is_permitted Failed c) → c ≡ Free }
{}

/// A unit that is gone permits no call.
pub fn a_gone_unit_takes_no_call()
    ensures { (c : Call) → ¬ IsTrue (is_permitted Gone c) }
{}

/// Where every part but those of one unit is as it was, as after any call of it,
/// a unit that owns other parts is still there, in the state that it had.
pub fn other_units_stay<E: Ecu>()
    ensures state { (e other : E) (s t : E.Shared) → Spares E.part (E.parts e) s t
        → AreDisjoint (E.parts e) (E.parts other) → E.is_in other s
        → E.state other t ≡ E.state other s }
    ensures here { (e other : E) (s t : E.Shared) → Spares E.part (E.parts e) s t
        → AreDisjoint (E.parts e) (E.parts other) → E.is_in other s → E.is_in other t }
{}

/// Parts that weren't there before are none of a unit that was there.
pub fn new_parts_are_apart<E: Ecu>()
    ensures { (e : E) (own : List ℕ) (s : E.Shared) → E.is_in e s
        → ((p : ℕ) → Among p own → E.part p s ≡ None) → AreDisjoint own (E.parts e) }
{}
