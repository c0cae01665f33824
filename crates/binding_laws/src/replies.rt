//! Laws of replies.
ghost use Rattle.std.specs.Prelude.{◌≡◌, IsTrue, Some, false};
ghost use Rattle.fmi_states.specs.declared.status.FmiStatus.{FmiStatus};
ghost use Rattle.fmi_states.specs.declared.call.Call.{Call};
ghost use Rattle.fmi_states.specs.Phase.{next_phase};
ghost use Rattle.fmi_states.specs.Reply.{status_of, bytes_in, AreBytes, is_suitable};
ghost use Rattle.binding_specs.specs.Guests.{Guest};
ghost use Rattle.binding_specs.specs.Exchanges.{is_fine, bare_reply};
ghost use Rattle.binding_specs.specs.Answers.{answer};

/// In every state the reply is of the call's kind, what it holds are bytes, and the phase moves by the table.
pub fn replies_suit_their_calls()
    ensures suits { (g : Guest) (c : Call) → IsTrue (is_suitable c (answer g c).0) }
    ensures bytes { (g : Guest) (c : Call) → AreBytes (bytes_in (answer g c).0) }
    ensures phase { (g : Guest) (c : Call) → (answer g c).1.phase ≡ next_phase g.phase c (answer g c).0 }
{}

/// A reply whose status is neither OK nor Warning is made of its call and that status alone: whatever the function left
/// in the area isn't read.
pub fn the_area_is_read_behind_ok_and_warning_alone()
    ensures { (g : Guest) (c : Call) (status : FmiStatus) → status_of (answer g c).0 ≡ Some status
        → is_fine status ≡ false → (answer g c).0 ≡ bare_reply c status }
{}
