//! Laws of the states of guests: those that every unit keeps, and what is saved of one.
ghost use Rattle.std.specs.Prelude.{◌≡◌, ◌≢◌, ℕ, IsTrue, true, false};
ghost use Rattle.fmi_states.specs.declared.call.Call.{Call};
ghost use Rattle.fmi_states.specs.Phase.{is_permitted, next_phase};
ghost use Rattle.fmi_states.specs.Reply.{bytes_in, AreBytes, is_suitable};
ghost use Rattle.fmi_states.specs.declared.phase.Phase.TheVariants.{Step};
ghost use Rattle.wasm_types.specs.declared.module.Module.{Module};
ghost use Rattle.wasm_types.specs.Modules.{NestedModule};
ghost use Rattle.wasm_types.specs.Back.{nested_module};
ghost use Rattle.unit_specs.specs.Description.{Description};
ghost use Rattle.binding_specs.specs.Answers.{answer};
ghost use Rattle.fmi_binding.specs.declared.state.GuestState.{GuestState};
ghost use Rattle.fmi_binding.specs.declared.image.Image.{Image};
ghost use Rattle.fmi_binding.specs.States.{guest_of, state_answer};
ghost use Rattle.fmi_binding.specs.Images.{image_of, image_suits, state_from};

/// The state behind a call is that of the guest behind it. A permitted call moves the phase by the table, and its reply
/// suits it and holds bytes.
pub fn states_of_guests_are_those_of_units()
    ensures behind { (s : GuestState) (c : Call) → guest_of (state_answer s c).1 ≡ (answer (guest_of s) c).1 }
    ensures moves { (s : GuestState) (c : Call) → IsTrue (is_permitted s.phase c)
        → (state_answer s c).1.phase ≡ next_phase s.phase c (state_answer s c).0 }
    ensures suits { (s : GuestState) (c : Call) → IsTrue (is_permitted s.phase c)
        → IsTrue (is_suitable c (state_answer s c).0) }
    ensures bytes { (s : GuestState) (c : Call) → AreBytes (bytes_in (state_answer s c).0) }
{}

/// A guest that is made of its image has the state that was saved. In no other phase than Step Mode an image suits a
/// module. What is saved of a guest that was made of an image is the image.
pub fn what_was_saved_of_a_guest_is_made_again()
    ensures again { (s : GuestState) → state_from s.code s.description s.budget (image_of s) ≡ s }
    ensures step { (m : NestedModule) (d : Description) (i : Image) → i.phase ≢ Step → image_suits m d i ≡ false }
    ensures saved { (m : Module) (d : Description) (fuel : ℕ) (i : Image) → image_suits (nested_module m) d i ≡ true
        → image_of (state_from m d fuel i) ≡ i }
{}
