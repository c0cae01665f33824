//! Laws of frames and their texts.
ghost use Rattle.std.specs.Prelude.{◌≡◌, ◌<◌, ◌↔◌, ℕ, All, List, Some, true};
ghost use Rattle.frame_specs.specs.Frame.{Frame as frame, is_well_formed};
ghost use Rattle.frame_specs.specs.FrameText.{frame_text};
ghost use Rattle.frame_specs.specs.FrameReading.{Spells, frame_of};

/// What is printed is read back.
pub fn a_printed_frame_is_read_back()
    ensures { (f : frame) → is_well_formed f ≡ true → All (λ b. b < 256) f.bytes → frame_of (frame_text f) ≡ Some f }
{}

/// Two frames with one text are one frame.
pub fn a_text_is_that_of_one_frame()
    ensures { (text : List ℕ) (f g : frame) → Spells text f → Spells text g → f ≡ g }
{}

/// A text is read as a frame exactly where it spells that frame.
pub fn a_text_is_read_as_what_it_spells()
    ensures { (text : List ℕ) (f : frame) → (frame_of text ≡ Some f) ↔ Spells text f }
{}
