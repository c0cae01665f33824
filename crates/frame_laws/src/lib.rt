//! Laws of frames on the wire (ISO 11898-1): each is the contract of a function with an empty body, and
//! holds of every frame and of every list of bits.
#![tactic(auto)]

ghost use Rattle.std.specs.Prelude.{◌≡◌, ◌-◌, ℕ, length};
ghost use Rattle.frame_specs.specs.Frame.{Frame};
ghost use Rattle.frame_specs.specs.Wire.{raw, crc, stuff, stuff_open, stuffed, wire_bits, times};
ghost use Rattle.frame_laws.specs.Unstuffing.{unstuffed, IsUndone};
ghost use Rattle.frame_laws.specs.Checksum.{crc_bits, covered, IsClassical, LeavesNothing};
ghost use Rattle.frame_laws.specs.Times.{IsEnd};
ghost use Rattle.frame_laws.specs.WrongBits as wrong;

/// Dropping the stuff bits gives back the bits that were stuffed, whether or not one was due behind the
/// last of them.
pub fn unstuffing_undoes_stuffing()
    ensures stuff { IsUndone stuff }
    ensures stuff_open { IsUndone stuff_open }

    // Of a frame, the bits that its stuffing covers.
    ensures frame { (f : Frame) → unstuffed (stuffed f) ≡ covered f.kind (raw f) }
{}

/// Bits with their CRC behind them leave the remainder 0.
pub fn the_crc_leaves_nothing()
    ensures nothing { LeavesNothing crc_bits }

    // So do those that a receiver of a classical frame has when it has dropped the stuff bits.
    ensures received { (f : Frame) → IsClassical f.kind → crc (unstuffed (stuffed f)) ≡ 0 }
{}

/// A frame lasts to the end of its last wire bit.
pub fn the_last_bit_ends_the_frame()
    ensures last { IsEnd (λ f. wire_bits f - 1) }

    // Each of its wire bits has one time, and no other bit has.
    ensures times { (f : Frame) (nominal data_bit : ℕ) → length (times f nominal data_bit) ≡ wire_bits f }
{}

/// Stuffings, CRC fields and last bits that are wrong in one thing are refused, each by its law.
pub fn wrong_bits_are_refused()
    ensures uncounted { IsUndone wrong.stuff_uncounted → ⊥ }
    ensures at_six { IsUndone wrong.stuff_at_six → ⊥ }
    ensures lowest_first { LeavesNothing wrong.crc_lowest_first → ⊥ }
    ensures one_bit_short { LeavesNothing wrong.crc_one_bit_short → ⊥ }
    ensures next_to_last { IsEnd (λ f. wire_bits f - 2) → ⊥ }
{}
