//! What stuffing is for: laws of the definitions, for every frame.
ghost use Rattle.std.specs.Prelude.{◌≢◌, ◌≤◌, ◌+◌, ◌-◌, ◌/◌, ◌++◌, Bool, List, length, replicate};
ghost use Rattle.frame_specs.specs.Frame.{Frame};
ghost use Rattle.frame_specs.specs.Wire.{stuffed};
ghost use Rattle.frame_bits.specs.Unstuffed.{unstuffed};

/// No six equal bits stand in a row among the stuffed bits of a frame.
pub fn no_six_equal_bits_in_a_row()
    ensures { (f : Frame) (before behind : List Bool) (bit : Bool) → stuffed f ≢ before ++ replicate 6 bit ++ behind }
{}

/// A frame has at most one stuff bit for every four bits behind the first.
pub fn one_stuff_bit_for_four_bits()
    ensures least { (f : Frame) → length (unstuffed f) ≤ length (stuffed f) }
    ensures most { (f : Frame) → length (stuffed f) ≤ length (unstuffed f) + (length (unstuffed f) - 1) / 4 }
{}
