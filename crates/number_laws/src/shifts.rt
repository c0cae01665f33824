//! Shifts that copy the sign, and rotations there and back.
ghost use Rattle.std.specs.Prelude.{◌≡◌, ◌<◌, ◌%◌, ◌^◌, ℕ, pos};
ghost use Rattle.std.specs.Int.{int_div_euclid};
ghost use Rattle.code_specs.specs.Integers.{signed, ishr_s, irotl, irotr};

/// A shift to the right that copies the sign is a quotient by a power of two, rounded down.
#[tactic(auto, using(crate::proofs::Turned::shifted))]
pub fn signed_shifts_round_down()
    ensures { (n i j : ℕ) → 0 < n → i < 2 ^ n
        → signed n (ishr_s n i j) ≡ int_div_euclid (signed n i) (pos (2 ^ (j % n))) }
{}

/// A rotation and the other one by as many places give the number back.
#[tactic(auto, using(crate::proofs::Turned::right_undoes, crate::proofs::Turned::left_undoes))]
pub fn rotations_undo_each_other()
    ensures right { (n i j : ℕ) → 0 < n → i < 2 ^ n → irotr n (irotl n i j) j ≡ i }
    ensures left { (n i j : ℕ) → 0 < n → i < 2 ^ n → irotl n (irotr n i j) j ≡ i }
{}
