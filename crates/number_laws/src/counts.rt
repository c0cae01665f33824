//! Counts of bits.
ghost use Rattle.std.specs.Prelude.{◌≡◌, ◌<◌, ◌≤◌, ◌+◌, ◌-◌, ◌*◌, ◌^◌, ℕ};
ghost use Rattle.code_specs.specs.Integers.{iclz, ictz, ipopcnt};
ghost use Rattle.number_laws.specs.Digits.{digit_sum};

/// The width without the leading zeros is how many bits a number has: it is below that power of two, and not below the
/// one before.
#[tactic(auto, using(crate::proofs::Counted::none_leads, crate::proofs::Counted::size_below, crate::proofs::Counted::size_reached))]
pub fn leading_zeros_give_the_size()
    ensures zero { (n : ℕ) → iclz n 0 ≡ n }
    ensures below { (n i : ℕ) → i < 2 ^ n → i < 2 ^ (n - iclz n i) }
    ensures reached { (n i : ℕ) → 0 < i → i < 2 ^ n → 2 ^ (n - iclz n i) ≤ 2 * i }
{}

/// A number is an odd number times two to its trailing zeros.
#[tactic(auto, using(crate::proofs::Counted::none_trails, crate::proofs::Counted::odd_part))]
pub fn trailing_zeros_give_the_odd_part()
    ensures zero { (n : ℕ) → ictz n 0 ≡ n }
    ensures odd { (n i : ℕ) → 0 < i → i < 2 ^ n → (k : ℕ) × (i ≡ (2 * k + 1) * 2 ^ ictz n i) }
{}

/// The count of ones is the sum of the binary digits.
#[tactic(auto, using(crate::proofs::Counted::ones_are))]
pub fn ones_are_the_sum_of_digits()
    ensures { (n i : ℕ) → ipopcnt n i ≡ digit_sum n i }
{}
