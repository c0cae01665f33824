//! Laws of shifts and rotations.
ghost use Rattle.std.specs.Prelude.{◌≡◌, ℕ, ◌+◌, ◌-◌, ◌*◌, ◌/◌, ◌%◌, ◌^◌, ◌<◌};
ghost use Rattle.code_specs.specs.Integers.{ishl, ishr_u, irotl, irotr};

/// A shift to the left is a product, one to the right a quotient, and a rotation the sum of both.
pub fn shifts_are_products_and_quotients()
    ensures shl { (n i j : ℕ) → 0 < n → ishl n i j ≡ (i * 2 ^ (j % n)) % 2 ^ n }
    ensures shr_u { (n i j : ℕ) → 0 < n → i < 2 ^ n → ishr_u n i j ≡ i / 2 ^ (j % n) }
    ensures rotl { (n i j : ℕ) → 0 < n → i < 2 ^ n
        → irotl n i j ≡ (i * 2 ^ (j % n)) % 2 ^ n + i / 2 ^ (n - j % n) }
    ensures rotr { (n i j : ℕ) → 0 < n → i < 2 ^ n
        → irotr n i j ≡ (i * 2 ^ (n - j % n)) % 2 ^ n + i / 2 ^ (j % n) }
{}
