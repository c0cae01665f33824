//! Numbers with their signs.
ghost use Rattle.std.specs.Prelude.{◌≡◌, ◌<◌, ◌^◌, ℕ, ℤ};
ghost use Rattle.code_specs.specs.Integers.{signed, unsigned};
ghost use Rattle.number_laws.specs.Quotients.{IsSigned};

/// The signed interpretation of a number is one of its numbers with a sign, and each comes from one number.
#[tactic(auto, using(crate::proofs::Signed::reads_signed, crate::proofs::Signed::number_back, crate::proofs::Signed::signed_back))]
pub fn signs_are_read_back()
    ensures fits { (n i : ℕ) → 0 < n → i < 2 ^ n → IsSigned n (signed n i) }
    ensures number { (n i : ℕ) → 0 < n → i < 2 ^ n → unsigned n (signed n i) ≡ i }
    ensures signed { (n : ℕ) (z : ℤ) → 0 < n → IsSigned n z → signed n (unsigned n z) ≡ z }
{}
