//! Numbers as bytes, loads and stores.
ghost use Rattle.std.specs.Prelude.{◌≡◌, ◌⊎◌, ◌<◌, ◌≤◌, ◌+◌, ◌*◌, ◌%◌, ◌^◌, ℕ, List, Some, All, length, option_map, slice_get};
ghost use Rattle.code_specs.specs.Stores.{number_of_bytes, bytes_of, bytes_at, replaced_at};

/// So many bytes are those of one number, and no bytes are those of two.
#[tactic(auto, using(crate::proofs::Bytes::counted, crate::proofs::Bytes::small, crate::proofs::Bytes::number_is, crate::proofs::Bytes::bytes_are))]
pub fn numbers_are_their_bytes()
    ensures count { (count n : ℕ) → length (bytes_of count n) ≡ count }
    ensures bytes { (count n : ℕ) → All (λ b. b < 256) (bytes_of count n) }
    ensures number { (count n : ℕ) → number_of_bytes (bytes_of count n) ≡ n % 2 ^ (8 * count) }
    ensures back { (bytes : List ℕ) → All (λ b. b < 256) bytes → bytes_of (length bytes) (number_of_bytes bytes) ≡ bytes }
{}

/// A store changes no byte but its own, and not the size.
#[tactic(auto, using(crate::proofs::Replaced::others, crate::proofs::Replaced::size))]
pub fn a_store_changes_its_own_bytes_alone()
    ensures others { (bytes new : List ℕ) (address place : ℕ) → address + length new ≤ length bytes
        → (place < address) ⊎ (address + length new ≤ place)
        → slice_get (replaced_at bytes address new) place ≡ slice_get bytes place }
    ensures size { (bytes new : List ℕ) (address : ℕ) → address + length new ≤ length bytes
        → length (replaced_at bytes address new) ≡ length bytes }
{}

/// A number that was stored is loaded again, cut to its width.
#[tactic(auto, using(crate::proofs::Replaced::loaded))]
pub fn what_is_stored_is_loaded()
    ensures { (bytes : List ℕ) (address width n : ℕ) → address + width ≤ length bytes
        → option_map number_of_bytes (bytes_at (replaced_at bytes address (bytes_of width n)) address width)
        ≡ Some (n % 2 ^ (8 * width)) }
{}
