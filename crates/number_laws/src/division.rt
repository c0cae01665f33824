//! Quotients and remainders.
ghost use Rattle.std.specs.Prelude.{◌≡◌, ◌<◌, ◌-◌, ◌^◌, ℕ, Ok, Err};
ghost use Rattle.code_specs.specs.declared.trap.NumTrap.TheVariants.{ZeroDivide, Overflow};
ghost use Rattle.code_specs.specs.Integers.{idiv_u, irem_u, idiv_s, irem_s};
ghost use Rattle.number_laws.specs.Quotients.{IsDivided, IsDividedSigned};

/// By each number but 0 there is a quotient and a remainder without sign.
#[tactic(auto, using(crate::proofs::Divided::divided))]
pub fn unsigned_division_makes_the_dividend()
    ensures { (i j : ℕ) → 0 < j → IsDivided i j }
{}

/// By each number but 0 there is a quotient and a remainder with sign, except for the least number by -1.
#[tactic(auto, using(crate::proofs::Divided::signed_divided))]
pub fn signed_division_makes_the_dividend()
    ensures { (n i j : ℕ) → 0 < n → i < 2 ^ n → 0 < j → j < 2 ^ n → ¬ ((i ≡ 2 ^ (n - 1)) × (j ≡ 2 ^ n - 1))
        → IsDividedSigned n i j }
{}

/// By 0 there is none, and the least number by -1 has a remainder, 0, and no quotient.
#[tactic(auto, using(crate::proofs::Divided::least_overflows, crate::proofs::Divided::least_remains))]
pub fn divisions_trap()
    ensures quotient { (i : ℕ) → idiv_u i 0 ≡ Err ZeroDivide }
    ensures remainder { (i : ℕ) → irem_u i 0 ≡ Err ZeroDivide }
    ensures signed_quotient { (n i : ℕ) → idiv_s n i 0 ≡ Err ZeroDivide }
    ensures signed_remainder { (n i : ℕ) → irem_s n i 0 ≡ Err ZeroDivide }
    ensures least_quotient { (n : ℕ) → 0 < n → idiv_s n (2 ^ (n - 1)) (2 ^ n - 1) ≡ Err Overflow }
    ensures least_remainder { (n : ℕ) → 0 < n → irem_s n (2 ^ (n - 1)) (2 ^ n - 1) ≡ Ok 0 }
{}
