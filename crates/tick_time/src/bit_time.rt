//! How many ticks one bit lasts on the wire.
ghost use Rattle.std.specs.Prelude.{◌≡◌, ◌↔◌, ◌<◌, ◌≤◌, ◌*◌, ◌/◌, ◌%◌, ◌^◌, IfSome, IsSome};

use std::marker::Model;

/// The time of one bit: a whole number of ticks, from 1 to 10^12.
#[derive(Clone, Copy, Debug, PartialEq, Eq)]
pub struct BitTime {
    ticks: u64,
}

impl Model for BitTime {
    ghost use Rattle.std.specs.Prelude.{ℕ, ◌≤◌, ◌^◌};

    ghost Value = { ℕ };

    ghost view = { λ t. t.ticks };

    ghost invariant = { λ t. (1 ≤ t.ticks) × (t.ticks ≤ 10 ^ 12) };

    ghost inverse = { λ n. record { ticks = n } };
}

impl BitTime {
    /// One bit at `rate` bits a second, where a second has `resolution` ticks.
    /// None where that is no whole number of ticks.
    pub fn of_rate(rate: u32, resolution: u64) -> Option<BitTime>
        requires some_ticks { 1 ≤ resolution }
        requires bound { resolution ≤ 10 ^ 12 }
        ensures divides { IsSome result ↔ (0 < rate) × (resolution % rate ≡ 0) }
        ensures value { IfSome result (λ time. time ≡ resolution / rate) }
    {
        let rate = u64::from(rate);
        if rate == 0 || resolution % rate != 0 {
            return None;
        }
        Some(BitTime {
            ticks: resolution / rate,
        })
    }

    /// The ticks of one bit.
    pub fn ticks(self) -> u64
        ensures value { result ≡ self }
        ensures low { 1 ≤ self }
        ensures high { self ≤ 10 ^ 12 }
    {
        self.ticks
    }

    /// The ticks of `n` bits.
    pub fn bits(self, n: u32) -> u64
        requires { n ≤ 2 ^ 20 }
        ensures value { result ≡ n * self }
        ensures low { 1 ≤ self }
        ensures high { self ≤ 10 ^ 12 }
    {
        u64::from(n) * self.ticks
    }
}
