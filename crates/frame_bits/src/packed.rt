//! Some bits in one number.
ghost use Rattle.std.specs.Prelude.{[], ◌∷◌, ◌≡◌, ◌<◌, ◌≤◌, ◌+◌, ◌*◌, ◌%◌, ◌^◌, ◌++◌, length};
ghost use Rattle.frame_specs.specs.Bits.{number_bits};

use std::marker::Model;

/// Up to 48 bits, the newest lowest.
#[derive(Drop)]
pub struct Packed {
    width: u32,
    value: u64,
}

impl Model for Packed {
    ghost use Rattle.std.specs.Prelude.{List, Bool, ◌<◌, ◌≤◌, ◌^◌};
    ghost use Rattle.frame_specs.specs.Bits.{number_bits};

    ghost Value = { List Bool };

    ghost view = { λ p. number_bits p.width p.value };

    ghost invariant = { λ p. (p.width ≤ 48) × (p.value < 2 ^ p.width) };
}

impl Packed {
    /// No bits.
    pub fn new() -> Packed
        ensures { result ≡ [] }
    {
        Packed { width: 0, value: 0 }
    }

    /// One bit behind them.
    pub fn flag(&mut self, bit: bool)
        requires { length self.old < 48 }
        ensures { self.new ≡ self.old ++ bit ∷ [] }
    {
        self.number(1, u32::from(bit));
    }

    /// The low bits of a number behind them, the highest first.
    pub fn number(&mut self, width: u32, value: u32)
        requires { length self.old + width ≤ 48 }
        ensures { self.new ≡ self.old ++ number_bits width value }
    {
        self.value = joined(self.value, self.width, value, width);
        self.width += width;
    }

    /// How many they are, and the number of which they are the low bits.
    pub fn parts(&self) -> (u32, u64)
        ensures value { number_bits result.0 result.1 ≡ self.now }
        ensures width { result.0 ≡ length self.now }
        ensures few { result.0 ≤ 48 }
    {
        (self.width, self.value)
    }
}

/// A number of `high_width` bits, and the low `low_width` bits of another behind it.
fn joined(high: u64, high_width: u32, low: u32, low_width: u32) -> u64
    requires room { high_width + low_width ≤ 48 }
    requires high { high < 2 ^ high_width }
    ensures value { result ≡ high * 2 ^ low_width + low % 2 ^ low_width }
    ensures bound { result < 2 ^ (high_width + low_width) }
{
    let place = 1u64 << low_width;
    high * place + u64::from(low) % place
}
