//! A number of ticks at one resolution, told at another.
ghost use Rattle.std.specs.Prelude.{◌≡◌, ◌↔◌, ◌<◌, ◌≤◌, ◌*◌, ◌/◌, ◌%◌, ◌^◌, IfSome, IsSome};

const LATEST: u128 = 0x4000_0000_0000_0000;

/// `counter * to / from`: what `counter` ticks of `from` a second are at `to` ticks a second.
/// None where that is no whole number of ticks up to 2^62.
pub fn scale(counter: u64, from: u64, to: u64) -> Option<u64>
    ensures whole { IsSome result ↔ (0 < from) × ((counter * to) % from ≡ 0) × (counter * to / from ≤ 2 ^ 62) }
    ensures value { IfSome result (λ ticks. ticks ≡ counter * to / from) }
{
    if from == 0 {
        return None;
    }
    let product = u128::from(counter) * u128::from(to);
    let from = u128::from(from);
    if product % from != 0 {
        return None;
    }
    let quotient = product / from;
    if quotient > LATEST {
        return None;
    }
    Some(quotient as u64)
}
