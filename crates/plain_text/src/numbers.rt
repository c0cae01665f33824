//! Reading a decimal number.
ghost use Rattle.std.specs.Prelude.{◌≡◌, ◌≤◌, IfSome, option_and_then};
ghost use Rattle.plain_text.specs.Decimal.{number_in as number_in_of, within, digits_value};

/// The decimal number that this text spells, with no sign and no leading zero. None where it spells
/// none from `low` to `high`.
#[tactic(auto, unfolding(crate::specs::Decimal::number_in, crate::specs::Decimal::number_of))]
pub fn number_in(low: u64, high: u64, text: &[u8]) -> Option<u64>
    ensures value { result ≡ number_in_of low high text.now }
    ensures low { IfSome result (λ n. low ≤ n) }
    ensures high { IfSome result (λ n. n ≤ high) }
{
    match text {
        [] => None,
        [b'0', _, ..] => None,
        _ => digits(low, high, text),
    }
}

/// The number of these digits. None where one is no digit, or the number isn't from `low` to `high`.
fn digits(low: u64, high: u64, text: &[u8]) -> Option<u64>
    ensures value { result ≡ option_and_then (within low high) (digits_value 0 text.now) }
    ensures low { IfSome result (λ n. low ≤ n) }
    ensures high { IfSome result (λ n. n ≤ high) }
{
    let mut value = 0u64;
    for byte in text {
        if *byte < b'0' || *byte > b'9' {
            return None;
        }
        let next = 10 * u128::from(value) + u128::from(*byte - b'0');
        if next > u128::from(high) {
            return None;
        }
        value = next as u64;
    }
    if low <= value { Some(value) } else { None }
}
