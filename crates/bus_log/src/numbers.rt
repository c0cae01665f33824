//! Decimal numbers.
ghost use Rattle.std.specs.Prelude.{◌≡◌, ◌<◌, ◌≤◌, ◌^◌, IfOk, IfSome, option_and_then, option_map, map};
ghost use Rattle.bus_log.specs.Reading.{rising_from, numbers_in as numbers_of, word32, word64};
ghost use Rattle.plain_text.specs.Decimal.{number_in as number_of, digits_value, within};

use crate::verb::is_word;
use can_frame::Numbers;
use plain_text::{number_in, parts};
use std::alloc::{AllocError, Global};

/// The number of 64 bits that a text is.
pub(crate) fn word64_in(text: &[u8]) -> Option<u64>
    ensures { result ≡ number_of 0 word64 text.now }
{
    number_in(0, u64::MAX, text)
}

/// The number of 32 bits that a text is.
pub(crate) fn word32_in(text: &[u8]) -> Option<u32>
    ensures { result ≡ number_of 0 word32 text.now }
{
    let number = number_in(0, 0xffff_ffff, text)?;
    Some(number as u32)
}

/// The number from `low` to `high` that a text is.
pub(crate) fn byte_in(low: u8, high: u8, text: &[u8]) -> Option<u8>
    ensures { result ≡ number_of low high text.now }
{
    let number = number_in(u64::from(low), u64::from(high), text)?;
    Some(number as u8)
}

/// The numbers of 32 bits that a text is, joined by commas and rising; a dash is none.
#[tactic(auto, unfolding(crate::specs::Reading::numbers_in))]
pub(crate) fn numbers_in(alloc: Global, text: &[u8]) -> Result<Option<Numbers>, AllocError>
    ensures { IfOk result (λ o. o ≡ numbers_of text.now) }
{
    if is_word(text, b"-") {
        return Ok(Some(Numbers::of(Vec::new(alloc))));
    }
    let parts = parts(alloc, b',', text)?;
    rising_numbers(alloc, &parts)
}

fn rising_numbers(alloc: Global, texts: &[&[u8]]) -> Result<Option<Numbers>, AllocError>
    ensures { IfOk result (λ o. o ≡ rising_from 0 (map (λ w. w.now) texts.now)) }
{
    let mut numbers = Vec::new(alloc);
    let mut low = 0;
    for text in texts {
        let Some(number) = number_in(low, 0xffff_ffff, text) else {
            return Ok(None);
        };
        numbers.push(number as u32)?;
        low = number + 1;
    }
    Ok(Some(Numbers::of(numbers)))
}
