//! Times in ticks.
ghost use Rattle.std.specs.Prelude.{◌≤◌, ◌^◌, IfOk};

use case_words::{Unanswered, cut, long, short};
use std::alloc::Global;
use tick_time::BitTime;

fn told(alloc: Global, ticks: Option<u64>) -> Result<String, Unanswered> {
    match ticks {
        Some(ticks) => Ok(format!(in alloc; "{ticks}")?),
        None => Ok(String::from_str(alloc, "none")?),
    }
}

/// How many ticks a second has.
fn resolution(word: &str) -> Result<u64, Unanswered>
    ensures some { IfOk result (λ ticks. 1 ≤ ticks) }
    ensures bound { IfOk result (λ ticks. ticks ≤ 10 ^ 12) }
{
    let ticks = long(word)?;
    if 1 <= ticks && ticks <= 1_000_000_000_000 {
        Ok(ticks)
    } else {
        Err(Unanswered::Unknown)
    }
}

/// How many bits.
fn count(word: &str) -> Result<u32, Unanswered>
    ensures { IfOk result (λ bits. bits ≤ 2 ^ 20) }
{
    let bits = short(word)?;
    if bits <= 0x10_0000 {
        Ok(bits)
    } else {
        Err(Unanswered::Unknown)
    }
}

/// The ticks of one bit and of some bits, at a rate, where a second has so many ticks: `500000 1000000000 50`.
pub fn bit(alloc: Global, rest: &str) -> Result<String, Unanswered> {
    let (rate, rest) = cut(rest);
    let (ticks, bits) = cut(rest);
    let bits = count(bits)?;
    match BitTime::of_rate(short(rate)?, resolution(ticks)?) {
        Some(time) => Ok(format!(in alloc; "{} {}", time.ticks(), time.bits(bits))?),
        None => told(alloc, None),
    }
}

/// A number of ticks, told at another resolution: `10 1000 1000000000`.
pub fn scale(alloc: Global, rest: &str) -> Result<String, Unanswered> {
    let (counter, rest) = cut(rest);
    let (from, to) = cut(rest);
    told(
        alloc,
        tick_time::scale(long(counter)?, long(from)?, long(to)?),
    )
}
