//! What a guest does.
ghost use Rattle.std.specs.Prelude.{◌≡◌, ◌<◌, ◌^◌, length, IfOk};
ghost use Rattle.guest_kit.specs.Guests.{numbers_of, listens, ticks};

use std::alloc::{AllocError, Global};

/// What a guest does with its countdown clock, and with what it receives.
#[derive(Clone, Copy)]
pub struct Manner {
    /// Its interval, in counts of the resolution.
    pub counter: u64,
    /// How many of them a second has.
    pub resolution: u64,
    /// Whether the interval is set.
    pub ticks: bool,
    /// The `Tx_Clock` of the terminal where it emits.
    pub clock: u32,
    /// Whether it emits the transmits that it receives at terminal 0.
    pub forwards: bool,
    /// Whether it answers a wakeup.
    pub wakes: bool,
}

/// No interval, and nothing is forwarded or answered.
pub fn listens() -> Manner
    ensures { result ≡ listens }
{
    Manner {
        counter: 0,
        resolution: 0,
        ticks: false,
        clock: 2,
        forwards: false,
        wakes: false,
    }
}

/// With an interval.
pub fn ticks(counter: u64, resolution: u64) -> Manner
    ensures { result ≡ ticks counter resolution }
{
    Manner {
        counter,
        resolution,
        ticks: true,
        ..listens()
    }
}

impl Manner {
    /// The memory of the guest from 0 on, where its program looks for what it does.
    pub fn numbers(
        self,
        alloc: Global,
        answer: &[u8],
        opening: &[u8],
    ) -> Result<Vec<u8>, AllocError>
        requires answer { length answer.now < 2 ^ 32 }
        requires opening { length opening.now < 2 ^ 32 }
        ensures { IfOk result (λ bytes. bytes.items ≡ numbers_of self answer.now opening.now) }
    {
        let qualifier: u32 = if self.ticks { 2 } else { 1 };
        let mut bytes = Vec::from_slice(alloc, &self.counter.to_le_bytes())?;
        bytes.extend_from_slice(&self.resolution.to_le_bytes())?;
        bytes.extend_from_slice(&qualifier.to_le_bytes())?;
        bytes.extend_from_slice(&(opening.len() as u32).to_le_bytes())?;
        bytes.extend_from_slice(&self.clock.to_le_bytes())?;
        bytes.extend_from_slice(&u32::from(self.forwards).to_le_bytes())?;
        bytes.extend_from_slice(&u32::from(self.wakes).to_le_bytes())?;
        bytes.extend_from_slice(&(answer.len() as u32).to_le_bytes())?;
        bytes.extend_from_slice(answer)?;
        Ok(bytes)
    }
}
