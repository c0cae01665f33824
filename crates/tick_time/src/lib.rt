//! Times as whole ticks: how long a bit lasts at a rate, and counters at another resolution.
#![tactic(auto)]

mod bit_time;
mod scaling;

pub use bit_time::BitTime;
pub use scaling::scale;
