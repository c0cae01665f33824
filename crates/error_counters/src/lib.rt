//! The error counters of a node, and its fault confinement state (ISO 11898-1, fault confinement).
#![tactic(auto)]

mod counters;
mod state;

pub use counters::{Counters, Role};
pub use state::State;
