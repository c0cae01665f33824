//! A unit that notes its calls: over it the contract of a session tells which calls are made.
#![tactic(auto)]

mod copies;
mod exchanges;
mod noting;
mod sessions;

pub use exchanges::{Exchange, Exchanges};
pub use noting::{NotedState, NotingUnit};
pub use sessions::{noted_close, noted_session};
