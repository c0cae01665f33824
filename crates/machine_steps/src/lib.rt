//! Steps of a machine over flat code, and that a run of them gives what nested code means.
#![tactic(auto)]

mod frame;

pub use frame::{Frame, Label};
