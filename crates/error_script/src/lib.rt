//! The error script of a bus: which attempts to send a frame fail, and how.
#![tactic(auto)]

mod script;

pub use script::{ErrorEntry, ErrorList};
