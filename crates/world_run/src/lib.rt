//! The run of a network of units, event by event, and the writing of its log.
#![tactic(auto)]

mod running;

pub use running::run;
