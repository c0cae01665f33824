//! The plan of a network, by its network file and what is known of its units.
#![tactic(auto)]

mod attached;
mod buses;
mod members;
mod plan;

pub use attached::attached_buses;
pub use plan::plan_of;
