//! The network of a plan and its modules: each node has a guest as its unit.
#![tactic(auto)]

mod opening;

pub use opening::open_world;
