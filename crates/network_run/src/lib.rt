//! The run of a network whose units are guests: its log is that of the ideal world of its files.
#![tactic(auto)]

mod running;

pub use running::run_network;
