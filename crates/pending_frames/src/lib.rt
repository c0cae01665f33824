//! The frames that wait to be sent on a bus: for each node a list in the order in which it offers them.
#![tactic(auto)]

mod entry;
mod frames;
mod walks;

pub use frames::PendingFrames;
