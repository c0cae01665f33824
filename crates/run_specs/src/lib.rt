//! The foremost of a list, and runs of anything that goes on from event to event, as definitions that other
//! crates cite. There is no code here.
#![tactic(auto)]
