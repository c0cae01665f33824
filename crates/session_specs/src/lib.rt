//! One session of a unit, as definitions that other crates cite. There is no code here.
#![tactic(auto)]
