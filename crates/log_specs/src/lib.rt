//! The lines of a log and their text, as definitions that other crates cite. There is no code here.
#![tactic(auto)]
