//! The operations of a bus and their bytes, as definitions that other crates cite. There is no code here.
#![tactic(auto)]
