//! One CAN bus and what holds of it in every history, as definitions that other crates cite. There is no code
//! here.
#![tactic(auto)]
