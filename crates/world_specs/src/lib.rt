//! A network of nodes on several buses, event by event, as definitions that other crates cite. There is no code
//! here.
#![tactic(auto)]
