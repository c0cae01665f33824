//! Units, as definitions that other crates cite: what a bench knows of a unit. There is no code here.
#![tactic(auto)]
