//! Frames on the wire and their texts, as definitions that other crates cite. There is no code here.
#![tactic(auto)]
