//! Checks over TOML documents, as definitions that other crates cite. There is no code here.
#![tactic(auto)]
