//! The ideal run of a network of guests: what its log has to be. There is no code here.
#![tactic(auto)]
