//! Saved states of networks as data, and which of them fit a plan: definitions alone. There is no code here.
#![tactic(auto)]
