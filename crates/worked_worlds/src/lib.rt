//! Worked runs of networks, computed on the definitions. There is no code here.
#![tactic(auto)]
