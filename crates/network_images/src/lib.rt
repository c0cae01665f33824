//! What is saved of a network, and the network that is made of it: definitions alone. There is no code here.
#![tactic(auto)]
