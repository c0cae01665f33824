//! What a network's files are asked: the names of the network file's fields, and the list of checks as definitions.
#![tactic(auto)]

mod field;

pub use field::NetworkField;
