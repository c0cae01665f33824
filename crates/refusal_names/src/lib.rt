//! The refusals of network files, descriptions and modules, by the names that a report prints.
#![tactic(auto)]

mod fields;
mod modules;

pub use fields::{description_why, network_why};
pub use modules::{misfit_refusal, read_refusal, rule_refusal, unbound_refusal};
