//! What a description is asked: the names of its fields, its variables, and the list of checks as definitions.
#![tactic(auto)]

mod field;
mod variable;

pub use field::Field;
pub use variable::{BinaryVariable, Causality, ClockVariable, IntervalVariability};
