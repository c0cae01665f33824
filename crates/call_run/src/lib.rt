//! Calls from outside: the line on a call of a function that the module of a file exports.
#![tactic(auto)]

mod finding;
mod line;
mod machine;
mod report;
mod running;

pub use report::{CallError, call_report};
