//! Words and decimal numbers of a text.
#![tactic(auto)]

mod cutting;
mod numbers;

pub use cutting::{cut, find, parts};
pub use numbers::number_in;
