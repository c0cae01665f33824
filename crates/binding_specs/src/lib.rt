//! What the module of a unit exports, and what its answer to each call is, as definitions that other crates cite.
//! There is no code here but the names of the exported functions and of a fault.
#![tactic(auto)]

mod error;
mod function;

pub use error::BindError;
pub use function::Function;
