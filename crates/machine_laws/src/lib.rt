//! Laws of the machine's steps: each is the contract of a function with an empty body.
#![tactic(auto)]

mod laws;

pub use laws::{runs_give_what_code_means, runs_have_room};
