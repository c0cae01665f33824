//! Calls and replies of units as words, as the programs of cases read and print them.
#![tactic(auto)]

mod calls;
mod replies;

pub use calls::{call_of, told_call};
pub use replies::{reply_of, told_reply};
