//! Guests of stated behaviour, and their descriptions, for networks that are tried.
#![tactic(auto)]

mod bodies;
mod description;
mod guests;
mod laws;
mod manner;
mod program;

pub use description::description_of;
pub use guests::{echo, flooder, gateway, listener, sender, sleeper};
pub use laws::{guests_are_read_back, guests_are_units};
