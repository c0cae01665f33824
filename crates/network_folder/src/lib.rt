//! The network of a folder on a shelf: its plan, its codes and its digest, or the first refusal in the order of its files.
#![tactic(auto)]

mod digest;
mod error;
mod files;
mod judging;
mod names;
mod network;
mod nodes;
mod reading;
mod units;

pub use error::NetError;
pub use network::Network;
pub use reading::read_network;
