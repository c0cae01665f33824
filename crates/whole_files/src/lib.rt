//! A whole file of a shelf, up to a greatest length.
#![tactic(auto)]

mod fetching;

pub use fetching::{FetchError, fetch};
