//! Arbitration by numbers: a frame beats another exactly where its key is smaller.
#![tactic(auto)]

mod keys;

pub use keys::{equal_keys_arbitrate_alike, key, smaller_key_wins};
