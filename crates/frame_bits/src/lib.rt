//! Frames on the wire (ISO 11898-1): how many bits they take, how long they last, and the bits themselves.
#![tactic(auto)]

mod counter;
mod laws;
mod layout;
mod lengths;
mod listing;
mod packed;
mod times;

pub use laws::{no_six_equal_bits_in_a_row, one_stuff_bit_for_four_bits};
pub use lengths::{ack_bit, stuffed_len, wire_len};
pub use listing::bits;
pub use times::{duration, time_of_bit};
