//! CAN frames, their texts, and the small lists that public types hold.
#![tactic(auto)]

mod frame;
mod hexadecimal;
mod laws;
mod lists;
mod printing;
mod reading;

pub use frame::{Frame, FrameError, Kind};
pub use laws::{
    a_printed_frame_is_read_back, a_text_is_read_as_what_it_spells, a_text_is_that_of_one_frame,
};
pub use lists::{Bytes, Name, Numbers};
