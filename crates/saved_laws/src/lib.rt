//! Laws of saved states: each is the contract of a function with an empty body.
#![tactic(auto)]

mod calls;
mod images;
mod runs;

pub use calls::sessions_leave_guests_suited;
pub use images::{
    an_ideal_log_is_a_head_and_the_rest, what_a_network_is_made_from_is_saved,
    what_is_saved_of_a_network_is_made_again,
};
pub use runs::{
    each_state_fits, each_state_of_a_network_fits, each_state_of_guests_fits, guests_stay_suited,
    the_laws_have_cases, what_opens_fits,
};
