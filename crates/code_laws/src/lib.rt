//! What holds of typed code and of what code does, for all code: each law is the contract of a call that does nothing.
#![tactic(auto)]

mod bit_operations;
mod one_instruction;
mod sound_calls;
mod spent_fuel;
mod typed_code;

pub use bit_operations::shifts_are_products_and_quotients;
pub use one_instruction::numbers_alone_are_enough;
pub use sound_calls::{
    calls_return_values_of_their_types, globals_stay_in_range, memories_never_become_smaller,
    valid_calls_are_never_stuck,
};
pub use spent_fuel::{calls_that_end_use_the_same_fuel, fuel_never_rises, loops_begin_again};
pub use typed_code::{
    branches_lead_to_labels_that_are_there, typed_bodies_leave_exactly_their_results,
    typing_goes_from_left_to_right,
};
