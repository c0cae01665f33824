//! What holds of every guest's answers: each law is the contract of a call that does nothing.
#![tactic(auto)]

mod calls;
mod modules;
mod replies;

pub use calls::{
    a_call_changes_nothing_else, each_function_has_a_budget_of_its_own,
    the_area_stays_in_the_memory,
};
pub use modules::{
    a_binding_fault_is_the_first, functions_of_a_unit_are_never_stuck,
    modules_of_units_have_all_functions,
};
pub use replies::{replies_suit_their_calls, the_area_is_read_behind_ok_and_warning_alone};
