//! Laws of the integer operations in the words of arithmetic, which the standard says by bits or by cases (WebAssembly
//! Core 1.0, section 4.3.2): each is the contract of a function with an empty body.
#![tactic(auto)]

mod counts;
mod division;
mod shifts;
mod signs;

pub use counts::{
    leading_zeros_give_the_size, ones_are_the_sum_of_digits, trailing_zeros_give_the_odd_part,
};
pub use division::{
    divisions_trap, signed_division_makes_the_dividend, unsigned_division_makes_the_dividend,
};
pub use shifts::{rotations_undo_each_other, signed_shifts_round_down};
pub use signs::signs_are_read_back;
