//! The lines of a log, read from their texts.
#![tactic(auto)]

mod laws;
mod numbers;
mod reading;
mod told;
mod verb;

pub use laws::{
    a_line_of_the_code_fits, a_line_of_the_code_is_read_back, a_printed_line_is_read_back,
    a_text_is_that_of_one_line, every_text_has_one_answer,
};
pub use log_lines::{Cause, Level, Line, LineList, print_line};
pub use reading::read_line;
