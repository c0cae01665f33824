//! The lines of a log, as values, and the text of each, printed.
#![tactic(auto)]

mod line;
mod line_list;
mod parts;
mod printing;
mod words;

pub use line::Line;
pub use line_list::LineList;
pub use printing::{cause_text, level_text, print_line};
pub use words::{Cause, Level};
