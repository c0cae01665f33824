//! How the log of a run is written: line by line, each line by one write, and how a run ends.
#![tactic(auto)]

mod ending;
mod writing;

pub use ending::{Ending, RunError};
pub use writing::{write_end, write_line, write_lines};
