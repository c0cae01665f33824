//! All that the bench does, over any shelf and sinks: `play FILE` runs the play of a file on one simulated CAN bus and
//! writes its log, `wasm FILE` writes what the WebAssembly module of a file holds, `call FILE NAME FUEL ARGS` how a call
//! of one of its functions ends, and `run NET` runs the network of a folder and writes its log.
#![tactic(auto)]

mod calling;
mod carrying;
mod laws;
mod playing;
mod refusals;
mod reporting;
mod running;
mod status;
mod telling;
mod top;
mod words;

pub use laws::a_field_is_printed_by_its_name;
pub use playing::{limits_are_those_of_the_format, the_lines_of_a_play_are_its_log};
pub use running::the_lines_of_a_run_are_its_log;
pub use status::Status;
pub use telling::limit_of_modules_is_that_of_the_format;
pub use top::{bench, execute};
