//! Reading a play file: a bus, the errors on its wire, and what its nodes do at which moment.
#![tactic(auto)]

mod action;
mod draft;
mod error;
mod header;
mod laws;
mod play;
mod reading;
mod text;

pub use action::{Action, Verb};
pub use error::PlayError;
pub use laws::{
    a_reader_with_one_fixed_frame_is_wrong, every_file_has_one_answer,
    no_line_of_a_play_is_passed_over, the_lines_before_the_refused_one_are_a_play,
    the_refused_line_is_in_the_file, the_text_of_a_play_is_read_as_it,
    what_stands_behind_the_refused_line_changes_nothing,
};
pub use play::Play;
pub use reading::read_play;
