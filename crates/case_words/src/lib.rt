//! What the programs of cases have in common: the loop over questions, their words, and why one has no answer.
#![tactic(auto)]

mod answering;
mod unanswered;
mod words;

pub use answering::{Answers, print_answers};
pub use unanswered::Unanswered;
pub use words::{bytes_of, cut, hexadecimal, long, short, told_bytes};
