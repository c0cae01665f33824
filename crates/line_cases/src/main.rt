//! Cases of lines and plays: a question a line on standard input, and its answer a line on standard output. A line that
//! begins with `#` is printed as it is.
#![tactic(auto)]

mod buses;
mod lines;
mod plays;
mod queues;
mod runs;
mod texts;

use case_words::{Answers, Unanswered, print_answers};
use std::alloc::Global;
use std::io;

#[derive(Drop)]
struct LineCases;

impl Answers for LineCases {
    fn answer(&mut self, alloc: Global, call: &str, rest: &str) -> Result<String, Unanswered> {
        match call {
            "number_in" => lines::number(alloc, rest),
            "parts" => lines::told_parts(alloc, rest),
            "read_line" => lines::read(alloc, rest),
            "read_play" => plays::read(alloc, rest),
            "run" => runs::run_play(alloc, rest),
            "run_failing" => runs::run_failing(alloc, rest),
            "laws" => runs::laws(alloc),
            "bus" => buses::bus(alloc, rest),
            "queue" => queues::calls(alloc, rest),
            "judge" => queues::orders(alloc, rest),
            _ => Err(Unanswered::Unknown),
        }
    }
}

fn main(rt: HostRuntime) -> io::Result<()> {
    let alloc = rt.alloc();
    print_answers(&rt, alloc, &mut LineCases)
}
