//! Cases of the world: a question a line on standard input, and its answer a line on standard output. A line that begins
//! with `#` is printed as it is.
#![tactic(auto)]

mod events;
mod logs;
mod replies;
mod saved;
mod three_nodes;
mod units;

use case_words::{Answers, Unanswered, print_answers};
use std::alloc::Global;
use std::io;

#[derive(Drop)]
struct WorldCases;

impl Answers for WorldCases {
    fn answer(&mut self, alloc: Global, call: &str, rest: &str) -> Result<String, Unanswered> {
        match call {
            "opens" => events::opens(alloc, rest),
            "log" => logs::log(alloc, rest),
            "saved" => saved::saved(alloc, rest),
            _ => Err(Unanswered::Unknown),
        }
    }
}

fn main(rt: HostRuntime) -> io::Result<()> {
    let alloc = rt.alloc();
    print_answers(&rt, alloc, &mut WorldCases)
}
