//! Cases of units and their sessions: a question a line on standard input, and its answer a line on standard output. A
//! line that begins with `#` is printed as it is.
#![tactic(auto)]

mod descriptions;
mod laws;
mod outcomes;
mod phases;
mod sessions;
mod units;

use case_words::{Answers, Unanswered, print_answers};
use std::alloc::Global;
use std::io;

#[derive(Drop)]
struct UnitCases;

impl Answers for UnitCases {
    fn answer(&mut self, alloc: Global, call: &str, rest: &str) -> Result<String, Unanswered> {
        match call {
            "permits" => phases::permits(alloc, rest),
            "next" => phases::next_phase(alloc, rest),
            "replies" => units::count(alloc, rest),
            "unit" => units::unit(alloc, rest),
            "turn" => units::turn(alloc, rest),
            "laws" => laws::laws(alloc, rest),
            "opening" => sessions::opening(alloc, rest),
            "second" => sessions::second(alloc, rest),
            "close" => sessions::closing(alloc, rest),
            _ => Err(Unanswered::Unknown),
        }
    }
}

fn main(rt: HostRuntime) -> io::Result<()> {
    let alloc = rt.alloc();
    print_answers(&rt, alloc, &mut UnitCases)
}
