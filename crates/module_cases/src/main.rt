//! Cases of the tower of modules: a question a line on standard input, and its answer a line on standard output. A line
//! that begins with `#` is printed as it is.
#![tactic(auto)]

mod building;
mod code;
mod memory;
mod modules;
mod numbers;
mod parts;

use case_words::{Answers, Unanswered, print_answers};
use std::alloc::Global;
use std::io;

#[derive(Drop)]
struct ModuleCases;

impl Answers for ModuleCases {
    fn answer(&mut self, alloc: Global, call: &str, rest: &str) -> Result<String, Unanswered> {
        match call {
            "read_u32" => numbers::read_u32(alloc, rest),
            "read_s32" => numbers::read_s32(alloc, rest),
            "read_s64" => numbers::read_s64(alloc, rest),
            "write_u32" => numbers::write_u32(alloc, rest),
            "write_s32" => numbers::write_s32(alloc, rest),
            "write_s64" => numbers::write_s64(alloc, rest),
            "number" => numbers::number(alloc, rest),
            "body" => code::body(alloc, rest),
            "code" => code::code(alloc, rest),
            "read" => modules::read(alloc, rest),
            "parts" => modules::parts(alloc, rest),
            "valid" => modules::valid(alloc, rest),
            "written" => modules::written(alloc, rest),
            "report" => modules::report(alloc, rest),
            "call" => modules::call(alloc, rest),
            "build" => building::build(alloc, rest),
            "memory" => memory::memory(alloc, rest),
            _ => Err(Unanswered::Unknown),
        }
    }
}

fn main(rt: HostRuntime) -> io::Result<()> {
    let alloc = rt.alloc();
    print_answers(&rt, alloc, &mut ModuleCases)
}
