//! Cases of modules that are bound as units: a question a line on standard input, and its answer a line on standard
//! output. A line that begins with `#` is printed as it is. One question keeps a module, and those behind it are of that
//! one.
#![tactic(auto)]

mod binding;
mod kit;
mod modules;
mod running;

use case_words::{Answers, Unanswered, print_answers};
use std::alloc::Global;
use std::io;

/// The module that was kept last.
#[derive(Drop)]
struct Kept {
    bytes: Vec<u8>,
}

impl Answers for Kept {
    fn answer(&mut self, alloc: Global, call: &str, rest: &str) -> Result<String, Unanswered> {
        match call {
            "module" => modules::keep(alloc, &mut self.bytes, rest),
            "guest" => kit::keep(alloc, &mut self.bytes, rest),
            "described" => kit::described(alloc, rest),
            "bind" => binding::bind(alloc, &self.bytes, rest),
            "calls" => running::calls(alloc, &self.bytes, rest),
            "pages" => running::pages(alloc, &self.bytes, rest),
            _ => Err(Unanswered::Unknown),
        }
    }
}

fn main(rt: HostRuntime) -> io::Result<()> {
    let alloc = rt.alloc();
    let mut kept = Kept {
        bytes: Vec::new(alloc),
    };
    print_answers(&rt, alloc, &mut kept)
}
