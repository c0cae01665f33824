//! Cases of documents, descriptions and network files: a question a line on standard input, and its answer a line on
//! standard output. A line that begins with `#` is printed as it is.
#![tactic(auto)]

mod descriptions;
mod documents;
mod networks;
mod texts;

use case_words::{Answers, Unanswered, print_answers};
use std::alloc::Global;
use std::io;

/// The text that was kept last.
#[derive(Drop)]
struct Kept {
    text: String,
}

/// The text that a question keeps for those behind it, and how long it is.
fn keep(alloc: Global, kept: &mut String, rest: &str) -> Result<String, Unanswered> {
    let text = texts::text_of(alloc, rest)?;
    let len = text.len();
    *kept = text;
    Ok(format!(in alloc; "{len} bytes")?)
}

impl Answers for Kept {
    fn answer(&mut self, alloc: Global, call: &str, rest: &str) -> Result<String, Unanswered> {
        match call {
            "keep" => keep(alloc, &mut self.text, rest),
            "document" => documents::document(alloc, &self.text),
            "at" => documents::at(alloc, &self.text, rest),
            "description" => descriptions::description(alloc, &self.text, rest),
            "description_behind" => descriptions::behind(alloc, &self.text, rest),
            "network" => networks::network(alloc, &self.text, rest),
            "node" => networks::node(alloc, &self.text, rest),
            "error" => networks::error(alloc, &self.text, rest),
            _ => Err(Unanswered::Unknown),
        }
    }
}

fn main(rt: HostRuntime) -> io::Result<()> {
    let alloc = rt.alloc();
    let mut kept = Kept {
        text: String::new(alloc),
    };
    print_answers(&rt, alloc, &mut kept)
}
