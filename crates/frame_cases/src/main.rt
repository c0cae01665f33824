//! Cases of the tower of frames and operations: a question a line on standard input, and its answer a line on standard
//! output. A line that begins with `#` is printed as it is.
#![tactic(auto)]

mod frames;
mod lists;
mod operations;
mod reading;
mod times;
mod wire;

use case_words::{Answers, Unanswered, print_answers};
use std::alloc::Global;
use std::io;

#[derive(Drop)]
struct FrameCases;

impl Answers for FrameCases {
    fn answer(&mut self, alloc: Global, call: &str, rest: &str) -> Result<String, Unanswered> {
        match call {
            "frame" => frames::frame(alloc, rest),
            "frame_in" => frames::frame_in(alloc, rest),
            "make" => frames::make(alloc, rest),
            "copy" => frames::copy(alloc, rest),
            "bytes" => lists::bytes(alloc, rest),
            "bytes_in" => lists::bytes_in(alloc, rest),
            "numbers" => lists::numbers(alloc, rest),
            "name" => lists::name(alloc, rest),
            "wire" => wire::wire(alloc, rest),
            "bits" => wire::bits(alloc, rest),
            "key" => wire::key(alloc, rest),
            "bit" => times::bit(alloc, rest),
            "scale" => times::scale(alloc, rest),
            "items" => operations::items(alloc, rest),
            "write" => operations::write(alloc, rest),
            _ => Err(Unanswered::Unknown),
        }
    }
}

fn main(rt: HostRuntime) -> io::Result<()> {
    let alloc = rt.alloc();
    print_answers(&rt, alloc, &mut FrameCases)
}
