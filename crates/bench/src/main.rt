//! The bench: `play FILE` runs the play of a file on one simulated CAN bus and writes its log, `wasm FILE` writes what
//! the WebAssembly module of a file holds, `call FILE NAME FUEL ARGS` how a call of one of its functions ends, and
//! `run NET` runs the network of a folder and writes its log.
#![tactic(auto)]

mod process;

use bench_outside::{FileShelf, OutSink, SystemFiles};
use bench_top::Status;
use process::{bench_over, exit_of, words_of};
use std::env;
use std::process::ExitCode;

fn main(rt: HostRuntime) -> ExitCode {
    let alloc = rt.alloc();
    let Ok(words) = words_of(alloc, env::args(&rt)) else {
        return exit_of(&Status::Memory);
    };
    let mut out = OutSink::new(rt.stdout());
    let mut report = OutSink::new(rt.stderr());
    let mut shelf = FileShelf::new(alloc, SystemFiles::new(rt));
    let status = bench_over(alloc, &words, &mut shelf, &mut out, &mut report);
    exit_of(&status)
}
