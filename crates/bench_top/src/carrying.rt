//! Carrying out a command: one arm for each.
ghost use Rattle.bench_top.specs.Words.{meant};
ghost use Rattle.bench_top.specs.Executing.{CarriesOut};

use crate::calling::call_function;
use crate::playing::play;
use crate::running::run_folder;
use crate::status::Status;
use crate::telling::tell_module;
use crate::words::Command;
use bench_outside::{Shelf, Sink};
use std::alloc::Global;

/// Carries out a command.
pub(crate) fn carry_out<H: Shelf, O: Sink>(
    alloc: Global,
    command: Command<'_>,
    shelf: &mut H,
    out: &mut O,
) -> Status
    ensures carries { CarriesOut H.Shelf O.Sink (meant command.entry) shelf.old shelf.new out.old out.new result }
{
    match command {
        Command::Play(file) => play(alloc, file, shelf, out),
        Command::Wasm(file) => tell_module(alloc, file, shelf, out),
        Command::Call(words) => call_function(alloc, &words, shelf, out),
        Command::Run(net) => run_folder(alloc, net, shelf, out),
    }
}
