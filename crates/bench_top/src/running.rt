//! The command `run`.
ghost use Rattle.std.specs.Prelude.{◌≡◌, ◌≢◌, ◌⊎◌, map};
ghost use Rattle.log_specs.specs.Line.{line_text};
ghost use Rattle.wasm_types.specs.Modules.{NestedModule};
ghost use Rattle.network_specs.specs.Networks.{Network as network};
ghost use Rattle.network_folder.specs.Outcomes.{IsSound, seen};
ghost use Rattle.ideal_specs.specs.Ideal.{ideal_lines, ideal_log, ideal_status};
ghost use Rattle.bench_outside.specs.Causes.{Rose};
ghost use Rattle.bench_outside.specs.Pieces.{joined, WritesAll, BreaksOff, StopsBefore};
ghost use Rattle.bench_outside.specs.declared.refusal.FileId.{FileId};
ghost use Rattle.bench_top.specs.Statuses.{WritesNothing};
ghost use Rattle.bench_top.specs.Words.{Run};
ghost use Rattle.bench_top.specs.Deed.{IsFault};
ghost use Rattle.bench_top.specs.Executing.{CarriesOut};
ghost use Rattle.bench_top.specs.Playing.{ended};

use crate::status::Status;
use bench_outside::{Shelf, Sink};
use log_writing::{Ending, RunError};
use network_folder::{NetError, Network, read_network};
use network_run::run_network;
use std::alloc::Global;

/// The lines of an ideal run, one behind the other, are its log.
pub fn the_lines_of_a_run_are_its_log()
    ensures { (n : network NestedModule) → joined (map line_text (ideal_lines n)) ≡ ideal_log n }
{}

/// Writes the log of the network of a folder.
pub(crate) fn run_folder<H: Shelf, O: Sink>(
    alloc: Global,
    net: &str,
    shelf: &mut H,
    out: &mut O,
) -> Status
    ensures carries { CarriesOut H.Shelf O.Sink (Run net.now) shelf.old shelf.new out.old out.new result }
{
    match read_network(alloc, shelf, net) {
        Ok(network) => run_read(alloc, network, out),
        Err(NetError::Refused(refusal)) => Status::Refused(refusal),
        Err(NetError::Unread(file)) => Status::Unread(file),
        Err(NetError::Memory) => Status::Memory,
    }
}

/// Runs a network that was read, and writes its log.
fn run_read<O: Sink>(alloc: Global, network: Network, out: &mut O) -> Status
    requires sound { IsSound (seen network) }

    // Which answer comes.
    ensures answer { IsFault result ⊎ (result ≡ ended (ideal_status (seen network))) }
    ensures form { result ≢ Status.Usage }
    ensures read { (file : FileId) → result ≢ Status.Unread file }

    // What is written, and which fault is answered.
    ensures whole { IsFault result ⊎ WritesAll O.Sink out.old out.new (map line_text (ideal_lines (seen network))) }
    ensures broken { result ≡ Status.Unwritten → BreaksOff O.Sink out.old out.new (map line_text (ideal_lines (seen network))) }
    ensures stopped { result ≡ Status.Memory → StopsBefore O.Sink out.old out.new (map line_text (ideal_lines (seen network))) }
    ensures untouched { WritesNothing result → out.new ≡ out.old }
    ensures unwritten { result ≡ Status.Unwritten → Rose (O.faults out.old) (O.faults out.new) }
    ensures kept { (result ≡ Status.Unwritten) ⊎ (O.faults out.new ≡ O.faults out.old) }
{
    match run_network(alloc, network, out) {
        Ok(Ending::Done) => Status::Done,
        Ok(Ending::Spent) => Status::Spent,
        Err(RunError::Unwritten) => Status::Unwritten,
        Err(RunError::Memory) => Status::Memory,
    }
}
