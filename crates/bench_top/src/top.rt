//! All that the program does, over any shelf and sinks.
ghost use Rattle.std.specs.Prelude.{◌≡◌, ◌⊎◌, map, string_bytes};
ghost use Rattle.bench_outside.specs.Causes.{Rose};
ghost use Rattle.bench_outside.specs.Pieces.{WritesAll, BreaksOff};
ghost use Rattle.bench_top.specs.Executing.{Executes};
ghost use Rattle.bench_top.specs.Report.{report_pieces};

use crate::carrying::carry_out;
use crate::reporting::report_status;
use crate::status::Status;
use crate::words::command_of;
use bench_outside::{Shelf, Sink};
use std::alloc::Global;

/// Carries out the command that the words are: all that the program does but its report.
pub fn execute<H: Shelf, O: Sink>(
    alloc: Global,
    words: &[String],
    shelf: &mut H,
    out: &mut O,
) -> Status
    ensures executes { Executes H.Shelf O.Sink (map string_bytes words.now) shelf.old shelf.new out.old out.new result }
{
    match command_of(alloc, words) {
        Ok(Some(command)) => carry_out(alloc, command, shelf, out),
        Ok(None) => Status::Usage,
        Err(_) => Status::Memory,
    }
}

/// Does all that the program does: `execute`, and then the line on its status. A fault of the report
/// changes no status.
pub fn bench<H: Shelf, O: Sink, R: Sink>(
    alloc: Global,
    words: &[String],
    shelf: &mut H,
    out: &mut O,
    report: &mut R,
) -> Status
    // As `execute`.
    ensures executes { Executes H.Shelf O.Sink (map string_bytes words.now) shelf.old shelf.new out.old out.new result }

    // The report is the line on the status. At a fault it is a first part of it, and nothing behind.
    ensures report { ¬ (Rose (R.faults report.old) (R.faults report.new))
        → WritesAll R.Sink report.old report.new (report_pieces result) }
    ensures report_part { WritesAll R.Sink report.old report.new (report_pieces result)
        ⊎ BreaksOff R.Sink report.old report.new (report_pieces result) }
    ensures silent { result ≡ Status.Done → report.new ≡ report.old }
{
    let status = execute(alloc, words, shelf, out);
    report_status(report, &status);
    status
}
