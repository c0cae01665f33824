//! The command `call`.
ghost use Rattle.std.specs.Prelude.{◌≡◌, ◌≢◌, ◌⊎◌};
ghost use Rattle.module_specs.specs.ModuleReading.{module_read};
ghost use Rattle.bench_outside.specs.Causes.{Rose};
ghost use Rattle.bench_outside.specs.Pieces.{WritesAll, BreaksOff};
ghost use Rattle.bench_outside.specs.declared.refusal.FileId.{FileId};
ghost use Rattle.bench_outside.specs.declared.refusal.Refusal.{Refusal};
ghost use Rattle.bench_top.specs.Statuses.{WritesNothing};
ghost use Rattle.bench_top.specs.Words.{Call, meant_call};
ghost use Rattle.bench_top.specs.Deed.{IsFault};
ghost use Rattle.bench_top.specs.Executing.{CarriesOut};
ghost use Rattle.bench_top.specs.Calling.{fault_refusal, uncalled_status, call_status, call_lines};

use crate::refusals::refused;
use crate::status::Status;
use crate::telling::{LIMIT, unaccepted};
use crate::words::CallWords;
use bench_outside::{FileId, Shelf, Sink, Why};
use call_run::{CallError, call_report};
use call_specs::CallFault;
use refusal_names::misfit_refusal;
use std::alloc::Global;
use whole_files::{FetchError, fetch};

/// Writes the line on a call of a function of a file's module.
pub(crate) fn call_function<H: Shelf, O: Sink>(
    alloc: Global,
    words: &CallWords<'_>,
    shelf: &mut H,
    out: &mut O,
) -> Status
    ensures carries { CarriesOut H.Shelf O.Sink (Call (meant_call words.now)) shelf.old shelf.new out.old out.new result }
{
    match fetch(alloc, shelf, words.file, LIMIT) {
        Ok(bytes) => call_in(alloc, words, &bytes, out),
        Err(FetchError::Unread) => Status::Unread(FileId::Main),
        Err(FetchError::Size) => refused(Why::Size, LIMIT),
        Err(FetchError::Memory) => Status::Memory,
    }
}

/// Writes the line on a call of a function of the module that these bytes spell.
fn call_in<O: Sink>(alloc: Global, words: &CallWords<'_>, bytes: &[u8], out: &mut O) -> Status
    // Which answer comes.
    ensures answer { IsFault result ⊎ (result ≡ call_status (meant_call words.now) (module_read bytes.now)) }
    ensures form { result ≢ Status.Usage }
    ensures read { (file : FileId) → result ≢ Status.Unread file }

    // What is written, and which fault is answered.
    ensures whole { IsFault result
        ⊎ WritesAll O.Sink out.old out.new (call_lines (meant_call words.now) (module_read bytes.now)) }
    ensures broken { result ≡ Status.Unwritten
        → BreaksOff O.Sink out.old out.new (call_lines (meant_call words.now) (module_read bytes.now)) }
    ensures stopped { result ≡ Status.Memory → out.new ≡ out.old }
    ensures untouched { WritesNothing result → out.new ≡ out.old }
    ensures spared { (r : Refusal) → call_status (meant_call words.now) (module_read bytes.now) ≡ Status.Refused r
        → out.new ≡ out.old }
    ensures unwritten { result ≡ Status.Unwritten → Rose (O.faults out.old) (O.faults out.new) }
    ensures kept { (result ≡ Status.Unwritten) ⊎ (O.faults out.new ≡ O.faults out.old) }
{
    let name = words.name.as_bytes();
    let line = match call_report(alloc, bytes, name, words.fuel, &words.arguments) {
        Ok(line) => line,
        Err(error) => return uncalled(error),
    };
    match out.write(&line) {
        Ok(()) => Status::Done,
        Err(_) => Status::Unwritten,
    }
}

/// The status where no function is called.
fn uncalled(error: CallError) -> Status
    ensures status { result ≡ uncalled_status error }
    ensures form { result ≢ Status.Usage }
    ensures read { (file : FileId) → result ≢ Status.Unread file }
    ensures written { result ≢ Status.Unwritten }
{
    match error {
        CallError::Module(error) => unaccepted(error),
        CallError::Call(fault) => unfit(fault),
        CallError::Memory => Status::Memory,
    }
}

/// The status where no function of a valid module is called.
fn unfit(fault: CallFault) -> Status
    ensures { result ≡ Status.Refused (fault_refusal fault) }
{
    match fault {
        CallFault::Segment(misfit) => Status::Refused(misfit_refusal(FileId::Main, misfit)),
        CallFault::Export => refused(Why::Export, 0),
        CallFault::Args(place) => refused(Why::Args, place),
    }
}
