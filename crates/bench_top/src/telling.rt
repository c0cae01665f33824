//! The command `wasm`.
ghost use Rattle.std.specs.Prelude.{◌≡◌, ◌≢◌, ◌^◌, ◌⊎◌};
ghost use Rattle.module_specs.specs.ModuleSpelling.{most_bytes};
ghost use Rattle.module_specs.specs.ModuleReading.{module_read};
ghost use Rattle.bench_outside.specs.Causes.{Rose};
ghost use Rattle.bench_outside.specs.Pieces.{WritesAll, BreaksOff};
ghost use Rattle.bench_outside.specs.declared.refusal.FileId.{FileId};
ghost use Rattle.bench_outside.specs.declared.refusal.Refusal.{Refusal};
ghost use Rattle.bench_top.specs.Statuses.{WritesNothing};
ghost use Rattle.bench_top.specs.Words.{Wasm};
ghost use Rattle.bench_top.specs.Deed.{IsFault};
ghost use Rattle.bench_top.specs.Executing.{CarriesOut};
ghost use Rattle.bench_top.specs.Telling.{unaccepted_status, read_status, read_lines};

use crate::refusals::{refused, refused_if};
use crate::status::Status;
use bench_outside::{FileId, Shelf, Sink, Why};
use module_report::{ReportError, module_report};
use refusal_names::{read_refusal, rule_refusal};
use std::alloc::Global;
use wasm_validate::Invalid;
use whole_files::{FetchError, fetch};

/// The greatest length of a module's file, in bytes.
pub(crate) const LIMIT: u64 = 4_194_304;

/// The limit is that of the format: 2^22 bytes.
pub fn limit_of_modules_is_that_of_the_format()
    ensures { (LIMIT ≡ 2 ^ 22) × (most_bytes ≡ LIMIT) }
{}

/// Writes the line on the module of a file, if it is valid.
pub(crate) fn tell_module<H: Shelf, O: Sink>(
    alloc: Global,
    file: &str,
    shelf: &mut H,
    out: &mut O,
) -> Status
    ensures carries { CarriesOut H.Shelf O.Sink (Wasm file.now) shelf.old shelf.new out.old out.new result }
{
    match fetch(alloc, shelf, file, LIMIT) {
        Ok(bytes) => tell_bytes(alloc, &bytes, out),
        Err(FetchError::Unread) => Status::Unread(FileId::Main),
        Err(FetchError::Size) => refused(Why::Size, LIMIT),
        Err(FetchError::Memory) => Status::Memory,
    }
}

/// Writes the line on the module that these bytes spell, if it is valid.
fn tell_bytes<O: Sink>(alloc: Global, bytes: &[u8], out: &mut O) -> Status
    // Which answer comes.
    ensures answer { IsFault result ⊎ (result ≡ read_status (module_read bytes.now)) }
    ensures form { result ≢ Status.Usage }
    ensures read { (file : FileId) → result ≢ Status.Unread file }

    // What is written, and which fault is answered.
    ensures whole { IsFault result ⊎ WritesAll O.Sink out.old out.new (read_lines (module_read bytes.now)) }
    ensures broken { result ≡ Status.Unwritten → BreaksOff O.Sink out.old out.new (read_lines (module_read bytes.now)) }
    ensures stopped { result ≡ Status.Memory → out.new ≡ out.old }
    ensures untouched { WritesNothing result → out.new ≡ out.old }
    ensures spared { (r : Refusal) → read_status (module_read bytes.now) ≡ Status.Refused r → out.new ≡ out.old }
    ensures unwritten { result ≡ Status.Unwritten → Rose (O.faults out.old) (O.faults out.new) }
    ensures kept { (result ≡ Status.Unwritten) ⊎ (O.faults out.new ≡ O.faults out.old) }
{
    let line = match module_report(alloc, bytes) {
        Ok(line) => line,
        Err(error) => return unaccepted(error),
    };
    match out.write(&line) {
        Ok(()) => Status::Done,
        Err(_) => Status::Unwritten,
    }
}

/// The status where a file isn't that of a valid module.
pub(crate) fn unaccepted(error: ReportError) -> Status
    ensures status { result ≡ unaccepted_status error }
    ensures form { result ≢ Status.Usage }
    ensures read { (file : FileId) → result ≢ Status.Unread file }
    ensures written { result ≢ Status.Unwritten }
{
    match error {
        ReportError::Read(error) => refused_if(read_refusal(FileId::Main, error)),
        ReportError::Invalid(Invalid::Rule { rule, place, at }) => {
            Status::Refused(rule_refusal(FileId::Main, rule, place, at))
        }
        ReportError::Invalid(Invalid::Memory) => Status::Memory,
    }
}
