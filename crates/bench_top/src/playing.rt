//! The command `play`.
ghost use Rattle.std.specs.Prelude.{◌≡◌, ◌≢◌, ◌<◌, ◌^◌, ◌⊎◌, ℕ, Result, Err, map, length};
ghost use Rattle.log_specs.specs.Line.{line_text};
ghost use Rattle.play_specs.specs.Play.{Play as play_record, play_lines, play_log};
ghost use Rattle.play_specs.specs.PlayReading.{IsReadAs};
ghost use Rattle.bench_outside.specs.Causes.{Rose};
ghost use Rattle.bench_outside.specs.Pieces.{joined, WritesAll, BreaksOff, StopsBefore};
ghost use Rattle.bench_outside.specs.declared.refusal.FileId.{FileId};
ghost use Rattle.bench_top.specs.Statuses.{WritesNothing};
ghost use Rattle.bench_top.specs.Words.{Play};
ghost use Rattle.bench_top.specs.Deed.{IsFault};
ghost use Rattle.bench_top.specs.Executing.{CarriesOut};
ghost use Rattle.bench_top.specs.Playing.{placed, unplayed_status, status_of, lines_of, file_limit, event_budget};

use crate::refusals::refused;
use crate::status::Status;
use bench_outside::{FileId, Shelf, Sink, Why};
use log_writing::{Ending, RunError};
use play_file::{PlayError, read_play};
use play_run::run;
use std::alloc::Global;
use whole_files::{FetchError, fetch};

/// The greatest length of a file, in bytes.
const LIMIT: u64 = 16_777_216;

/// The events that a play may have.
const BUDGET: u64 = 1_000_000;

/// The limits are those of the format: a file of 2^24 bytes, and a million events.
pub fn limits_are_those_of_the_format()
    ensures bytes { (LIMIT ≡ 2 ^ 24) × (file_limit ≡ LIMIT) }
    ensures events { (BUDGET ≡ 10 ^ 6) × (event_budget ≡ BUDGET) }
{}

/// The lines of a play, one behind the other, are its log.
pub fn the_lines_of_a_play_are_its_log()
    ensures { (events : ℕ) (p : play_record)
        → joined (map line_text (play_lines events p)) ≡ play_log events p }
{}

/// Writes the log of the play of a file.
pub(crate) fn play<H: Shelf, O: Sink>(
    alloc: Global,
    file: &str,
    shelf: &mut H,
    out: &mut O,
) -> Status
    ensures carries { CarriesOut H.Shelf O.Sink (Play file.now) shelf.old shelf.new out.old out.new result }
{
    match fetch(alloc, shelf, file, LIMIT) {
        Ok(bytes) => play_bytes(alloc, BUDGET, &bytes, out),
        Err(FetchError::Unread) => Status::Unread(FileId::Main),
        Err(FetchError::Size) => refused(Why::Size, LIMIT),
        Err(FetchError::Memory) => Status::Memory,
    }
}

/// Runs the play that these bytes spell with at most this many events, and writes its log.
pub(crate) fn play_bytes<O: Sink>(alloc: Global, budget: u64, bytes: &[u8], out: &mut O) -> Status
    requires bounded { length bytes.now < 2 ^ 32 }
    requires budget { budget < 2 ^ 62 }

    // Which answer comes, whatever the bytes are read as.
    ensures answer { (a : Result play_record ℕ) → IsReadAs bytes.now a
        → IsFault result ⊎ (result ≡ status_of budget (placed a)) }
    ensures form { result ≢ Status.Usage }
    ensures read { (file : FileId) → result ≢ Status.Unread file }

    // What is written, and which fault is answered.
    ensures whole { (a : Result play_record ℕ) → IsReadAs bytes.now a
        → IsFault result ⊎ WritesAll O.Sink out.old out.new (lines_of budget (placed a)) }
    ensures broken { (a : Result play_record ℕ) → IsReadAs bytes.now a → result ≡ Status.Unwritten
        → BreaksOff O.Sink out.old out.new (lines_of budget (placed a)) }
    ensures stopped { (a : Result play_record ℕ) → IsReadAs bytes.now a → result ≡ Status.Memory
        → StopsBefore O.Sink out.old out.new (lines_of budget (placed a)) }
    ensures untouched { WritesNothing result → out.new ≡ out.old }
    ensures spared { (line : ℕ) → IsReadAs bytes.now (Err line) → out.new ≡ out.old }
    ensures unwritten { result ≡ Status.Unwritten → Rose (O.faults out.old) (O.faults out.new) }
    ensures kept { (result ≡ Status.Unwritten) ⊎ (O.faults out.new ≡ O.faults out.old) }
{
    let play = match read_play(alloc, bytes) {
        Ok(play) => play,
        Err(error) => return unplayed(error),
    };
    match run(alloc, budget, play, out) {
        Ok(Ending::Done) => Status::Done,
        Ok(Ending::Spent) => Status::Spent,
        Err(RunError::Unwritten) => Status::Unwritten,
        Err(RunError::Memory) => Status::Memory,
    }
}

/// The status where a file isn't read as a play.
fn unplayed(error: PlayError) -> Status
    ensures status { result ≡ unplayed_status error }
    ensures form { result ≢ Status.Usage }
    ensures read { (file : FileId) → result ≢ Status.Unread file }
    ensures written { result ≢ Status.Unwritten }
{
    match error {
        PlayError::Line { number } => refused(Why::Line, number),
        PlayError::Memory => Status::Memory,
    }
}
