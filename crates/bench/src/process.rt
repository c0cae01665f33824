//! What the process gives the program, and takes from it.
ghost use Rattle.std.specs.Prelude.{◌≡◌, ◌⊎◌, ◌↔◌, [], None, map, string_bytes, length, drop, IfOk, IfErr, OnErr, IsErr};
ghost use Rattle.std.specs.IoError.{error_kind};
ghost use Rattle.std.specs.Process.{exit_status};
ghost use Rattle.std.specs.Vec.Iter.{into_iter_items, into_iter_len};
ghost use Rattle.bench_outside.specs.Causes.{Rose};
ghost use Rattle.bench_top.specs.Words.{command_of};
ghost use Rattle.bench_top.specs.Statuses.{code_of};

use bench_outside::{OutSink, Shelf};
use bench_top::{Status, bench};
use std::alloc::{AllocError, Global};
use std::env::Args;
use std::io::{self, ErrorKind, Stderr, Stdout};
use std::process::ExitCode;

/// The words of the process without the first, which names the program.
pub(crate) fn words_of(alloc: Global, args: io::Result<Args>) -> Result<Vec<String>, AllocError>
    ensures given { IfOk args (λ all. into_iter_len all ≡ length (into_iter_items all)
        → IfOk result (λ words. words.items ≡ drop 1 (into_iter_items all))) }
    ensures none { OnErr args (IfOk result (λ words. words.items ≡ [])) }
    ensures memory { IfErr args (λ error. IsErr result ↔ (error_kind error ≡ ErrorKind.OutOfMemory)) }
{
    match args {
        Ok(all) => all.skip(1).collect::<Vec<String>>(alloc),
        Err(error) => words_without(alloc, &error),
    }
}

/// The words where those of the process can't be read: none where one of them isn't UTF-8.
fn words_without(alloc: Global, error: &io::Error) -> Result<Vec<String>, AllocError>
    ensures none { IfOk result (λ words. words.items ≡ []) }
    ensures memory { IsErr result ↔ (error_kind error.now ≡ ErrorKind.OutOfMemory) }
{
    if error.kind() == ErrorKind::OutOfMemory {
        Err(AllocError)
    } else {
        Ok(Vec::new(alloc))
    }
}

/// All that the program does: the log goes to the standard output, and the report to the standard error.
pub(crate) fn bench_over<H: Shelf>(
    alloc: Global,
    words: &[String],
    shelf: &mut H,
    out: &mut OutSink<Stdout>,
    report: &mut OutSink<Stderr>,
) -> Status
    ensures usage { (result ≡ Status.Usage) ↔ (command_of (map string_bytes words.now) ≡ None) }
    ensures unwritten { result ≡ Status.Unwritten → Rose out.old.faults out.new.faults }
    ensures kept { (result ≡ Status.Unwritten) ⊎ (out.new.faults ≡ out.old.faults) }
    ensures silent { result ≡ Status.Done → report.new ≡ report.old }
{
    bench(alloc, words, shelf, out, report)
}

/// The exit code of the process.
pub(crate) fn exit_of(status: &Status) -> ExitCode
    ensures { exit_status result ≡ code_of status.now }
{
    ExitCode::from(status.code())
}
