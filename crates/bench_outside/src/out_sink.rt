//! A sink over a writer of std, as standard output.
ghost use Rattle.std.specs.Prelude.{◌≡◌, None, OnOk, OnErr, IfOk, ◌<◌, length};
ghost use Rattle.std.specs.Io.{WritesAtMost};
ghost use Rattle.std.specs.Io.KnownBytes.{Appends, WriteAppends};
ghost use Rattle.bench_outside.specs.Causes.{HasCause, next_count};
ghost use Rattle.bench_outside.specs.Sink.{Appended, AppendedPart, Counted};
ghost use Rattle.bench_outside.specs.Files.{AppendsPart};

use crate::{Failed, Sink};
use std::io::Write;
use std::marker::Model;

/// A stream of the system, or any other writer. It tells nothing of what was written, and counts
/// each write that failed, up to the greatest `u64`.
#[derive(Drop)]
pub struct OutSink<W: Write + Drop> {
    writer: W,
    faults: u64,
}

impl<W: Write + Drop> Model for OutSink<W> {
    ghost use Rattle.bench_outside.specs.Files as model;

    ghost Value = { model.OutSink W };

    ghost view = { λ s. record { writer = s.writer; faults = s.faults } };
}

impl<W: Write + Drop> OutSink<W> {
    /// A sink over this writer, without faults.
    pub fn new(writer: W) -> Self
        ensures { result ≡ record { writer = writer; faults = 0 } }
    {
        OutSink { writer, faults: 0 }
    }

    /// Writes some bytes of a piece that isn't empty. Where the writer takes none, that is a fault.
    fn write_piece(&mut self, piece: &[u8]) -> Result<usize, Failed>
        requires { 0 < length piece.now }
        ensures bound { WritesAtMost result piece.now }
        ensures some { IfOk result (λ n. 0 < n) }
        ensures bytes { WriteAppends (W.contents self.old.writer) (W.contents self.new.writer)
            result piece.now }
        ensures cause { HasCause self.old.faults self.new.faults result }
        ensures one { OnErr result (self.new.faults ≡ next_count self.old.faults) }
    {
        match self.writer.write(piece) {
            Ok(count) if count > 0 => Ok(count),
            _ => {
                self.faults = self.faults.saturating_add(1);
                Err(Failed)
            }
        }
    }
}

impl<W: Write + Drop> Sink for OutSink<W> {
    ghost written = { λ s. None };

    ghost faults = { λ s. s.faults };

    ghost writes = { λ s. None };

    fn write(&mut self, bytes: &[u8]) -> Result<(), Failed>
        // The writer takes all of the bytes, or at a failure a first part, as far as it tells.
        ensures through { OnOk result
            (Appends (W.contents self.old.writer) (W.contents self.new.writer) bytes.now) }
        ensures part_through { OnErr result
            (AppendsPart (W.contents self.old.writer) (W.contents self.new.writer) bytes.now) }

        // A write that fails is counted once.
        ensures one { OnErr result (self.new.faults ≡ next_count self.old.faults) }

        // As for every sink.
        ensures appended { OnOk result (Appended None None bytes.now) }
        ensures part { OnErr result (AppendedPart None None bytes.now) }
        ensures cause { HasCause self.old.faults self.new.faults result }
        ensures made { Counted None None 1 }
    {
        let mut at = 0;
        while at < bytes.len() {
            at += self.write_piece(&bytes[at..])?;
        }
        Ok(())
    }
}
