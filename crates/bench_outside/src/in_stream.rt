//! A stream of the system that is read, which counts its faults.
ghost use Rattle.std.specs.Prelude.{◌≡◌, ◌≤◌, length, IfOk, OnOk, OnErr, IsErrOf};
ghost use Rattle.std.specs.Io.{ReadsAtMost};
ghost use Rattle.std.specs.Io.KnownBytes.{ReadConsumes};
ghost use Rattle.bench_outside.specs.Causes.{Rose, HasCause, next_count};
ghost use Rattle.bench_outside.specs.Files.{IsFirstOf};

use crate::{Failed, ShelfError};
use std::alloc::Global;
use std::io::Read;
use std::marker::Model;

/// How many bytes are asked for at once.
const PIECE: usize = 4096;

/// A reader of std. It counts each read that failed, up to the greatest `u64`.
#[derive(Drop)]
pub struct InStream<R: Read + Drop> {
    reader: R,
    faults: u64,
}

impl<R: Read + Drop> Model for InStream<R> {
    ghost use Rattle.bench_outside.specs.Files as model;

    ghost Value = { model.InStream R };

    ghost view = { λ s. record { reader = s.reader; faults = s.faults } };
}

impl<R: Read + Drop> InStream<R> {
    /// A stream over this reader, without faults.
    pub fn new(reader: R) -> Self
        ensures { result ≡ record { reader = reader; faults = 0 } }
    {
        InStream { reader, faults: 0 }
    }

    /// Reads some bytes into a piece; none only at the end, or where the piece has no room.
    fn read_piece(&mut self, piece: &mut [u8]) -> Result<usize, Failed>
        ensures bound { ReadsAtMost result piece.new }
        ensures bytes { ReadConsumes (R.remaining self.old.reader) (R.remaining self.new.reader)
            result piece.new }
        ensures cause { HasCause self.old.faults self.new.faults result }
        ensures one { OnErr result (self.new.faults ≡ next_count self.old.faults) }
    {
        match self.reader.read(piece) {
            Ok(count) => Ok(count),
            Err(_) => {
                self.faults = self.faults.saturating_add(1);
                Err(Failed)
            }
        }
    }

    /// Reads the first bytes of what is left, at most `cap`.
    pub fn read_first(&mut self, alloc: Global, cap: u64) -> Result<Vec<u8>, ShelfError>
        ensures short { IfOk result (λ v. length v.items ≤ cap) }
        ensures bytes { IfOk result (λ v.
            IsFirstOf v.items cap (R.remaining self.old.reader)) }

        // A failure has its cause, and is counted once; without one no fault was counted.
        ensures later { self.old.faults ≤ self.new.faults }
        ensures failed { IsErrOf result ShelfError.Failed
            → Rose self.old.faults self.new.faults }
        ensures one { IsErrOf result ShelfError.Failed
            → self.new.faults ≡ next_count self.old.faults }
        ensures memory { IsErrOf result ShelfError.Memory
            → self.new.faults ≡ self.old.faults }
        ensures kept { OnOk result (self.new.faults ≡ self.old.faults) }
    {
        let mut bytes = Vec::new(alloc);
        let mut piece = [0u8; PIECE];
        let mut left = cap;
        while left > 0 {
            let want = left.min(PIECE as u64) as usize;
            match self.read_piece(&mut piece[..want]) {
                Ok(0) => return Ok(bytes),
                Ok(n) => {
                    bytes.extend_from_slice(&piece[..n])?;
                    left -= n as u64;
                }
                Err(Failed) => return Err(ShelfError::Failed),
            }
        }
        Ok(bytes)
    }
}
