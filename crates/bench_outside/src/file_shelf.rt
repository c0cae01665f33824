//! A shelf over the files of the system.
ghost use Rattle.std.specs.Prelude.{◌≡◌, ◌≤◌, None, IfOk, OnOk, IsErrOf, length};
ghost use Rattle.bench_outside.specs.Shelf.{Blames};
ghost use Rattle.bench_outside.specs.Files.{fresh_shelf, ReadFrom, WrittenTo};

use crate::calls::FaultCount;
use crate::in_stream::InStream;
use crate::{FileSystem, OutSink, Shelf, ShelfError, Sink};
use std::alloc::Global;
use std::marker::Model;

/// Files of the system, or any others that are opened by their names. It tells nothing of what they
/// hold, and counts each read and each write that failed, up to the greatest `u64`.
#[derive(Drop)]
pub struct FileShelf<F: FileSystem + Drop> {
    files: F,
    reads: FaultCount,
    writes: FaultCount,
}

impl<F: FileSystem + Drop> Model for FileShelf<F> {
    ghost use Rattle.bench_outside.specs.Files as model;

    ghost Value = { model.FileShelf F };

    ghost view = { λ s. record { files = s.files; reads = s.reads; writes = s.writes } };
}

impl<F: FileSystem + Drop> FileShelf<F> {
    /// A shelf over these files, without faults. Takes no memory.
    pub fn new(alloc: Global, files: F) -> Self
        ensures { result ≡ fresh_shelf files }
    {
        FileShelf {
            files,
            reads: FaultCount::new(alloc),
            writes: FaultCount::new(alloc),
        }
    }
}

impl<F: FileSystem + Drop> Shelf for FileShelf<F> {
    ghost holds = { λ s. None };

    ghost read_faults = { λ s. s.reads };

    ghost write_faults = { λ s. s.writes };

    fn read(&mut self, alloc: Global, name: &str, cap: u64) -> Result<Vec<u8>, ShelfError>
        // What is answered are the first bytes of a file that was opened under this name, as far as files tell.
        ensures from_file { IfOk result (λ v.
            ReadFrom (F.is_opened name.now) F.File.remaining v.items cap) }

        // As for every shelf, which here tells nothing of content.
        ensures short { IfOk result (λ v. length v.items ≤ cap) }
        ensures cause { Blames self.old.reads self.new.reads name.now result }
        ensures others { self.new.writes ≡ self.old.writes }
    {
        let blamed = name.as_bytes().to_vec(alloc)?;
        let result = match self.files.open(name) {
            Ok(file) => InStream::new(file).read_first(alloc, cap),
            Err(_) => Err(ShelfError::Failed),
        };
        if let Err(ShelfError::Failed) = result {
            self.reads.blame(blamed);
        }
        result
    }

    fn write(&mut self, alloc: Global, name: &str, bytes: &[u8]) -> Result<(), ShelfError>
        // A file that was made under this name, without bytes, took these bytes and no others, as far as files tell.
        ensures to_file { OnOk result (WrittenTo (F.is_made name.now) F.File.contents bytes.now) }

        // For want of memory no file was touched.
        ensures spared { IsErrOf result ShelfError.Memory → self.new.files ≡ self.old.files }

        // As for every shelf, which here tells nothing of content.
        ensures cause { Blames self.old.writes self.new.writes name.now result }
        ensures others { self.new.reads ≡ self.old.reads }
    {
        // The name is copied before the file is made, which empties it.
        let blamed = name.as_bytes().to_vec(alloc)?;
        let result = match self.files.make(name) {
            Ok(file) => OutSink::new(file).write(bytes),
            Err(failed) => Err(failed),
        };
        if result.is_err() {
            self.writes.blame(blamed);
            return Err(ShelfError::Failed);
        }
        Ok(())
    }
}
