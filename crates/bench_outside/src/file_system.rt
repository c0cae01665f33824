//! Opening files by their names.
ghost use Rattle.std.specs.Prelude.{ℕ, List, IfOk};

use crate::Failed;
use std::fs::{self};
use std::io::{Read, Write};
use std::rt::Files;

/// Files that are opened by their names. Each call takes the whole value, so a caller that made no
/// call can say so: the value is as before.
pub trait FileSystem {
    /// An open file.
    type File: Read + Write + Drop;

    // The file was opened to be read under this name, and nothing of it was read.
    ghost is_opened: { List ℕ → Self.File → Type 0 };

    // The file was made under this name, without bytes, in place of what the name held.
    ghost is_made: { List ℕ → Self.File → Type 0 };

    /// Opens a file to be read, from its start.
    fn open(&mut self, name: &str) -> Result<Self::File, Failed>
        ensures { IfOk result (λ file. is_opened name.now file) };

    /// Makes an empty file to be written, in place of what the name held.
    fn make(&mut self, name: &str) -> Result<Self::File, Failed>
        ensures { IfOk result (λ file. is_made name.now file) };
}

/// The files of the system, by their paths from the current folder. The library's calls tell
/// neither names nor content, so the two calls here are trusted.
#[derive(Drop)]
pub struct SystemFiles<R: Files + Drop> {
    rt: R,
}

impl<R: Files + Drop> SystemFiles<R> {
    /// The files that this runtime reaches.
    pub fn new(rt: R) -> Self {
        SystemFiles { rt }
    }
}

impl<R: Files + Drop> FileSystem for SystemFiles<R> {
    ghost use Rattle.std.specs.Prelude.{⊤};

    type File = R::File;

    ghost is_opened = { λ name file. ⊤ };

    ghost is_made = { λ name file. ⊤ };

    fn open(&mut self, name: &str) -> Result<R::File, Failed> {
        fs::open(&self.rt, name).map_err(|_| Failed)
    }

    fn make(&mut self, name: &str) -> Result<R::File, Failed> {
        fs::create(&self.rt, name).map_err(|_| Failed)
    }
}
