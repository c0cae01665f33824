//! A shelf of files by their names, which counts the calls that failed.
ghost use Rattle.std.specs.Prelude.{◌≡◌, ◌≢◌, ◌≤◌, ℕ, List, length, take};
ghost use Rattle.std.specs.Prelude.{Option, IfOk, IfSome, OnOk, IsErrOf};
ghost use Rattle.bench_outside.specs.Shelf.{Contents, with_file, Stores, SparesOthers};
ghost use Rattle.bench_outside.specs.Shelf.{Faults, Blames};

use std::alloc::{AllocError, Global};

/// Why a shelf gave no answer.
#[derive(Clone, Copy, Debug, PartialEq, Eq)]
pub enum ShelfError {
    /// The file couldn't be read or written: the shelf has counted it.
    Failed,
    /// Want of memory: the shelf is as before.
    Memory,
}

impl From<AllocError> for ShelfError {
    ghost use Rattle.bench_outside.specs.declared.shelf.ShelfError.TheVariants.{Memory};

    ghost from_gives = { λ _ e. e ≡ Memory };

    fn from(_: AllocError) -> ShelfError {
        ShelfError::Memory
    }
}

/// Files by their names. A call copies the name before it touches the file, so it always knows
/// which file to blame.
pub trait Shelf {
    // The bytes of each name, where the shelf tells that; a name that isn't there has none.
    ghost holds: { Self → Option Contents };

    // The reads that failed.
    ghost read_faults: { Self → Faults };

    // The writes that failed.
    ghost write_faults: { Self → Faults };

    /// Reads the first bytes of a file, at most `cap`.
    fn read(&mut self, alloc: Global, name: &str, cap: u64) -> Result<Vec<u8>, ShelfError>
        ensures bytes { IfOk result (λ v.
            IfSome (holds self.old) (λ held. v.items ≡ take cap (held name.now))) }
        ensures short { IfOk result (λ v. length v.items ≤ cap) }

        // Whatever the answer, the files stay.
        ensures holds { holds self.new ≡ holds self.old }

        // Only reads are blamed, by a count and the last name.
        ensures cause { Blames (read_faults self.old) (read_faults self.new) name.now result }
        ensures others { write_faults self.new ≡ write_faults self.old };

    /// Makes a file of these bytes, in place of what the name held.
    fn write(&mut self, alloc: Global, name: &str, bytes: &[u8]) -> Result<(), ShelfError>
        ensures stored { OnOk result (Stores (holds self.old) (holds self.new) name.now bytes.now) }

        // After a failure nothing is known of this file alone.
        ensures failed { IsErrOf result ShelfError.Failed
            → SparesOthers (holds self.old) (holds self.new) name.now }
        ensures memory { IsErrOf result ShelfError.Memory → holds self.new ≡ holds self.old }

        // Only writes are blamed, by a count and the last name.
        ensures cause { Blames (write_faults self.old) (write_faults self.new) name.now result }
        ensures others { read_faults self.new ≡ read_faults self.old };
}

/// What was stored under a name is what the name holds.
pub fn a_stored_file_reads_back()
    ensures { (held : Contents) (name bytes : List ℕ) → with_file held name bytes name ≡ bytes }
{}

/// A file stored under one name leaves what every other name holds.
pub fn a_stored_file_spares_others()
    ensures { (held : Contents) (name bytes other : List ℕ) → other ≢ name
        → with_file held name bytes other ≡ held other }
{}
