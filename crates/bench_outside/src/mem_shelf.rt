//! A shelf in memory, for tests: its calls fail where its maker says.
ghost use Rattle.std.specs.Prelude.{◌≡◌, ◌≢◌, ◌≤◌, ◌<◌, List, ℕ, true, false, [], ◌∷◌, ◌++◌};
ghost use Rattle.std.specs.Prelude.{length, take, slice_set};
ghost use Rattle.std.specs.Prelude.{Some, Ok, Err, IfOk, IfSome, IfNone, OnOk, OnErr, IsErrOf};
ghost use Rattle.std.specs.Option.{option_copied};
ghost use Rattle.bench_outside.specs.Shelf.{Blames, Stores, SparesOthers};
ghost use Rattle.bench_outside.specs.Calls.{with_failing, next_fails};
ghost use Rattle.bench_outside.specs.MemShelf.{Files, empty_shelf, file_at, contents_of, put_file};
ghost use Rattle.bench_outside.specs.MemShelf.{read_answer, with_read, with_failed_read};
ghost use Rattle.bench_outside.specs.MemShelf.{with_write, with_failed_write};

use crate::calls::Calls;
use crate::{Shelf, ShelfError};
use std::alloc::{AllocError, Global};
use std::marker::Model;

/// A file in memory.
#[derive(Drop)]
struct Entry {
    name: Vec<u8>,
    bytes: Vec<u8>,
}

impl Model for Entry {
    ghost use Rattle.std.specs.Prelude.{List, ℕ};

    ghost Value = { List ℕ × List ℕ };

    ghost view = { λ e. (e.name.items, e.bytes.items) };
}

/// A shelf in memory. Each read and each write that its maker said is to fail is a fault, and so
/// is a read of a name that isn't there. A write that fails leaves every file as it was.
#[derive(Drop)]
pub struct MemShelf {
    entries: Vec<Entry>,
    reads: Calls,
    writes: Calls,
}

impl Model for MemShelf {
    ghost use Rattle.bench_outside.specs.MemShelf as model;

    ghost Value = { model.MemShelf };

    ghost view = { λ s. record { files = s.entries.items; reads = s.reads; writes = s.writes } };
}

impl MemShelf {
    /// An empty shelf. Takes no memory.
    pub fn new(alloc: Global) -> MemShelf
        ensures { result ≡ empty_shelf }
    {
        MemShelf {
            entries: Vec::new(alloc),
            reads: Calls::new(alloc),
            writes: Calls::new(alloc),
        }
    }

    /// Makes the name hold the bytes. This is no call that could be one of those that are to fail.
    pub fn put(&mut self, alloc: Global, name: &str, bytes: &[u8]) -> Result<(), AllocError>
        ensures ok { OnOk result
            (self.new ≡ record self.old { files = put_file self.old.files name.now bytes.now }) }
        ensures err { OnErr result (self.new ≡ self.old) }
    {
        put_entry(alloc, &mut self.entries, name.as_bytes(), bytes)
    }

    /// The bytes of a name; None exactly where the name isn't there.
    pub fn get(&self, name: &str) -> Option<&[u8]>
        ensures { option_copied result ≡ file_at self.now.files name.now }
    {
        find(&self.entries, name.as_bytes())
    }

    /// Adds the read of number `n`, from 1, to those that are to fail.
    pub fn fail_read(&mut self, _alloc: Global, n: u64) -> Result<(), AllocError>
        ensures ok { OnOk result
            (self.new ≡ record self.old { reads = with_failing self.old.reads n }) }
        ensures err { OnErr result (self.new ≡ self.old) }
    {
        self.reads.add_failing(n)
    }

    /// Adds the write of number `n`, from 1, to those that are to fail.
    pub fn fail_write(&mut self, _alloc: Global, n: u64) -> Result<(), AllocError>
        ensures ok { OnOk result
            (self.new ≡ record self.old { writes = with_failing self.old.writes n }) }
        ensures err { OnErr result (self.new ≡ self.old) }
    {
        self.writes.add_failing(n)
    }
}

/// The bytes of the entry of this name.
fn find<'a>(entries: &'a [Entry], name: &[u8]) -> Option<&'a [u8]>
    ensures { option_copied result ≡ file_at entries.now name.now }
{
    for entry in entries {
        if entry.name.as_slice() == name {
            return Some(&entry.bytes);
        }
    }
    None
}

/// Where the entry of this name stands.
fn position_of(entries: &[Entry], name: &[u8]) -> Option<usize>
    ensures found { IfSome result (λ i. (i < length entries.now)
        × ((bytes : List ℕ) → put_file entries.now name.now bytes
        ≡ slice_set entries.now i (name.now, bytes))) }
    ensures absent { IfNone result ((bytes : List ℕ) → put_file entries.now name.now bytes
        ≡ entries.now ++ (name.now, bytes) ∷ []) }
{
    for (i, entry) in entries.iter().enumerate() {
        if entry.name.as_slice() == name {
            return Some(i);
        }
    }
    None
}

/// Makes the name hold the bytes.
fn put_entry(
    alloc: Global,
    entries: &mut Vec<Entry>,
    name: &[u8],
    bytes: &[u8],
) -> Result<(), AllocError>
    ensures ok { OnOk result (entries.new.items ≡ put_file entries.old.items name.now bytes.now) }
    ensures err { OnErr result (entries.new.items ≡ entries.old.items) }
{
    let place = position_of(entries, name);
    let entry = Entry {
        name: name.to_vec(alloc)?,
        bytes: bytes.to_vec(alloc)?,
    };
    match place {
        Some(i) => entries[i] = entry,
        None => entries.push(entry)?,
    }
    Ok(())
}

/// The first bytes of a file, at most `cap`.
fn first_bytes(alloc: Global, bytes: &[u8], cap: u64) -> Result<Vec<u8>, AllocError>
    ensures { IfOk result (λ v. v.items ≡ take cap bytes.now) }
{
    let len = (bytes.len() as u64).min(cap) as usize;
    bytes[..len].to_vec(alloc)
}

impl Shelf for MemShelf {
    ghost holds = { λ s. Some (contents_of s.files) };

    ghost read_faults = { λ s. s.reads.faults };

    ghost write_faults = { λ s. s.writes.faults };

    fn read(&mut self, alloc: Global, name: &str, cap: u64) -> Result<Vec<u8>, ShelfError>
        // Which read fails, and what is counted.
        ensures read { IfOk result (λ v. read_answer self.old name.now cap ≡ Ok v.items) }
        ensures counted { OnOk result (self.new ≡ with_read self.old) }
        ensures refused { IsErrOf result ShelfError.Failed
            → read_answer self.old name.now cap ≡ Err ShelfError.Failed }
        ensures blamed { IsErrOf result ShelfError.Failed
            → self.new ≡ with_failed_read self.old name.now }
        ensures unchanged { IsErrOf result ShelfError.Memory → self.new ≡ self.old }

        // As for every shelf.
        ensures bytes { IfOk result (λ v. v.items ≡ take cap (contents_of self.old.files name.now)) }
        ensures short { IfOk result (λ v. length v.items ≤ cap) }
        ensures holds { contents_of self.new.files ≡ contents_of self.old.files }
        ensures cause { Blames self.old.reads.faults self.new.reads.faults name.now result }
        ensures others { self.new.writes.faults ≡ self.old.writes.faults }
    {
        let blamed = name.as_bytes().to_vec(alloc)?;
        let bytes = match find(&self.entries, name.as_bytes()) {
            Some(held) if !self.reads.next_fails() => first_bytes(alloc, held, cap)?,
            _ => {
                self.reads.blame(blamed);
                return Err(ShelfError::Failed);
            }
        };
        self.reads.count();
        Ok(bytes)
    }

    fn write(&mut self, alloc: Global, name: &str, bytes: &[u8]) -> Result<(), ShelfError>
        // Which write fails, and what it leaves.
        ensures allowed { OnOk result (next_fails self.old.writes ≡ false) }
        ensures written { OnOk result (self.new ≡ with_write self.old name.now bytes.now) }
        ensures refused { IsErrOf result ShelfError.Failed → next_fails self.old.writes ≡ true }
        ensures blamed { IsErrOf result ShelfError.Failed
            → self.new ≡ with_failed_write self.old name.now }
        ensures unchanged { IsErrOf result ShelfError.Memory → self.new ≡ self.old }

        // As for every shelf.
        ensures stored { OnOk result (Stores (Some (contents_of self.old.files))
            (Some (contents_of self.new.files)) name.now bytes.now) }
        ensures failed { IsErrOf result ShelfError.Failed
            → SparesOthers (Some (contents_of self.old.files))
            (Some (contents_of self.new.files)) name.now }
        ensures memory { IsErrOf result ShelfError.Memory
            → contents_of self.new.files ≡ contents_of self.old.files }
        ensures cause { Blames self.old.writes.faults self.new.writes.faults name.now result }
        ensures others { self.new.reads.faults ≡ self.old.reads.faults }
    {
        let blamed = name.as_bytes().to_vec(alloc)?;
        if self.writes.next_fails() {
            self.writes.blame(blamed);
            return Err(ShelfError::Failed);
        }
        put_entry(alloc, &mut self.entries, name.as_bytes(), bytes)?;
        self.writes.count();
        Ok(())
    }
}

/// What was put under a name is the file of that name.
pub fn a_put_file_is_found()
    ensures { (files : Files) (name bytes : List ℕ)
        → file_at (put_file files name bytes) name ≡ Some bytes }
{}

/// A file put under one name leaves the file of every other name, and makes none of another name.
pub fn a_put_file_spares_others()
    ensures { (files : Files) (name bytes other : List ℕ) → other ≢ name
        → file_at (put_file files name bytes) other ≡ file_at files other }
{}
