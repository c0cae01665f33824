//! The bytes of all memories.
ghost use Rattle.std.specs.Prelude.{◌≡◌, ◌≤◌, ◌<◌, ◌+◌, ◌++◌, ◌^◌, true, Some, None, [], length, replicate, is_ok, IfOk, OnOk, OnErr, IsSome, if◌then◌else◌};
ghost use Rattle.code_specs.specs.Stores.{bytes_of, replaced_at};
ghost use Rattle.wasm_memory.specs.Pools.{table_at, table_bytes, KeepsAll, KeepsOthers, is_width};

use crate::table::Table;
use std::alloc::{AllocError, Global};
use std::marker::Model;

/// The bytes of all memories, a table for each: contracts see the list of the tables, each as its bytes.
#[derive(Drop)]
pub struct Pool {
    tables: Vec<Table>,
}

impl Model for Pool {
    ghost use Rattle.wasm_memory.specs.Pools.{Tables};

    ghost Value = { Tables };

    ghost view = { λ p. p.tables.items };
}

impl Pool {
    /// A pool without tables.
    pub fn new(alloc: Global) -> Result<Pool, AllocError>
        ensures { IfOk result (λ pool. pool ≡ []) }
    {
        Ok(Pool {
            tables: Vec::new(alloc),
        })
    }

    /// The bytes of a table.
    #[inline]
    pub(crate) fn table(&self, table: usize) -> &Table
        requires { IsSome (table_at self.now table) }
        ensures { result.now ≡ table_bytes self.now table }
    {
        &self.tables[table]
    }

    /// A new table of so many zeros.
    pub(crate) fn add(&mut self, alloc: Global, count: usize) -> Result<usize, AllocError>
        ensures fresh { IfOk result (λ table. table_at self.old table ≡ None) }
        ensures bytes { IfOk result (λ table. table_at self.new table ≡ Some (replicate count 0)) }
        ensures others { IfOk result (λ table. KeepsOthers self.old self.new table) }
        ensures err { OnErr result (KeepsAll self.old self.new) }
    {
        let table = self.tables.len();
        let zeros = Table::zeros(alloc, count)?;
        self.tables.push(zeros)?;
        Ok(table)
    }

    /// Puts so many zeros behind the bytes of a table.
    pub(crate) fn extend(&mut self, table: usize, count: usize) -> Result<(), AllocError>
        requires there { IsSome (table_at self.old table) }
        requires size { length (table_bytes self.old table) + count < 2 ^ 64 }
        ensures bytes { table_at self.new table ≡ Some (if is_ok result then table_bytes self.old table ++ replicate count 0 else table_bytes self.old table) }
        ensures others { KeepsOthers self.old self.new table }
    {
        self.tables[table].extend(count)
    }

    /// Puts the lowest bytes of a number in the place of those of a table from a place on.
    #[inline]
    pub(crate) fn put(&mut self, table: usize, at: usize, width: u8, n: u64)
        requires there { IsSome (table_at self.old table) }
        requires width { is_width width ≡ true }
        requires within { at + width ≤ length (table_bytes self.old table) }
        ensures bytes { table_at self.new table ≡ Some (replaced_at (table_bytes self.old table) at (bytes_of width n)) }
        ensures len { length (table_bytes self.new table) ≡ length (table_bytes self.old table) }
        ensures others { KeepsOthers self.old self.new table }
    {
        self.tables[table].put(at, width, n);
    }

    /// Puts bytes in the place of those of a table from a place on.
    pub(crate) fn replace(&mut self, table: usize, at: usize, new: &[u8])
        requires there { IsSome (table_at self.old table) }
        requires within { at + length new.now ≤ length (table_bytes self.old table) }
        ensures bytes { table_at self.new table ≡ Some (replaced_at (table_bytes self.old table) at new.now) }
        ensures others { KeepsOthers self.old self.new table }
    {
        self.tables[table].replace(at, new);
    }
}
