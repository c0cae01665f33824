//! The pool by its calls.
ghost use Rattle.std.specs.Prelude.{◌≡◌, ◌≢◌, ◌/◌, ◌%◌, ◌==◌, if◌then◌else◌, IsOk, ◌<◌, ◌≤◌, ◌+◌, ℕ, length, slice_set, slice_index_or, Some, None, IsSome, OnOk, OnErr, IfOk, [], replicate, ◌++◌, ◌∷◌};
ghost use Rattle.page_pool.specs.Shared.{table_at, HasPlace, name_in, page_bytes, uses, WritesAt, ByteAt};
ghost use Rattle.page_pool.specs.Kept.{bytes_at, live_of, alone_below, longer, names_len, IsSpare, IsSmallest};

use crate::owners::{own_all, release_all};
use crate::pages::spare_page;
use crate::table::Table;
use crate::tables::{
    add_spare, begin_at, clear_at, copy_names, len_of, name_of, names_in, reserve_at, smallest,
};
use crate::writing::{append, own_page};
use index_list::Lists;
use std::alloc::{AllocError, Global};
use std::marker::Model;

/// Pages of 4,096 bytes, and tables of them that are numbered from 0. A page may stand in several tables.
///
/// Contracts see the page names of each table that is there, the room of each table in pages, and the bytes of each
/// page. A table reads as the joined bytes of its pages. A table that isn't there is spare: `fork` and `start_table`
/// use it, and `drop_table` makes one. A pool has at most 2^32 tables, of at most 2^31 pages each.
#[derive(Drop)]
pub struct Pool {
    tables: Vec<Table>,
    // The bytes of each page, whether or not it has an owner.
    pages: Vec<[u8; 4096]>,
    // How often the tables name each page.
    owners: Vec<u64>,
    // One list: the pages without an owner.
    free: Lists<u32>,
    // How many pages have an owner.
    live: usize,
}

impl Model for Pool {
    ghost use Rattle.page_pool.specs.Slots.{names_of, rooms_of};
    ghost use Rattle.page_pool.specs.Kept.{Pooled, pooled_code, IsPool};

    ghost Value = { Pooled };

    ghost coded = { pooled_code };

    ghost view = { λ p. record { tables = names_of p.tables.items; rooms = rooms_of p.tables.items; pages = p.pages.items } };

    ghost invariant = { λ p. IsPool (names_of p.tables.items) p.pages.items p.owners.items p.free p.live };
}

impl Pool {
    /// A pool without tables and pages. The only error is want of memory.
    pub fn new(alloc: Global) -> Result<Pool, AllocError>
        ensures tables { IfOk result (λ p. p.tables ≡ []) }
        ensures pages { IfOk result (λ p. p.pages ≡ []) }
    {
        let free = Lists::new(alloc, 1)?;
        Ok(Pool {
            tables: Vec::new(alloc),
            pages: Vec::new(alloc),
            owners: Vec::new(alloc),
            free,
            live: 0,
        })
    }

    /// Adds a spare table with room for so many pages, behind the tables that are there. The pool is unchanged after
    /// an error, which comes for want of memory and at 2^32 tables.
    pub fn add_table(&mut self, alloc: Global, pages: usize) -> Result<(), AllocError>
        ensures tables { OnOk result (self.new.tables ≡ self.old.tables ++ None ∷ []) }
        ensures rooms { OnOk result ((r : ℕ) × (pages ≤ r) × (self.new.rooms ≡ self.old.rooms ++ r ∷ [])) }
        ensures pages { self.new.pages ≡ self.old.pages }
        ensures live { live_of self.new ≡ live_of self.old }
        ensures err { OnErr result (self.new ≡ self.old) }
    {
        if self.tables.len() >= 1 << 32 {
            return Err(AllocError);
        }
        add_spare(alloc, &mut self.tables, pages)
    }

    /// Makes a spare table one that is there, without pages.
    pub fn start_table(&mut self, table: usize)
        requires there { table < length self.old.tables }
        requires unused { table_at self.old.tables table ≡ None }
        ensures state { self.new ≡ record self.old { tables = slice_set self.old.tables table (Some []) } }
        ensures live { live_of self.new ≡ live_of self.old }
    {
        begin_at(&mut self.tables, table);
    }

    /// How many pages have an owner, each counted once.
    pub fn live(&self) -> u32
        ensures { result ≡ live_of self.now }
    {
        self.live as u32
    }

    /// Puts a page of zeros at the end of a table. After an error all tables read as before: it comes for want of
    /// memory, at 2^31 pages of the table, and where 2^32 - 1 pages each have an owner.
    pub fn push_page(&mut self, alloc: Global, table: usize) -> Result<(), AllocError>
        requires { IsSome (table_at self.old.tables table) }
        ensures bytes { OnOk result (bytes_at self.new table ≡ longer (bytes_at self.old table) (replicate 4096 0)) }
        ensures others { (u : ℕ) → u ≢ table → bytes_at self.new u ≡ bytes_at self.old u }
        ensures live { OnOk result (live_of self.new ≡ live_of self.old + 1) }
        ensures err { OnErr result ((u : ℕ) → bytes_at self.new u ≡ bytes_at self.old u) }
        ensures same { OnErr result (live_of self.new ≡ live_of self.old) }
        ensures tables { OnErr result (self.new.tables ≡ self.old.tables) }
    {
        reserve_at(&mut self.tables, table)?;
        let page = spare_page(
            alloc,
            &mut self.pages,
            &mut self.owners,
            &mut self.free,
            self.live,
        )?;
        append(
            &mut self.tables,
            &mut self.pages,
            &mut self.owners,
            table,
            page,
        );
        self.live += 1;
        Ok(())
    }

    /// Drops a table, without any memory. Its room is that of a spare table from now on.
    pub fn drop_table(&mut self, table: usize)
        requires { IsSome (table_at self.old.tables table) }
        ensures state { self.new ≡ record self.old { tables = slice_set self.old.tables table None } }
        ensures live { live_of self.new + alone_below self.old.tables table (length self.old.pages) ≡ live_of self.old }
        ensures others { (u : ℕ) → u ≢ table → bytes_at self.new u ≡ bytes_at self.old u }
    {
        release_all(
            &mut self.owners,
            &mut self.free,
            &mut self.live,
            names_in(&self.tables, table),
        );
        clear_at(&mut self.tables, table);
    }

    /// A second table with the same bytes, in the smallest spare table that has room, without any memory. The two
    /// share their pages until one of them is written.
    pub fn fork(&mut self, table: usize) -> usize
        requires there { IsSome (table_at self.old.tables table) }
        requires spare { (u : ℕ) × IsSpare self.old.tables self.old.rooms (names_len (table_at self.old.tables table)) u }
        ensures smallest { IsSmallest self.old.tables self.old.rooms (names_len (table_at self.old.tables table)) result }
        ensures state { self.new ≡ record self.old { tables = slice_set self.old.tables result (table_at self.old.tables table) } }
        ensures live { live_of self.new ≡ live_of self.old }
    {
        let n = len_of(&self.tables, table);
        let spare = smallest(&self.tables, n);
        copy_names(&mut self.tables, table, spare);
        own_all(&mut self.owners, names_in(&self.tables, spare));
        spare
    }

    /// Sets a byte of a table. The page is copied first where it stands in another table or a second time in this one,
    /// and only then can the call fail: for want of memory, and where
    /// 2^32 - 1 pages each have an owner. All tables read as before then.
    pub fn write(
        &mut self,
        alloc: Global,
        table: usize,
        at: u64,
        byte: u8,
    ) -> Result<(), AllocError>
        requires { HasPlace (table_at self.old.tables table) (at / 4096) }
        ensures byte { OnOk result (WritesAt (bytes_at self.old table) at byte (bytes_at self.new table)) }
        ensures others { (u : ℕ) → u ≢ table → bytes_at self.new u ≡ bytes_at self.old u }
        ensures err { OnErr result ((u : ℕ) → bytes_at self.new u ≡ bytes_at self.old u) }
        ensures rooms { self.new.rooms ≡ self.old.rooms }
        ensures tables { OnErr result (self.new.tables ≡ self.old.tables) }
        ensures alone { uses self.old.tables (name_in (table_at self.old.tables table) (at / 4096)) ≡ 1 → IsOk result }
        ensures live { OnOk result (live_of self.new ≡ live_of self.old + (if uses self.old.tables (name_in (table_at self.old.tables table) (at / 4096)) == 1 then 0 else 1)) }
        ensures same { OnErr result (live_of self.new ≡ live_of self.old) }
    {
        let page = own_page(
            alloc,
            &mut self.tables,
            &mut self.pages,
            &mut self.owners,
            &mut self.free,
            &mut self.live,
            table,
            (at / 4096) as usize,
        )?;
        self.pages[page][(at % 4096) as usize] = byte;
        Ok(())
    }

    /// The byte at a place of a table, counted in bytes from 0.
    pub fn read(&self, table: usize, at: u64) -> u8
        requires { HasPlace (table_at self.now.tables table) (at / 4096) }
        ensures { ByteAt (bytes_at self.now table) at result }
    {
        let page = name_of(&self.tables, table, (at / 4096) as usize) as usize;
        byte_at(&self.pages, page, (at % 4096) as usize)
    }
}

// The byte at a place of a page.
fn byte_at(pages: &Vec<[u8; 4096]>, page: usize, at: usize) -> u8
    requires page { page < length pages.now.items }
    requires at { at < 4096 }
    ensures { result ≡ slice_index_or (page_bytes pages.now.items page) at 0 }
{
    pages[page][at]
}
