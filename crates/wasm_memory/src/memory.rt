//! A memory: its place in a pool, its size and its limit.
ghost use Rattle.std.specs.Prelude.{◌≡◌, ◌<◌, ◌+◌, ◌*◌, ◌^◌, ◌++◌, Bool, true, false, Ok, Some, None, Vec, ℕ, length, replicate, option_map, IfOk, IfSome, OnErr, IsOk, if◌then◌else◌};
ghost use Rattle.std.specs.declared.alloc.Global.{Global};
ghost use Rattle.code_specs.specs.Stores.{page_size, pages_within, number_of_bytes, bytes_of, bytes_at, replaced_at};
ghost use Rattle.wasm_memory.specs.Pools.{table_at, bytes_in, IsThere, IsUnshared, KeepsAll, KeepsOthers, KeepsUnshared, is_width, lies_within, is_done, may_grow, size_before, has_grown};

use crate::pool::Pool;
use std::alloc::{AllocError, Global};
use std::marker::Model;

// The bytes of a page, and the most pages that any memory has.
const PAGE: usize = 65_536;

const MOST_PAGES: u32 = 256;

/// A memory, whose bytes are a table of a pool: contracts see the number of the table, the size in pages, and the most
/// pages that the memory may have, which are the module's maximum and 256 at most.
///
/// Each call has the condition that the table is in the pool with the memory's size, keeps this, and leaves every other
/// table as it was. After want of memory the memory is as it was.
#[derive(Drop)]
pub struct Memory {
    table: usize,
    pages: u32,
    greatest: u32,
}

impl Model for Memory {
    ghost use Rattle.wasm_memory.specs.Pools.{Extent};

    ghost Value = { Extent };

    ghost view = { λ m. record { table = m.table; pages = m.pages; greatest = m.greatest } };
}

impl Memory {
    /// A memory of so many pages of zeros, in a table that wasn't there before.
    #[tactic(auto, unfolding(crate::specs::Pools::IsUnshared))]
    pub fn new(
        alloc: Global,
        pool: &mut Pool,
        pages: u32,
        max: Option<u32>,
    ) -> Result<Memory, AllocError>
        ensures pages { IfOk result (λ m. m.pages ≡ pages) }
        ensures greatest { IfOk result (λ m. m.greatest ≡ pages_within max) }
        ensures bytes { IfOk result (λ m. bytes_in pool.new m ≡ replicate (pages * page_size) 0) }
        ensures there { IfOk result (λ m. IsThere pool.new m) }
        ensures fresh { IfOk result (λ m. table_at pool.old m.table ≡ None) }
        ensures others { IfOk result (λ m. KeepsOthers pool.old pool.new m.table) }
        ensures unshared { IfOk result (λ m. IsUnshared pool.new m.table) }
        ensures still_unshared { KeepsUnshared pool.old pool.new }
        ensures err { OnErr result (KeepsAll pool.old pool.new) }
    {
        let table = pool.add(alloc, pages as usize * PAGE)?;
        Ok(Memory {
            table,
            pages,
            greatest: greatest(max),
        })
    }

    /// The size in pages.
    pub fn size(&self) -> u32
        ensures { result ≡ self.now.pages }
    {
        self.pages
    }

    /// The number with the bytes from `base + offset` on, as many as the width (1, 2, 4 or 8), the lowest first; None
    /// exactly where one of them lies outside. The sum doesn't wrap (section 4.4.4).
    #[inline]
    pub fn load(&self, pool: &Pool, base: u32, offset: u32, width: u8) -> Option<u64>
        requires there { IsThere pool.now self.now }
        requires width { is_width width ≡ true }
        ensures value { result ≡ option_map number_of_bytes (bytes_at (bytes_in pool.now self.now) (base + offset) width) }
        ensures fits { IfSome result (λ n. n < 2 ^ (8 * width)) }
    {
        let address = base as usize + offset as usize;
        let table = pool.table(self.table);
        if address + usize::from(width) > table.len() {
            return None;
        }
        Some(table.number(address, width))
    }

    /// Puts the lowest bytes of a number, as many as the width (1, 2, 4 or 8), in the place of those from
    /// `base + offset` on, the lowest first; false exactly where one of them lies outside, and then no byte is another.
    /// The sum doesn't wrap. It takes no memory where no page is shared.
    #[inline]
    #[tactic(auto, unfolding(crate::specs::Pools::IsUnshared))]
    pub fn store(
        &mut self,
        _alloc: Global,
        pool: &mut Pool,
        base: u32,
        offset: u32,
        width: u8,
        v: u64,
    ) -> Result<bool, AllocError>
        requires there { IsThere pool.old self.old }
        requires width { is_width width ≡ true }
        ensures within { IfOk result (λ done. done ≡ lies_within (bytes_in pool.old self.old) (base + offset) width) }
        ensures bytes { bytes_in pool.new self.new ≡ (if is_done result then replaced_at (bytes_in pool.old self.old) (base + offset) (bytes_of width v) else bytes_in pool.old self.old) }
        ensures memory { self.new ≡ self.old }
        ensures still_there { IsThere pool.new self.new }
        ensures others { KeepsOthers pool.old pool.new self.old.table }
        ensures still_unshared { KeepsUnshared pool.old pool.new }
        ensures room { IsUnshared pool.old self.old.table → IsOk result }
    {
        let at = base as usize + offset as usize;
        if at + usize::from(width) > pool.table(self.table).len() {
            return Ok(false);
        }
        pool.put(self.table, at, width, v);
        Ok(true)
    }

    /// Puts so many pages of zeros behind the bytes, and gives the size before; None exactly where the module's maximum
    /// or 256 pages would be exceeded, and then no memory is taken.
    #[tactic(auto, unfolding(crate::specs::Pools::IsUnshared))]
    pub fn grow(
        &mut self,
        _alloc: Global,
        pool: &mut Pool,
        pages: u32,
    ) -> Result<Option<u32>, AllocError>
        requires there { IsThere pool.old self.old }
        ensures size { IfOk result (λ size. size ≡ size_before self.old pages) }
        ensures bytes { bytes_in pool.new self.new ≡ (if has_grown result then bytes_in pool.old self.old ++ replicate (pages * page_size) 0 else bytes_in pool.old self.old) }
        ensures memory { self.new ≡ (if has_grown result then record self.old { pages = self.old.pages + pages } else self.old) }
        ensures still_there { IsThere pool.new self.new }
        ensures others { KeepsOthers pool.old pool.new self.old.table }
        ensures still_unshared { KeepsUnshared pool.old pool.new }
        ensures refused { may_grow self.old pages ≡ false → result ≡ Ok None }
    {
        let before = self.pages;
        if u64::from(before) + u64::from(pages) > u64::from(self.greatest) {
            return Ok(None);
        }
        pool.extend(self.table, pages as usize * PAGE)?;
        self.pages = before + pages;
        Ok(Some(before))
    }

    /// A copy of so many bytes from a place on; None exactly where one of them lies outside, and then no memory is taken.
    pub fn read_range(
        &self,
        alloc: Global,
        pool: &Pool,
        at: u32,
        len: u32,
    ) -> Result<Option<Vec<u8>>, AllocError>
        requires there { IsThere pool.now self.now }
        ensures bytes { IfOk result (λ found. option_map (λ (v : Vec ℕ Global). v.items) found ≡ bytes_at (bytes_in pool.now self.now) at len) }
        ensures outside { lies_within (bytes_in pool.now self.now) at len ≡ false → result ≡ Ok None }
    {
        let (at, len) = (at as usize, len as usize);
        let table = pool.table(self.table);
        if at + len > table.len() {
            return Ok(None);
        }
        let bytes = table.copy(alloc, at, len)?;
        Ok(Some(bytes))
    }

    /// Puts bytes in the place of those from a place on; false exactly where one of them lies outside, and then no byte
    /// is another. It takes no memory where no page is shared.
    #[tactic(auto, unfolding(crate::specs::Pools::IsUnshared))]
    pub fn write_range(
        &mut self,
        _alloc: Global,
        pool: &mut Pool,
        at: u32,
        bytes: &[u8],
    ) -> Result<bool, AllocError>
        requires there { IsThere pool.old self.old }
        ensures within { IfOk result (λ done. done ≡ lies_within (bytes_in pool.old self.old) at (length bytes.now)) }
        ensures bytes { bytes_in pool.new self.new ≡ (if is_done result then replaced_at (bytes_in pool.old self.old) at bytes.now else bytes_in pool.old self.old) }
        ensures memory { self.new ≡ self.old }
        ensures still_there { IsThere pool.new self.new }
        ensures others { KeepsOthers pool.old pool.new self.old.table }
        ensures still_unshared { KeepsUnshared pool.old pool.new }
        ensures room { IsUnshared pool.old self.old.table → IsOk result }
    {
        let at = at as usize;
        let len = pool.table(self.table).len();
        if bytes.len() > len || at > len - bytes.len() {
            return Ok(false);
        }
        pool.replace(self.table, at, bytes);
        Ok(true)
    }
}

// The most pages that a memory with this maximum may have.
fn greatest(max: Option<u32>) -> u32
    ensures { result ≡ pages_within max }
{
    match max {
        None => MOST_PAGES,
        Some(max) => max.min(MOST_PAGES),
    }
}
