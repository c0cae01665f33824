//! A page of its own for a place of a table.
ghost use Rattle.std.specs.Prelude.{◌≡◌, ◌+◌, ◌-◌, ◌<◌, ◌≤◌, ◌^◌, ◌==◌, ℕ, length, slice_index_or, slice_set, OnOk, OnErr, IfOk, IsOk, IsSome, replicate, if◌then◌else◌};
ghost use Rattle.page_pool.specs.Shared.{Extends, HasPlace, IsSound, Owned, name_in, page_bytes, renamed, table_at, uses};
ghost use Rattle.page_pool.specs.Slots.{names_of, rooms_of};
ghost use Rattle.page_pool.specs.Kept.{AreKept, AreLong, free_of, names_len, pushed};

use crate::pages::spare_page;
use crate::table::Table;
use crate::tables::{name_of, push_at, rename_at};
use index_list::Lists;
use std::alloc::{AllocError, Global};

/// Puts a copy of the page at a place of a table in its place.
fn hand_over(
    tables: &mut Vec<Table>,
    pages: &mut Vec<[u8; 4096]>,
    owners: &mut Vec<u64>,
    table: usize,
    at: usize,
    page: usize,
    fresh: usize,
)
    requires place { HasPlace (table_at (names_of tables.old.items) table) at }
    requires page { page < length pages.old.items }
    requires fresh { fresh < length pages.old.items }
    requires same { length owners.old.items ≡ length pages.old.items }
    requires small { fresh < 2 ^ 32 }
    requires owned { 1 ≤ slice_index_or owners.old.items page 0 }
    ensures tables { names_of tables.new.items ≡ slice_set (names_of tables.old.items) table (renamed (table_at (names_of tables.old.items) table) at fresh) }
    ensures rooms { rooms_of tables.new.items ≡ rooms_of tables.old.items }
    ensures pages { pages.new.items ≡ slice_set pages.old.items fresh (page_bytes pages.old.items page) }
    ensures owners { owners.new.items ≡ slice_set (slice_set owners.old.items page (slice_index_or owners.old.items page 0 - 1)) fresh 1 }
{
    pages[fresh] = pages[page];
    owners[page] -= 1;
    owners[fresh] = 1;
    rename_at(tables, table, at, fresh as u32);
}

/// Gives a place of a table a page of its own, with the same bytes.
pub fn own_page(
    alloc: Global,
    tables: &mut Vec<Table>,
    pages: &mut Vec<[u8; 4096]>,
    owners: &mut Vec<u64>,
    free: &mut Lists<u32>,
    live: &mut usize,
    table: usize,
    at: usize,
) -> Result<usize, AllocError>
    requires place { HasPlace (table_at (names_of tables.old.items) table) at }
    requires sound { IsSound (names_of tables.old.items) pages.old.items owners.old.items }
    requires kept { AreKept owners.old.items free.old live.old }
    ensures ok { IfOk result (λ page. Owned (names_of tables.old.items) pages.old.items (names_of tables.new.items) pages.new.items owners.new.items (free_of free.new) table at page) }
    ensures kept { AreKept owners.new.items free.new live.new }
    ensures live { OnOk result (live.new ≡ live.old + (if uses (names_of tables.old.items) (name_in (table_at (names_of tables.old.items) table) at) == 1 then 0 else 1)) }
    ensures alone { uses (names_of tables.old.items) (name_in (table_at (names_of tables.old.items) table) at) ≡ 1 → IsOk result }
    ensures rooms { rooms_of tables.new.items ≡ rooms_of tables.old.items }
    ensures long { AreLong 4096 pages.old.items → AreLong 4096 pages.new.items }
    ensures names { OnErr result (names_of tables.new.items ≡ names_of tables.old.items) }
    ensures pages { OnErr result (Extends pages.old.items pages.new.items) }
    ensures owners { OnErr result ((p : ℕ) → slice_index_or owners.new.items p 0 ≡ slice_index_or owners.old.items p 0) }
    ensures same { OnErr result (length owners.new.items ≡ length pages.new.items) }
    ensures none { OnErr result (live.new ≡ live.old) }
    ensures shape { OnOk result (names_of tables.new.items ≡ slice_set (names_of tables.old.items) table (renamed (table_at (names_of tables.old.items) table) at (name_in (table_at (names_of tables.new.items) table) at))) }
{
    let page = name_of(tables, table, at) as usize;
    if owners[page] == 1 {
        return Ok(page);
    }
    let fresh = spare_page(alloc, pages, owners, free, *live)?;
    hand_over(tables, pages, owners, table, at, page, fresh);
    *live += 1;
    Ok(fresh)
}

/// Puts a page of zeros at the end of a table.
pub fn append(
    tables: &mut Vec<Table>,
    pages: &mut Vec<[u8; 4096]>,
    owners: &mut Vec<u64>,
    table: usize,
    page: usize,
)
    requires there { IsSome (table_at (names_of tables.old.items) table) }
    requires room { names_len (table_at (names_of tables.old.items) table) < slice_index_or (rooms_of tables.old.items) table 0 }
    requires page { page < length pages.old.items }
    requires owner { page < length owners.old.items }
    requires small { page < 2 ^ 32 }
    ensures tables { names_of tables.new.items ≡ slice_set (names_of tables.old.items) table (pushed (table_at (names_of tables.old.items) table) page) }
    ensures rooms { rooms_of tables.new.items ≡ rooms_of tables.old.items }
    ensures pages { pages.new.items ≡ slice_set pages.old.items page (replicate 4096 0) }
    ensures owners { owners.new.items ≡ slice_set owners.old.items page 1 }
{
    pages[page] = [0; 4096];
    owners[page] = 1;
    push_at(tables, table, page as u32);
}
