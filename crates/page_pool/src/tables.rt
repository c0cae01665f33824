//! Tables by their numbers.
ghost use Rattle.std.specs.Prelude.{◌≡◌, ◌<◌, ◌≤◌, ◌+◌, ℕ, [], length, slice_set, Some, None, IsSome, IsTrue, ◌↔◌, ◌++◌, ◌∷◌, OnOk, OnErr, ◌^◌, slice_index_or};
ghost use Rattle.page_pool.specs.Shared.{HasPlace, name_in, table_at, renamed};
ghost use Rattle.page_pool.specs.Slots.{names_of, rooms_of};
ghost use Rattle.page_pool.specs.Kept.{names_len, pushed, IsSpare, IsSmallest, IsBestBelow};

use crate::table::Table;
use std::alloc::{AllocError, Global};

/// The page at a place of a table.
pub fn name_of(tables: &Vec<Table>, table: usize, at: usize) -> u32
    requires place { HasPlace (table_at (names_of tables.now.items) table) at }
    ensures { result ≡ name_in (table_at (names_of tables.now.items) table) at }
{
    tables[table].name(at)
}

/// How many pages a table has; 0 where it is spare.
pub fn len_of(tables: &Vec<Table>, table: usize) -> usize
    requires { table < length tables.now.items }
    ensures { result ≡ names_len (table_at (names_of tables.now.items) table) }
{
    tables[table].len()
}

/// The page names of a table that is there.
pub fn names_in(tables: &Vec<Table>, table: usize) -> &[u32]
    requires { IsSome (table_at (names_of tables.now.items) table) }
    ensures { table_at (names_of tables.now.items) table ≡ Some result.now }
{
    tables[table].names()
}

/// Changes the page at a place of a table.
pub fn rename_at(tables: &mut Vec<Table>, table: usize, at: usize, page: u32)
    requires { HasPlace (table_at (names_of tables.old.items) table) at }
    ensures names { names_of tables.new.items ≡ slice_set (names_of tables.old.items) table (renamed (table_at (names_of tables.old.items) table) at page) }
    ensures rooms { rooms_of tables.new.items ≡ rooms_of tables.old.items }
{
    let entry = &mut tables[table];
    entry.rename(at, page);
}

/// Makes a table a spare one. Its room stays.
pub fn clear_at(tables: &mut Vec<Table>, table: usize)
    requires { table < length tables.old.items }
    ensures names { names_of tables.new.items ≡ slice_set (names_of tables.old.items) table None }
    ensures rooms { rooms_of tables.new.items ≡ rooms_of tables.old.items }
{
    let entry = &mut tables[table];
    entry.clear();
}

/// Makes a spare table one that is there, without pages.
pub fn begin_at(tables: &mut Vec<Table>, table: usize)
    requires there { table < length tables.old.items }
    requires unused { table_at (names_of tables.old.items) table ≡ None }
    ensures names { names_of tables.new.items ≡ slice_set (names_of tables.old.items) table (Some []) }
    ensures rooms { rooms_of tables.new.items ≡ rooms_of tables.old.items }
{
    let entry = &mut tables[table];
    entry.begin();
}

/// Makes room for one more page name of a table.
pub fn reserve_at(tables: &mut Vec<Table>, table: usize) -> Result<(), AllocError>
    requires { table < length tables.old.items }
    ensures names { names_of tables.new.items ≡ names_of tables.old.items }
    ensures room { OnOk result (names_len (table_at (names_of tables.new.items) table) < slice_index_or (rooms_of tables.new.items) table 0) }
    ensures short { OnOk result (names_len (table_at (names_of tables.new.items) table) < 2 ^ 31) }
{
    let entry = &mut tables[table];
    entry.reserve()
}

/// Appends a page name to a table, for which there is room.
pub fn push_at(tables: &mut Vec<Table>, table: usize, page: u32)
    requires there { IsSome (table_at (names_of tables.old.items) table) }
    requires room { names_len (table_at (names_of tables.old.items) table) < slice_index_or (rooms_of tables.old.items) table 0 }
    ensures names { names_of tables.new.items ≡ slice_set (names_of tables.old.items) table (pushed (table_at (names_of tables.old.items) table) page) }
    ensures rooms { rooms_of tables.new.items ≡ rooms_of tables.old.items }
{
    let entry = &mut tables[table];
    entry.push(page);
}

/// How many page names of a table have room.
pub fn room_of(tables: &Vec<Table>, at: usize) -> usize
    requires { at < length tables.now.items }
    ensures { result ≡ slice_index_or (rooms_of tables.now.items) at 0 }
{
    tables[at].room()
}

// Whether a table is spare and has room for so many pages.
fn is_spare(tables: &Vec<Table>, n: usize, at: usize) -> bool
    requires { at < length tables.now.items }
    ensures { IsTrue result ↔ IsSpare (names_of tables.now.items) (rooms_of tables.now.items) n at }
{
    if tables[at].is_there() {
        return false;
    }
    room_of(tables, at) >= n
}

/// The better one of a best table so far and the next.
fn better(tables: &Vec<Table>, n: usize, best: Option<usize>, at: usize) -> Option<usize>
    requires at { at < length tables.now.items }
    requires best { IsBestBelow (names_of tables.now.items) (rooms_of tables.now.items) n at best }
    ensures { IsBestBelow (names_of tables.now.items) (rooms_of tables.now.items) n (at + 1) result }
{
    if !is_spare(tables, n, at) {
        return best;
    }
    match best {
        Some(old) => {
            if room_of(tables, at) < room_of(tables, old) {
                Some(at)
            } else {
                best
            }
        }
        None => Some(at),
    }
}

/// Adds a spare table with room for so many pages.
pub fn add_spare(alloc: Global, tables: &mut Vec<Table>, pages: usize) -> Result<(), AllocError>
    ensures names { OnOk result (names_of tables.new.items ≡ names_of tables.old.items ++ None ∷ []) }
    ensures rooms { OnOk result ((r : ℕ) × (pages ≤ r) × (rooms_of tables.new.items ≡ rooms_of tables.old.items ++ r ∷ [])) }
    ensures err { OnErr result (tables.new.items ≡ tables.old.items) }
{
    tables.push(Table::with_room(alloc, pages)?)?;
    Ok(())
}

/// Gives a spare table the names of another.
pub fn copy_names(tables: &mut Vec<Table>, from: usize, to: usize)
    requires there { IsSome (table_at (names_of tables.old.items) from) }
    requires spare { IsSpare (names_of tables.old.items) (rooms_of tables.old.items) (names_len (table_at (names_of tables.old.items) from)) to }
    ensures names { names_of tables.new.items ≡ slice_set (names_of tables.old.items) to (table_at (names_of tables.old.items) from) }
    ensures rooms { rooms_of tables.new.items ≡ rooms_of tables.old.items }
{
    let n = len_of(tables, from);
    begin_at(tables, to);
    for at in 0..n {
        let page = name_of(tables, from, at);
        push_at(tables, to, page);
    }
}

/// The smallest table with room for so many pages that isn't in use.
pub fn smallest(tables: &Vec<Table>, n: usize) -> usize
    requires { (u : ℕ) × IsSpare (names_of tables.now.items) (rooms_of tables.now.items) n u }
    ensures { IsSmallest (names_of tables.now.items) (rooms_of tables.now.items) n result }
{
    let mut best = None;
    for at in 0..tables.len() {
        best = better(tables, n, best, at);
    }
    match best {
        Some(at) => at,
        None => unreachable!(),
    }
}
