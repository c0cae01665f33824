//! Pages without an owner.
ghost use Rattle.std.specs.Prelude.{◌≡◌, ◌+◌, ◌<◌, ◌≤◌, ◌^◌, ℕ, length, slice_index_or, OnOk, OnErr, IfOk, IfNone, IfSome};
ghost use Rattle.index_list.specs.Many.{first_of, list_at};
ghost use Rattle.page_pool.specs.Shared.{Extends};
ghost use Rattle.page_pool.specs.Kept.{AreKept, AreReady, AreLong};

use index_list::Lists;
use std::alloc::{AllocError, Global};

/// Adds a page without an owner, and room for it in the list.
pub fn add_page(
    alloc: Global,
    pages: &mut Vec<[u8; 4096]>,
    owners: &mut Vec<u64>,
    free: &mut Lists<u32>,
    live: usize,
) -> Result<(), AllocError>
    requires same { length owners.old.items ≡ length pages.old.items }
    requires kept { AreKept owners.old.items free.old live }
    ensures kept { AreKept owners.new.items free.new live }
    ensures same { length owners.new.items ≡ length pages.new.items }
    ensures owners { (page : ℕ) → slice_index_or owners.new.items page 0 ≡ slice_index_or owners.old.items page 0 }
    ensures pages { Extends pages.old.items pages.new.items }
    ensures long { AreLong 4096 pages.old.items → AreLong 4096 pages.new.items }
{
    let page = pages.len();
    if page >= u32::MAX as usize {
        return Err(AllocError);
    }
    owners.reserve(1)?;
    free.reserve(alloc, live + 1)?;
    pages.push([0; 4096])?;
    owners.push(0)?;
    free.push_back(0, page as u32);
    Ok(())
}

/// Takes the first page of the free list out of it, if there is one.
fn take_page(owners: &Vec<u64>, free: &mut Lists<u32>, live: usize) -> Option<usize>
    requires kept { AreKept owners.now.items free.old live }
    ensures ready { IfSome result (λ page. AreReady owners.now.items free.new live page) }
    ensures none { IfNone result (AreKept owners.now.items free.new live) }
{
    match free.first(0) {
        Some(place) => {
            let page = free.unlink(place);
            Some(page as usize)
        }
        None => None,
    }
}

/// A page without an owner, no longer among the free ones.
pub fn spare_page(
    alloc: Global,
    pages: &mut Vec<[u8; 4096]>,
    owners: &mut Vec<u64>,
    free: &mut Lists<u32>,
    live: usize,
) -> Result<usize, AllocError>
    requires same { length owners.old.items ≡ length pages.old.items }
    requires kept { AreKept owners.old.items free.old live }
    ensures ready { IfOk result (λ page. AreReady owners.new.items free.new live page) }
    ensures err { OnErr result (AreKept owners.new.items free.new live) }
    ensures same { length owners.new.items ≡ length pages.new.items }
    ensures owners { (page : ℕ) → slice_index_or owners.new.items page 0 ≡ slice_index_or owners.old.items page 0 }
    ensures pages { Extends pages.old.items pages.new.items }
    ensures long { AreLong 4096 pages.old.items → AreLong 4096 pages.new.items }
{
    if let Some(page) = take_page(owners, free, live) {
        return Ok(page);
    }
    add_page(alloc, pages, owners, free, live)?;
    match take_page(owners, free, live) {
        Some(page) => Ok(page),
        None => Err(AllocError),
    }
}
