//! One table of page names.
ghost use Rattle.std.specs.Prelude.{◌≡◌, ◌<◌, ◌≤◌, ◌++◌, [], ◌∷◌, length, Some, None, IsSome, is_some, IfOk, OnOk, ◌^◌};
ghost use Rattle.page_pool.specs.Shared.{HasPlace, name_in, renamed};
ghost use Rattle.page_pool.specs.Kept.{names_len, pushed};

use std::alloc::{AllocError, Global};
use std::marker::Model;

/// The page names of a table, or room for a table.
#[derive(Drop)]
pub struct Table {
    names: Vec<u32>,
    // A table that isn't there has no names.
    there: bool,
}

impl Model for Table {
    ghost use Rattle.std.specs.Prelude.{Some, None, if◌then◌else◌, ◌≡◌, [], false, vec_capacity};
    ghost use Rattle.page_pool.specs.Slots.{Slot, slot_code};

    ghost Value = { Slot };

    ghost coded = { slot_code };

    ghost view = { λ t. record { names = if t.there then Some t.names.items else None; room = vec_capacity t.names } };

    ghost invariant = { λ t. t.there ≡ false → t.names.items ≡ [] };
}

impl Table {
    /// A table that isn't there, with room for so many pages.
    pub fn with_room(alloc: Global, pages: usize) -> Result<Table, AllocError>
        ensures names { IfOk result (λ t. t.names ≡ None) }
        ensures room { IfOk result (λ t. pages ≤ t.room) }
    {
        Ok(Table {
            names: Vec::with_capacity(alloc, pages)?,
            there: false,
        })
    }

    /// The page at a place.
    pub fn name(&self, at: usize) -> u32
        requires { HasPlace self.now.names at }
        ensures { result ≡ name_in self.now.names at }
    {
        self.names[at]
    }

    /// Changes the page at a place.
    pub fn rename(&mut self, at: usize, page: u32)
        requires { HasPlace self.old.names at }
        ensures { self.new ≡ record self.old { names = renamed self.old.names at page } }
    {
        self.names[at] = page;
    }

    /// Whether the table is there, and not a spare one.
    pub fn is_there(&self) -> bool
        ensures { result ≡ is_some self.now.names }
    {
        self.there
    }

    /// How many page names have room.
    pub fn room(&self) -> usize
        ensures { result ≡ self.now.room }
    {
        self.names.capacity()
    }

    /// How many pages the table has; 0 where it is spare.
    pub fn len(&self) -> usize
        ensures { result ≡ names_len self.now.names }
    {
        self.names.len()
    }

    /// The page names of a table that is there.
    pub fn names(&self) -> &[u32]
        requires { IsSome self.now.names }
        ensures { self.now.names ≡ Some result.now }
    {
        self.names.as_slice()
    }

    /// A table that isn't there is there, without pages.
    pub fn begin(&mut self)
        requires { self.old.names ≡ None }
        ensures { self.new ≡ record self.old { names = Some [] } }
    {
        self.there = true;
    }

    /// The table isn't there from now on, and its room stays.
    pub fn clear(&mut self)
        ensures { self.new ≡ record self.old { names = None } }
    {
        self.names.clear();
        self.there = false;
    }

    /// Makes room for one more page name. A table has at most 2^31.
    pub fn reserve(&mut self) -> Result<(), AllocError>
        ensures names { self.new.names ≡ self.old.names }
        ensures room { OnOk result (names_len self.new.names < self.new.room) }
        ensures short { OnOk result (names_len self.new.names < 2 ^ 31) }
    {
        if self.names.len() >= 1 << 31 {
            return Err(AllocError);
        }
        self.names.reserve(1)
    }

    /// Appends a page name, for which there is room.
    pub fn push(&mut self, page: u32)
        requires there { IsSome self.old.names }
        requires room { names_len self.old.names < self.old.room }
        ensures { self.new ≡ record self.old { names = pushed self.old.names page } }
    {
        self.names.push_reserved(page);
    }
}
