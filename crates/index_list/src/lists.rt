//! The lists by their calls.
ghost use Rattle.std.specs.Prelude.{◌≡◌, ◌+◌, ◌-◌, ◌<◌, ◌≤◌, ℕ, Some, None, OnOk, OnErr, IfOk, length, map, [], ◌∷◌, ◌++◌, slice_set, replicate, true, false};
ghost use Rattle.index_list.specs.Many.{list_at, has, first_of, after_of, item_of, before, without, IsPlaced};

use crate::nodes::{Ends, Node, insert_between, take_out};
use slab::Slab;
use std::alloc::{AllocError, Global};
use std::marker::Model;

/// A fixed number of doubly linked lists, each item under its place. The lists are numbered from 0.
///
/// Contracts see the list of the lists, each a list of (place, item) from its first item on, and `spare`: how many
/// more items can come before room must be made. A place stands in at most one list, and once. It stays an item's
/// own until the item is unlinked, and may then be given to a later one. Only `new` and `reserve` take memory.
#[derive(Drop)]
pub struct Lists<T> {
    // The items of all lists, each with its neighbours.
    nodes: Slab<Node<T>>,
    // Where each list begins and ends.
    ends: Vec<Ends>,
}

impl<T> Model for Lists<T> {
    ghost use Rattle.std.specs.Prelude.{◌-◌};
    ghost use Rattle.slab.specs.Slab.{slab_len};
    ghost use Rattle.index_list.specs.Many.{Many, many_code};

    ghost Value = { Many T };

    ghost coded = { many_code T.code };

    ghost use Rattle.index_list.specs.Linked.{walked, IsSound};

    ghost view = { λ l. record { lists = walked l.nodes l.ends.items; spare = l.nodes.capacity - slab_len l.nodes } };

    ghost invariant = { λ l. IsSound l.nodes l.ends.items };
}

impl<T> Lists<T> {
    /// So many lists, all empty. The only error is want of memory.
    pub fn new(alloc: Global, lists: u32) -> Result<Self, AllocError>
        ensures { IfOk result (λ l. l.lists ≡ replicate lists []) }
    {
        let mut ends = Vec::with_capacity(alloc, lists as usize)?;
        for _ in 0..lists {
            ends.push(Ends {
                first: None,
                last: None,
            })?;
        }
        Ok(Lists {
            nodes: Slab::new(alloc),
            ends,
        })
    }

    /// Makes room for so many more items in all, whichever lists they come to. The lists stay, also after want of
    /// memory, which is the only error, and no room is lost.
    pub fn reserve(&mut self, alloc: Global, n: usize) -> Result<(), AllocError>
        ensures lists { self.new.lists ≡ self.old.lists }
        ensures room { OnOk result (n ≤ self.new.spare) }
        ensures kept { self.old.spare ≤ self.new.spare }
    {
        let _ = alloc;
        self.nodes.reserve(n)
    }

    /// Puts an item at the end of a list, and answers its place, which no item had.
    pub fn push_back(&mut self, list: u32, item: T) -> usize
        requires room { 0 < self.old.spare }
        requires list { list < length self.old.lists }
        ensures new_place { (i : ℕ) → has result (list_at self.old.lists i) ≡ false }
        ensures lists { self.new.lists ≡ slice_set self.old.lists list (list_at self.old.lists list ++ (result, item) ∷ []) }
        ensures spare { self.new.spare + 1 ≡ self.old.spare }
    {
        let prev = self.ends[list as usize].last;
        insert_between(&mut self.nodes, &mut self.ends, list, prev, None, item)
    }

    /// Puts an item before the one of a place, in the same list, and answers the new place, which no item had.
    pub fn insert_before(&mut self, place: usize, item: T) -> usize
        requires room { 0 < self.old.spare }
        requires place { IsPlaced place self.old.lists }
        ensures new_place { (i : ℕ) → has result (list_at self.old.lists i) ≡ false }
        ensures lists { self.new.lists ≡ map (before place (result, item)) self.old.lists }
        ensures spare { self.new.spare + 1 ≡ self.old.spare }
    {
        let (list, prev) = match self.nodes.get(place) {
            Some(node) => (node.list, node.prev),
            None => unreachable!(),
        };
        insert_between(
            &mut self.nodes,
            &mut self.ends,
            list,
            prev,
            Some(place),
            item,
        )
    }

    /// Takes the item of a place out of its list. Its room is there for another item.
    pub fn unlink(&mut self, place: usize) -> T
        requires { IsPlaced place self.old.lists }
        ensures item { (i : ℕ) → has place (list_at self.old.lists i) ≡ true → item_of place (list_at self.old.lists i) ≡ Some result }
        ensures lists { self.new.lists ≡ map (without place) self.old.lists }
        ensures spare { self.new.spare ≡ self.old.spare + 1 }
    {
        take_out(&mut self.nodes, &mut self.ends, place)
    }

    /// The place of the first item of a list; None exactly where the list is empty.
    pub fn first(&self, list: u32) -> Option<usize>
        requires { list < length self.now.lists }
        ensures { result ≡ first_of (list_at self.now.lists list) }
    {
        self.ends[list as usize].first
    }

    /// The place that follows a place in its list; None exactly where it is the last one.
    pub fn next(&self, place: usize) -> Option<usize>
        requires { IsPlaced place self.now.lists }
        ensures { (i : ℕ) → has place (list_at self.now.lists i) ≡ true → result ≡ after_of place (list_at self.now.lists i) }
    {
        match self.nodes.get(place) {
            Some(node) => node.next,
            None => unreachable!(),
        }
    }

    /// The item of a place.
    pub fn get(&self, place: usize) -> &T
        requires { IsPlaced place self.now.lists }
        ensures { (i : ℕ) → has place (list_at self.now.lists i) ≡ true → item_of place (list_at self.now.lists i) ≡ Some result.now }
    {
        match self.nodes.get(place) {
            Some(node) => &node.item,
            None => unreachable!(),
        }
    }
}
