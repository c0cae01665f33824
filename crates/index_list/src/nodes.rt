//! The nodes of the lists, and how they are tied.
ghost use Rattle.std.specs.Prelude.{◌≡◌, ◌≢◌, ◌+◌, ◌<◌, ◌≤◌, ℕ, length, IfSome, Some, None};
ghost use Rattle.slab.specs.Slab.{get, ContainsKey, slab_len, HasRoomFor, Updates};
ghost use Rattle.index_list.specs.Linked.{IsBeside, Inserted, Removed, LinksNext, LinksPrev, first_set, last_set, with_next, with_prev};

use slab::Slab;

/// An item with the number of its list, and the places of its neighbours there.
#[derive(Drop)]
pub struct Node<T> {
    pub item: T,
    pub list: u32,
    pub prev: Option<usize>,
    pub next: Option<usize>,
}

/// The places of the first and the last item of a list, both None where it is empty.
#[derive(Clone, Copy)]
pub struct Ends {
    pub first: Option<usize>,
    pub last: Option<usize>,
}

// Changes what a node has behind it.
fn set_next<T>(nodes: &mut Slab<Node<T>>, at: usize, to: Option<usize>)
    requires { ContainsKey nodes.old at }
    ensures at { get nodes.new at ≡ with_next (get nodes.old at) to }
    ensures others { (p : ℕ) → p ≢ at → get nodes.new p ≡ get nodes.old p }
    ensures len { slab_len nodes.new ≡ slab_len nodes.old }
    ensures capacity { nodes.new.capacity ≡ nodes.old.capacity }
{
    if let Some(node) = nodes.get_mut(at) {
        node.next = to;
    }
}

// Changes what a node has before it.
fn set_prev<T>(nodes: &mut Slab<Node<T>>, at: usize, to: Option<usize>)
    requires { ContainsKey nodes.old at }
    ensures at { get nodes.new at ≡ with_prev (get nodes.old at) to }
    ensures others { (p : ℕ) → p ≢ at → get nodes.new p ≡ get nodes.old p }
    ensures len { slab_len nodes.new ≡ slab_len nodes.old }
    ensures capacity { nodes.new.capacity ≡ nodes.old.capacity }
{
    if let Some(node) = nodes.get_mut(at) {
        node.prev = to;
    }
}

/// What follows `prev` in the list, or stands first where `prev` is none, is `to` from now on.
pub(crate) fn link_next<T>(
    nodes: &mut Slab<Node<T>>,
    ends: &mut Vec<Ends>,
    list: usize,
    prev: Option<usize>,
    to: Option<usize>,
)
    requires list { list < length ends.old.items }
    requires there { IfSome prev (λ p. ContainsKey nodes.old p) }
    ensures nodes { LinksNext (get nodes.old) (get nodes.new) prev to }
    ensures len { slab_len nodes.new ≡ slab_len nodes.old }
    ensures capacity { nodes.new.capacity ≡ nodes.old.capacity }
    ensures ends { ends.new.items ≡ first_set prev list to ends.old.items }
{
    match prev {
        Some(at) => set_next(nodes, at, to),
        None => ends[list].first = to,
    }
}

/// What stands before `next` in the list, or last where `next` is none, is `to` from now on.
pub(crate) fn link_prev<T>(
    nodes: &mut Slab<Node<T>>,
    ends: &mut Vec<Ends>,
    list: usize,
    next: Option<usize>,
    to: Option<usize>,
)
    requires list { list < length ends.old.items }
    requires there { IfSome next (λ p. ContainsKey nodes.old p) }
    ensures nodes { LinksPrev (get nodes.old) (get nodes.new) next to }
    ensures len { slab_len nodes.new ≡ slab_len nodes.old }
    ensures capacity { nodes.new.capacity ≡ nodes.old.capacity }
    ensures ends { ends.new.items ≡ last_set next list to ends.old.items }
{
    match next {
        Some(at) => set_prev(nodes, at, to),
        None => ends[list].last = to,
    }
}

/// Puts a new node between two neighbours of a list.
pub(crate) fn insert_between<T>(
    nodes: &mut Slab<Node<T>>,
    ends: &mut Vec<Ends>,
    list: u32,
    prev: Option<usize>,
    next: Option<usize>,
    item: T,
) -> usize
    requires room { HasRoomFor nodes.old 1 }
    requires list { list < length ends.old.items }
    requires prev { IfSome prev (λ p. ContainsKey nodes.old p) }
    requires next { IfSome next (λ p. ContainsKey nodes.old p) }
    ensures nodes { Inserted (get nodes.old) (get nodes.new) list result item prev next }
    ensures len { slab_len nodes.new ≡ slab_len nodes.old + 1 }
    ensures capacity { nodes.new.capacity ≡ nodes.old.capacity }
    ensures ends { ends.new.items ≡ last_set next list (Some result) (first_set prev list (Some result) ends.old.items) }
{
    let place = nodes.insert_reserved(Node {
        item,
        list,
        prev,
        next,
    });
    link_next(nodes, ends, list as usize, prev, Some(place));
    link_prev(nodes, ends, list as usize, next, Some(place));
    place
}

/// Takes a node out from between its neighbours.
pub(crate) fn take_out<T>(nodes: &mut Slab<Node<T>>, ends: &mut Vec<Ends>, place: usize) -> T
    requires there { ContainsKey nodes.old place }
    requires tied { (n : Node T) → get nodes.old place ≡ Some n → (n.list < length ends.old.items) × IsBeside (get nodes.old) place n.prev × IsBeside (get nodes.old) place n.next }
    ensures item { (n : Node T) → get nodes.old place ≡ Some n → n.item ≡ result }
    ensures nodes { (n : Node T) → get nodes.old place ≡ Some n → Removed (get nodes.old) (get nodes.new) place n.prev n.next }
    ensures len { slab_len nodes.new + 1 ≡ slab_len nodes.old }
    ensures room { HasRoomFor nodes.new 1 }
    ensures capacity { nodes.new.capacity ≡ nodes.old.capacity }
    ensures ends { (n : Node T) → get nodes.old place ≡ Some n → ends.new.items ≡ last_set n.next n.list n.prev (first_set n.prev n.list n.next ends.old.items) }
{
    let Node {
        item,
        list,
        prev,
        next,
    } = nodes.remove(place);
    link_next(nodes, ends, list as usize, prev, next);
    link_prev(nodes, ends, list as usize, next, prev);
    item
}
