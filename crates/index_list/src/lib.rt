//! Doubly linked lists of items whose nodes share one slab, seen as lists of places with items.
#![tactic(auto)]

mod laws;
mod lists;
mod nodes;

pub use laws::{
    a_pushed_item_is_last, an_inserted_item_leaves_no_trace, other_lists_stay,
    pushed_and_unlinked_is_as_before,
};
pub use lists::Lists;
