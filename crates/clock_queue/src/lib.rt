//! The queue of due moments: which entry is due next, where only a judge compares dues.
#![tactic(auto)]

mod due;
mod heap;
mod laws;
mod moment;
mod queue;

pub use due::{Due, Judge};
pub use laws::{
    a_set_keeps_the_better, a_taking_gives_what_is_due, a_taking_leaves_the_others,
    an_entry_has_what_was_set, entries_change_in_any_order, none_comes_before_the_least,
    other_entries_stay, setting_twice_keeps_the_last, where_none_is_least_none_is_set,
};
pub use moment::{ByTicks, CountByTicks, Moment};
pub use queue::Queue;
