//! Laws of a queue as contracts see it: each is the contract of a function with an empty body.
ghost use Rattle.std.specs.Prelude.{◌≡◌, ◌≢◌, ◌<◌, ◌≤◌, ◌⊎◌, ◌↔◌, ℕ, List, Contains, Option, Some, None, length, slice_set};
ghost use Rattle.std.specs.List.Sorted.{IsStrictlyIncreasing};
ghost use Rattle.run_specs.specs.Order.{better_of};
ghost use Rattle.clock_queue.specs.Dues.{Pending, due_of, precedes, least_pending, entries_at, dues_behind, NoneBefore};

use crate::due::Due;

/// An entry that is set twice has the due that was set last, and nothing else is different.
pub fn setting_twice_keeps_the_last<D: Due>()
    ensures { (dues : List (Option D)) (entry : ℕ) (first last : D)
        → slice_set (slice_set dues entry (Some first)) entry (Some last) ≡ slice_set dues entry (Some last) }
{}

/// Two entries may be set or cleared in either order.
pub fn entries_change_in_any_order<D: Due>()
    ensures { (dues : List (Option D)) (entry other : ℕ) (x y : Option D) → entry ≢ other
        → slice_set (slice_set dues entry x) other y ≡ slice_set (slice_set dues other y) entry x }
{}

/// To set or clear an entry leaves each other one as it was.
pub fn other_entries_stay<D: Due>()
    ensures { (dues : List (Option D)) (entry other : ℕ) (due : Option D) → other ≢ entry
        → due_of (slice_set dues entry due) other ≡ due_of dues other }
{}

/// An entry has what it was set to, and nothing once it was cleared.
pub fn an_entry_has_what_was_set<D: Due>()
    ensures { (dues : List (Option D)) (entry : ℕ) (due : Option D) → entry < length dues
        → due_of (slice_set dues entry due) entry ≡ due }
{}

/// The least entry is set, and no entry that is set comes before it.
pub fn none_comes_before_the_least<D: Due>()
    ensures is_set { (dues : List (Option D)) (x : Pending D) → least_pending D.rank dues ≡ Some x
        → due_of dues x.number ≡ Some x.due }
    ensures unbeaten { (dues : List (Option D)) (x : Pending D) → least_pending D.rank dues ≡ Some x
        → (entry : ℕ) (due : D) → due_of dues entry ≡ Some due
        → (D.rank x.due < D.rank due) ⊎ ((D.rank x.due ≡ D.rank due) × (x.number ≤ entry)) }
    ensures none_due_before { (dues : List (Option D)) (x : Pending D) → least_pending D.rank dues ≡ Some x
        → NoneBefore D.rank (D.rank x.due) dues }
{}

/// Where none is the least, no entry is set.
pub fn where_none_is_least_none_is_set<D: Due>()
    ensures { (dues : List (Option D)) → least_pending D.rank dues ≡ None
        → (entry : ℕ) → due_of dues entry ≡ None }
{}

/// Behind a set of an entry that had no due, the least is that entry or the least from before,
/// whichever comes first.
pub fn a_set_keeps_the_better<D: Due>()
    ensures { (dues : List (Option D)) (x : Pending D) → x.number < length dues → due_of dues x.number ≡ None
        → least_pending D.rank (slice_set dues x.number (Some x.due))
        ≡ better_of (precedes D.rank) (least_pending D.rank dues) x }
{}

/// A taking gives exactly the entries whose due is of the moment's rank, rising.
pub fn a_taking_gives_what_is_due<D: Due>()
    ensures each { (dues : List (Option D)) (moment entry : ℕ) → Contains (entries_at D.rank moment dues) entry
        ↔ ((due : D) × (due_of dues entry ≡ Some due) × (D.rank due ≡ moment)) }
    ensures rising { (dues : List (Option D)) (moment : ℕ)
        → IsStrictlyIncreasing (entries_at D.rank moment dues) }
{}

/// A taking clears those entries, and leaves each other one its due.
pub fn a_taking_leaves_the_others<D: Due>()
    ensures entries { (dues : List (Option D)) (moment : ℕ)
        → length (dues_behind D.rank moment dues) ≡ length dues }
    ensures each { (dues : List (Option D)) (moment entry : ℕ) (due : D)
        → (due_of (dues_behind D.rank moment dues) entry ≡ Some due)
        ↔ ((due_of dues entry ≡ Some due) × (D.rank due ≢ moment)) }
{}
