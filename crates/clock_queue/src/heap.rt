//! The entries of a queue in one row: those that are set stand in front, in the order of a heap.
//! Nothing here compares dues but a judge.
ghost use Rattle.std.specs.Prelude.{◌≡◌, ◌+◌, ◌*◌, ◌<◌, ◌≤◌, length, slice_index, IsSome};
ghost use Rattle.std.specs.List.{SwappedAt};
ghost use Rattle.clock_queue.specs.Dues.{due_of};
ghost use Rattle.clock_queue.specs.Cost.{binary_digits};
ghost use Rattle.clock_queue.specs.Order.{rank_of, before, AreInverse, AreParted, IsHeap, IsHeapBut, IsUnder, NoneBelow};

use crate::due::{Due, Judge};
use std::cmp::Ordering;

/// A row of all entries, the place of each in it, and how many are set.
#[derive(Drop)]
pub struct Heap {
    pub row: Vec<u32>,
    pub places: Vec<usize>,
    pub count: usize,
}

/// The due of an entry that is set.
pub fn due_at<D>(dues: &[Option<D>], entry: u32) -> &D
    requires { IsSome (due_of dues.now entry) }
    ensures { due_of dues.now entry ≡ Some result.now }
{
    dues[entry as usize].as_ref().unwrap()
}

/// Whether the entry at one place comes before that at another, by rank and then by number.
fn is_before<D: Due, J: Judge<D>>(
    judge: &mut J,
    dues: &[Option<D>],
    row: &[u32],
    a: usize,
    b: usize,
) -> bool
    requires a_within { a < length row.now }
    requires b_within { b < length row.now }
    requires a_set { IsSome (due_of dues.now (slice_index row.now a)) }
    requires b_set { IsSome (due_of dues.now (slice_index row.now b)) }
    ensures order { result ≡ before (rank_of D.rank dues.now) (slice_index row.now a) (slice_index row.now b) }
    ensures later { J.count judge.old ≤ J.count judge.new }
    ensures cost { J.count judge.new ≤ J.count judge.old + 1 }
{
    let a = row[a];
    let b = row[b];
    match judge.order(due_at(dues, a), due_at(dues, b)) {
        Ordering::Less => true,
        Ordering::Equal => a < b,
        Ordering::Greater => false,
    }
}

/// Puts the entries at two places in each other's.
pub fn exchange(heap: &mut Heap, a: usize, b: usize)
    requires inverse { AreInverse heap.old.row.items heap.old.places.items }
    requires a_within { a < length heap.old.row.items }
    requires b_within { b < length heap.old.row.items }
    ensures row { SwappedAt heap.old.row.items heap.new.row.items a b }
    ensures entries { length heap.new.row.items ≡ length heap.old.row.items }
    ensures inverse { AreInverse heap.new.row.items heap.new.places.items }
    ensures count { heap.new.count ≡ heap.old.count }
{
    heap.row.swap(a, b);
    let first = heap.row[a];
    let second = heap.row[b];
    heap.places[first as usize] = a;
    heap.places[second as usize] = b;
}

/// Moves an entry up past those that it comes before, and gives the place that it has then.
fn rise<D: Due, J: Judge<D>>(
    judge: &mut J,
    dues: &[Option<D>],
    heap: &mut Heap,
    start: usize,
) -> usize
    requires parted { AreParted dues.now heap.old.row.items heap.old.places.items heap.old.count }
    requires within { start < heap.old.count }
    requires but { IsHeapBut (rank_of D.rank dues.now) heap.old.row.items heap.old.count start }
    ensures parted { AreParted dues.now heap.new.row.items heap.new.places.items heap.new.count }
    ensures count { heap.new.count ≡ heap.old.count }
    ensures within { result ≤ start }
    ensures but { IsHeapBut (rank_of D.rank dues.now) heap.new.row.items heap.new.count result }
    ensures under { IsUnder (rank_of D.rank dues.now) heap.new.row.items result }
    ensures moved { result < start → IsHeap (rank_of D.rank dues.now) heap.new.row.items heap.new.count }
    ensures later { J.count judge.old ≤ J.count judge.new }
    ensures cost { J.count judge.new + binary_digits (result + 1) ≤ J.count judge.old + binary_digits (start + 1) + 1 }
{
    let mut at = start;
    while 0 < at {
        let above = (at - 1) / 2;
        if !is_before(judge, dues, &heap.row, at, above) {
            return at;
        }
        exchange(heap, above, at);
        at = above;
    }
    at
}

/// The first of the entries right below a place, of which there is one at least.
fn first_below<D: Due, J: Judge<D>>(
    judge: &mut J,
    dues: &[Option<D>],
    heap: &Heap,
    at: usize,
) -> usize
    requires parted { AreParted dues.now heap.now.row.items heap.now.places.items heap.now.count }
    requires within { 2 * at + 1 < heap.now.count }
    ensures within { result < heap.now.count }
    ensures low { 2 * at + 1 ≤ result }
    ensures high { result ≤ 2 * at + 2 }
    ensures first { NoneBelow (rank_of D.rank dues.now) heap.now.row.items heap.now.count at result }
    ensures later { J.count judge.old ≤ J.count judge.new }
    ensures cost { J.count judge.new ≤ J.count judge.old + 1 }
{
    let left = 2 * at + 1;
    let right = left + 1;
    if right < heap.count && is_before(judge, dues, &heap.row, right, left) {
        right
    } else {
        left
    }
}

/// Moves an entry down past those that come before it.
fn sink<D: Due, J: Judge<D>>(judge: &mut J, dues: &[Option<D>], heap: &mut Heap, start: usize)
    requires parted { AreParted dues.now heap.old.row.items heap.old.places.items heap.old.count }
    requires within { start < heap.old.count }
    requires but { IsHeapBut (rank_of D.rank dues.now) heap.old.row.items heap.old.count start }
    requires under { IsUnder (rank_of D.rank dues.now) heap.old.row.items start }
    ensures parted { AreParted dues.now heap.new.row.items heap.new.places.items heap.new.count }
    ensures count { heap.new.count ≡ heap.old.count }
    ensures heap { IsHeap (rank_of D.rank dues.now) heap.new.row.items heap.new.count }
    ensures later { J.count judge.old ≤ J.count judge.new }
    ensures cost { J.count judge.new + 2 * binary_digits (start + 1) ≤ J.count judge.old + 2 * binary_digits heap.old.count }
{
    let mut at = start;
    while at < heap.count / 2 {
        let below = first_below(judge, dues, heap, at);
        if !is_before(judge, dues, &heap.row, below, at) {
            return;
        }
        exchange(heap, at, below);
        at = below;
    }
}

/// Moves an entry to where it belongs in the heap.
pub fn mend<D: Due, J: Judge<D>>(judge: &mut J, dues: &[Option<D>], heap: &mut Heap, at: usize)
    requires parted { AreParted dues.now heap.old.row.items heap.old.places.items heap.old.count }
    requires within { at < heap.old.count }
    requires but { IsHeapBut (rank_of D.rank dues.now) heap.old.row.items heap.old.count at }
    ensures parted { AreParted dues.now heap.new.row.items heap.new.places.items heap.new.count }
    ensures count { heap.new.count ≡ heap.old.count }
    ensures heap { IsHeap (rank_of D.rank dues.now) heap.new.row.items heap.new.count }
    ensures later { J.count judge.old ≤ J.count judge.new }
    ensures cost { J.count judge.new ≤ J.count judge.old + 2 * binary_digits heap.old.count }
{
    if rise(judge, dues, heap, at) == at {
        sink(judge, dues, heap, at);
    }
}
