//! The queue of dues.
ghost use Rattle.std.specs.Prelude.{◌≡◌, ◌+◌, ◌*◌, ◌<◌, ◌≤◌, max, length, replicate, option_map, option_copied, slice_set, Some, None, IfSome, IfNone, IfOk, OnOk, OnErr};
ghost use Rattle.clock_queue.specs.Dues.{due_of, least_pending, pending_of, entries_at, dues_behind, NoneBefore};
ghost use Rattle.clock_queue.specs.Cost.{set_count, binary_digits, taking_cost};
ghost use Rattle.clock_queue.specs.Order.{CountsUp, IsNext, IsDone};

use crate::due::{Due, Judge};
use crate::heap::{Heap, due_at, exchange, mend};
use can_frame::Numbers;
use std::alloc::{AllocError, Global};
use std::cmp::Ordering;
use std::marker::Model;

/// A map from entries to dues: contracts see the list of the entries' dues, with None for an entry that isn't set,
/// in whatever order the entries were set. The entries are numbered from 0.
///
/// Dues are compared by the judge that a call takes, and by nothing else: the queue knows of them only that they
/// are `Due`. Room for all entries is taken by `new`.
#[derive(Drop)]
pub struct Queue<D: Due> {
    // The due of each entry.
    dues: Vec<Option<D>>,
    // The entries, those that are set in front.
    heap: Heap,
}

impl<D: Due> Model for Queue<D> {
    ghost use Rattle.std.specs.Prelude.{List, Option};
    ghost use Rattle.clock_queue.specs.Order.{IsKept};

    ghost Value = { List (Option D) };

    ghost view = { λ q. q.dues.items };

    ghost invariant = { λ q. IsKept D.rank q.dues.items q.heap.row.items q.heap.places.items q.heap.count };
}

impl<D: Due> Queue<D> {
    /// A queue with so many entries, of which none is set.
    pub fn new(alloc: Global, entries: u32) -> Result<Queue<D>, AllocError>
        ensures { IfOk result (λ queue. queue ≡ replicate entries None) }
    {
        let dues = unset(alloc, entries)?;
        let row = row_of(alloc, entries)?;
        let places = places_of(alloc, entries)?;
        Ok(Queue {
            dues,
            heap: Heap {
                row,
                places,
                count: 0,
            },
        })
    }

    /// Sets the due of an entry, in place of the one that it had.
    pub fn set<J: Judge<D>>(&mut self, judge: &mut J, entry: u32, due: D)
        requires { entry < length self.old }
        ensures dues { self.new ≡ slice_set self.old entry (Some due) }
        ensures later { J.count judge.old ≤ J.count judge.new }
        ensures cost { J.count judge.new ≤ J.count judge.old + 2 * binary_digits (max (set_count self.old) (set_count self.new)) }
    {
        let at = self.heap.places[entry as usize];
        self.dues[entry as usize] = Some(due);
        if at < self.heap.count {
            mend(judge, &self.dues, &mut self.heap, at);
        } else {
            let last = self.heap.count;
            exchange(&mut self.heap, last, at);
            self.heap.count = last + 1;
            mend(judge, &self.dues, &mut self.heap, last);
        }
    }

    /// Takes the due of an entry away, if it has one.
    pub fn clear<J: Judge<D>>(&mut self, judge: &mut J, entry: u32)
        requires { entry < length self.old }
        ensures dues { self.new ≡ slice_set self.old entry None }
        ensures later { J.count judge.old ≤ J.count judge.new }
        ensures cost { J.count judge.new ≤ J.count judge.old + 2 * binary_digits (max (set_count self.old) (set_count self.new)) }
    {
        let at = self.heap.places[entry as usize];
        if at < self.heap.count {
            let last = self.heap.count - 1;
            exchange(&mut self.heap, at, last);
            self.dues[entry as usize] = None;
            self.heap.count = last;
            if at < last {
                mend(judge, &self.dues, &mut self.heap, at);
            }
        }
    }

    /// The due of an entry; None exactly where the entry isn't set.
    pub fn get(&self, entry: u32) -> Option<&D>
        requires { entry < length self.now }
        ensures { option_copied result ≡ due_of self.now entry }
    {
        self.dues[entry as usize].as_ref()
    }

    /// The due of least rank with its entry, the lowest of those with equal ranks; None exactly where no entry is set.
    pub fn least(&self) -> Option<(&D, u32)>
        ensures { option_map pending_of result ≡ least_pending D.rank self.now }
    {
        if self.heap.count == 0 {
            return None;
        }
        let entry = self.heap.row[0];
        Some((due_at(&self.dues, entry), entry))
    }

    // How many entries are set.
    fn set_entries(&self) -> usize
        ensures { result ≡ set_count self.now }
    {
        self.heap.count
    }

    // The least entry, where it is due at a moment before which none is.
    fn next_due<J: Judge<D>>(&self, judge: &mut J, moment: &D) -> Option<u32>
        requires { NoneBefore D.rank (D.rank moment.now) self.now }
        ensures next { IfSome result (λ entry. IsNext D.rank (D.rank moment.now) self.now entry) }
        ensures done { IfNone result (IsDone D.rank (D.rank moment.now) self.now) }
        ensures later { J.count judge.old ≤ J.count judge.new }
        ensures cost { J.count judge.new ≤ J.count judge.old + 1 }
    {
        let Some((first, entry)) = self.least() else {
            return None;
        };
        match judge.order(first, moment) {
            Ordering::Equal => Some(entry),
            Ordering::Less | Ordering::Greater => None,
        }
    }

    /// Takes the entries that are due at a moment, where none is due before: they are given by rising numbers,
    /// and cleared. After want of memory the queue is as it was.
    pub fn take_due<J: Judge<D>>(
        &mut self,
        alloc: Global,
        judge: &mut J,
        moment: &D,
    ) -> Result<Numbers, AllocError>
        requires { NoneBefore D.rank (D.rank moment.now) self.old }
        ensures due { IfOk result (λ entries. entries ≡ entries_at D.rank (D.rank moment.now) self.old) }
        ensures left { OnOk result (self.new ≡ dues_behind D.rank (D.rank moment.now) self.old) }
        ensures err { OnErr result (self.new ≡ self.old) }
        ensures later { J.count judge.old ≤ J.count judge.new }
        ensures cost { IfOk result (λ entries. J.count judge.new ≤ J.count judge.old + taking_cost (length entries) (set_count self.old)) }
        ensures no_cost { OnErr result (J.count judge.new ≡ J.count judge.old) }
    {
        let mut due = Vec::with_capacity(alloc, self.set_entries())?;
        while let Some(entry) = self.next_due(judge, moment) {
            self.clear(judge, entry);
            due.push(entry).unwrap();
        }
        Ok(Numbers::of(due))
    }
}

// The dues of so many entries, of which none is set.
fn unset<D: Drop>(alloc: Global, entries: u32) -> Result<Vec<Option<D>>, AllocError>
    ensures { IfOk result (λ dues. dues.items ≡ replicate entries None) }
{
    let mut dues = Vec::with_capacity(alloc, entries as usize)?;
    for _entry in 0..entries {
        dues.push(None)?;
    }
    Ok(dues)
}

// All entries, rising.
fn row_of(alloc: Global, entries: u32) -> Result<Vec<u32>, AllocError>
    ensures { IfOk result (λ row. CountsUp entries row.items) }
{
    let mut row = Vec::with_capacity(alloc, entries as usize)?;
    for entry in 0..entries {
        row.push(entry)?;
    }
    Ok(row)
}

// The places of all entries in this row.
fn places_of(alloc: Global, entries: u32) -> Result<Vec<usize>, AllocError>
    ensures { IfOk result (λ places. CountsUp entries places.items) }
{
    let mut places = Vec::with_capacity(alloc, entries as usize)?;
    for place in 0..entries as usize {
        places.push(place)?;
    }
    Ok(places)
}
