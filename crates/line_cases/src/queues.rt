//! A queue of moments, and calls on it one after the other.
ghost use Rattle.std.specs.Prelude.{◌≡◌, IfOk, length};

use crate::texts::{push_part, word};
use can_frame::Numbers;
use case_words::{Unanswered, cut, long, short};
use clock_queue::{
    ByTicks, CountByTicks, Judge, Moment, Queue, a_taking_leaves_the_others,
    none_comes_before_the_least,
};
use std::alloc::{AllocError, Global};
use std::cmp::Ordering;

/// Sets an entry: `ENTRY TICKS`.
fn set(
    alloc: Global,
    queue: &mut Queue<Moment>,
    entries: u32,
    rest: &str,
) -> Result<String, Unanswered>
    requires { length queue.old ≡ entries }
    ensures { length queue.new ≡ entries }
{
    let (entry, ticks) = cut(rest);
    let (entry, ticks) = (short(entry)?, long(ticks)?);
    if entry >= entries {
        return Err(Unanswered::Unknown);
    }
    queue.set(&mut ByTicks, entry, Moment::of(ticks));
    word(alloc, "done")
}

/// Clears an entry.
fn clear(
    alloc: Global,
    queue: &mut Queue<Moment>,
    entries: u32,
    rest: &str,
) -> Result<String, Unanswered>
    requires { length queue.old ≡ entries }
    ensures { length queue.new ≡ entries }
{
    let entry = short(rest)?;
    if entry >= entries {
        return Err(Unanswered::Unknown);
    }
    queue.clear(&mut ByTicks, entry);
    word(alloc, "done")
}

/// The moment of an entry.
fn get(alloc: Global, queue: &Queue<Moment>, entries: u32, rest: &str) -> Result<String, Unanswered>
    requires { length queue.now ≡ entries }
{
    let entry = short(rest)?;
    if entry >= entries {
        return Err(Unanswered::Unknown);
    }
    match queue.get(entry) {
        Some(moment) => Ok(format!(in alloc; "{}", moment.ticks())?),
        None => word(alloc, "none"),
    }
}

/// The least moment and its entry.
fn least(alloc: Global, queue: &Queue<Moment>) -> Result<String, Unanswered> {
    match queue.least() {
        Some((moment, entry)) => {
            let ticks = moment.ticks();
            Ok(format!(in alloc; "{ticks} of {entry}")?)
        }
        None => word(alloc, "none"),
    }
}

/// What is due first, taken out of the queue.
fn take_first(
    alloc: Global,
    queue: &mut Queue<Moment>,
    _entries: u32,
) -> Result<Numbers, AllocError>
    requires { length queue.old ≡ _entries }
    ensures { length queue.new ≡ _entries }
{
    none_comes_before_the_least::<Moment>();
    a_taking_leaves_the_others::<Moment>();
    let Some((moment, _)) = queue.least() else {
        return Ok(Numbers::of(Vec::new(alloc)));
    };
    let moment = *moment;
    queue.take_due(alloc, &mut ByTicks, &moment)
}

/// The entries that are due first, as `1 3`.
fn take(alloc: Global, queue: &mut Queue<Moment>, entries: u32) -> Result<String, Unanswered>
    requires { length queue.old ≡ entries }
    ensures { length queue.new ≡ entries }
{
    let taken = take_first(alloc, queue, entries)?;
    told_numbers(alloc, taken.as_slice())
}

fn told_numbers(alloc: Global, numbers: &[u32]) -> Result<String, Unanswered> {
    let mut text = String::new(alloc);
    for number in numbers {
        if !text.is_empty() {
            text.push_str(" ")?;
        }
        let digits = format!(in alloc; "{number}")?;
        text.push_str(&digits)?;
    }
    if text.is_empty() {
        text.push_str("none")?;
    }
    Ok(text)
}

/// The answer to one call.
fn step(
    alloc: Global,
    queue: &mut Queue<Moment>,
    entries: u32,
    call: &str,
) -> Result<String, Unanswered>
    requires { length queue.old ≡ entries }
    ensures { length queue.new ≡ entries }
{
    let (name, rest) = cut(call);
    match name {
        "set" => set(alloc, queue, entries, rest),
        "clear" => clear(alloc, queue, entries, rest),
        "get" => get(alloc, queue, entries, rest),
        "least" => least(alloc, queue),
        "take" => take(alloc, queue, entries),
        _ => Err(Unanswered::Unknown),
    }
}

/// The answers of calls on a new queue with so many entries: `4; set 3 50; least`.
pub fn calls(alloc: Global, rest: &str) -> Result<String, Unanswered> {
    let (entries, calls) = rest.split_once("; ").ok_or(Unanswered::Unknown)?;
    let entries = short(entries)?;
    let mut queue = Queue::<Moment>::new(alloc, entries)?;
    let mut text = String::new(alloc);
    for call in calls.split("; ") {
        let told = step(alloc, &mut queue, entries, call)?;
        push_part(&mut text, &told)?;
    }
    Ok(text)
}

fn name_of(order: Ordering) -> &'static str {
    match order {
        Ordering::Less => "less",
        Ordering::Equal => "equal",
        Ordering::Greater => "greater",
    }
}

/// The order of each two moments, and how many calls a judge has counted: `1 2; 2 2`.
pub fn orders(alloc: Global, rest: &str) -> Result<String, Unanswered> {
    let mut judge = CountByTicks::new();
    let mut text = String::new(alloc);
    for pair in rest.split("; ") {
        let (first, other) = cut(pair);
        let (first, other) = (long(first)?, long(other)?);
        let order = judge.order(&Moment::of(first), &Moment::of(other));
        push_part(&mut text, name_of(order))?;
    }
    let count = judge.count();
    Ok(format!(in alloc; "{text}; {count} calls")?)
}
