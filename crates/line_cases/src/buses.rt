//! One bus with two live nodes at 500 kbit/s, where a tick is a nanosecond, and calls on it one after the other.
ghost use Rattle.std.specs.Prelude.{◌≡◌, ◌<◌, ◌≤◌, ◌+◌, ◌^◌, Some, IfOk, IfSome, OnOk};
ghost use Rattle.std.specs.List.{AllByRecursion};
ghost use Rattle.operation_specs.specs.Reading.{IsWhole};
ghost use Rattle.bus_ops.specs.Views.{item_of};
ghost use Rattle.bus_medium.specs.Dues.{due_of};
ghost use Rattle.bus_specs.specs.Due.{next_due as next_due_of};
ghost use Rattle.line_cases.specs.Tried.{IsTried, is_live};

use crate::texts::{push_part, spelled, word};
use bus_medium::{BusSetup, Due, Medium, What};
use bus_ops::{Item, Items, read_is_whole, read_ops};
use can_frame::Numbers;
use case_words::{Unanswered, bytes_of, cut, long, short, told_bytes};
use error_script::ErrorList;
use log_lines::{LineList, print_line};
use std::alloc::{AllocError, Global};
use std::collections::VecDeque;
use tick_time::BitTime;

/// The last moment of a call: 2^62.
const LATEST: u64 = 0x4000_0000_0000_0000;

/// The most calls on a bus: 2^62.
const MOST_CALLS: u64 = 0x4000_0000_0000_0000;

/// The bus before the first call.
#[tactic(auto, using(crate::proofs::Tries::tried_at_first))]
fn two_nodes(alloc: Global) -> Result<Medium, AllocError>
    ensures { IfOk result (λ m. IsTried m 0) }
{
    let setup = BusSetup {
        number: 0,
        rate: 500_000,
        fd_rate: None,
        nominal: BitTime::of_rate(500_000, 1_000_000_000).unwrap(),
        fast: None,
        members: Numbers::of(vec![in alloc; 0, 1]?),
        errors: ErrorList::of(Vec::new(alloc)),
    };
    let mut medium = Medium::new(alloc, setup)?;
    medium.enter(0);
    medium.enter(1);
    Ok(medium)
}

/// The text of these lines.
fn told_lines(alloc: Global, lines: &LineList) -> Result<String, Unanswered> {
    let mut text = Vec::new(alloc);
    for line in lines.as_slice() {
        text.extend_from_slice(&print_line(alloc, line)?)?;
    }
    spelled(alloc, &text)
}

/// Bytes, or a dash for none.
fn bytes_or_dash(alloc: Global, bytes: &[u8]) -> Result<String, Unanswered> {
    if bytes.is_empty() {
        return word(alloc, "-");
    }
    told_bytes(alloc, bytes)
}

/// The first of these items.
#[tactic(auto, using(crate::proofs::Tries::first_whole))]
fn first_of(items: Items) -> Option<Item>
    requires { AllByRecursion IsWhole items }
    ensures { IfSome result (λ item. IsWhole (item_of item)) }
{
    let mut items = VecDeque::from(items.into_vec());
    items.pop_front()
}

/// The items that these bytes hold.
fn items_in(alloc: Global, bytes: &[u8]) -> Result<Items, AllocError>
    ensures { IfOk result (λ items. AllByRecursion IsWhole items) }
{
    read_is_whole();
    read_ops(alloc, bytes)
}

/// The first item that these bytes hold.
fn item_in(alloc: Global, runs: &str) -> Result<Item, Unanswered>
    ensures { IfOk result (λ item. IsWhole (item_of item)) }
{
    let bytes = bytes_of(alloc, runs)?;
    first_of(items_in(alloc, &bytes)?).ok_or(Unanswered::Unknown)
}

/// A moment up to the last, in ticks.
fn moment_of(word: &str) -> Result<u64, Unanswered>
    ensures { IfOk result (λ n. n ≤ 2 ^ 62) }
{
    let moment = long(word)?;
    if moment <= LATEST {
        Ok(moment)
    } else {
        Err(Unanswered::Unknown)
    }
}

/// The number of one of the two nodes.
fn node_of(word: &str) -> Result<u32, Unanswered>
    ensures { IfOk result (λ n. n < 2) }
{
    match word {
        "0" => Ok(0),
        "1" => Ok(1),
        _ => Err(Unanswered::Unknown),
    }
}

/// A node emits an item: `MOMENT NODE BYTES`.
#[tactic(auto, using(crate::proofs::Tries::submitted, crate::proofs::Tries::live_node, crate::proofs::Tries::few))]
fn submit(alloc: Global, medium: &mut Medium, _calls: u64, rest: &str) -> Result<String, Unanswered>
    requires tried { IsTried medium.old _calls }
    requires few { _calls < 2 ^ 62 }
    ensures { OnOk result (IsTried medium.new (_calls + 1)) }
{
    let (now, rest) = cut(rest);
    let (node, runs) = cut(rest);
    let (now, node) = (moment_of(now)?, node_of(node)?);
    let item = item_in(alloc, runs)?;
    let line = medium.submit(alloc, now, node, item)?;
    spelled(alloc, &print_line(alloc, &line)?)
}

/// What is due behind a moment is done.
#[tactic(auto, using(crate::proofs::Tries::started, crate::proofs::Tries::finished, crate::proofs::Tries::recovered, crate::proofs::Tries::later))]
fn happen(
    alloc: Global,
    medium: &mut Medium,
    _calls: u64,
    _now: u64,
    due: Due,
) -> Result<LineList, AllocError>
    requires tried { IsTried medium.old _calls }
    requires few { _calls < 2 ^ 62 }
    requires due { next_due_of medium.old _now ≡ Some (due_of due) }
    requires moment { due.moment ≤ 2 ^ 62 }
    ensures { OnOk result (IsTried medium.new (_calls + 1)) }
{
    match due.what {
        What::Finish => medium.finish(alloc, due.moment),
        What::Return(node) => medium.recover(alloc, due.moment, node),
        What::Start => medium.start(alloc, due.moment),
        What::Notices => Ok(LineList::of(Vec::new(alloc))),
    }
}

/// What the bus does next, where the last event was at this moment, is done.
fn next(alloc: Global, medium: &mut Medium, calls: u64, rest: &str) -> Result<String, Unanswered>
    requires tried { IsTried medium.old calls }
    requires few { calls < 2 ^ 62 }
    ensures { OnOk result (IsTried medium.new (calls + 1)) }
{
    let now = long(rest)?;
    let Some(due) = medium.next_due(now) else {
        return Err(Unanswered::Unknown);
    };
    if due.moment > LATEST {
        return Err(Unanswered::Unknown);
    }
    let lines = happen(alloc, medium, calls, now, due)?;
    told_lines(alloc, &lines)
}

/// A node takes what is there: `MOMENT NODE`.
#[tactic(auto, using(crate::proofs::Tries::taken))]
fn take(alloc: Global, medium: &mut Medium, _calls: u64, rest: &str) -> Result<String, Unanswered>
    requires { IsTried medium.old _calls }
    ensures { OnOk result (IsTried medium.new (_calls + 1)) }
{
    let (now, node) = cut(rest);
    let (now, node) = (long(now)?, short(node)?);
    let (lines, bytes) = medium.take_inbox(alloc, now, node)?;
    let mut text = bytes_or_dash(alloc, bytes.as_slice())?;
    let told = told_lines(alloc, &lines)?;
    if !told.is_empty() {
        text.push_str(" ")?;
        text.push_str(&told)?;
    }
    Ok(text)
}

/// What a node would take, and whether there is anything: `MOMENT NODE`.
fn look(alloc: Global, medium: &Medium, name: &str, rest: &str) -> Result<String, Unanswered> {
    let (now, node) = cut(rest);
    let (now, node) = (long(now)?, short(node)?);
    match name {
        "inbox" => {
            let bytes = medium.inbox(alloc, now, node)?;
            bytes_or_dash(alloc, bytes.as_slice())
        }
        "has" => word(
            alloc,
            if medium.has_inbox(now, node) {
                "some"
            } else {
                "nothing"
            },
        ),
        _ => Err(Unanswered::Unknown),
    }
}

/// The answer to one call.
#[tactic(auto, using(crate::proofs::Tries::later))]
fn step(alloc: Global, medium: &mut Medium, calls: u64, call: &str) -> Result<String, Unanswered>
    requires tried { IsTried medium.old calls }
    requires few { calls < 2 ^ 62 }
    ensures { OnOk result (IsTried medium.new (calls + 1)) }
{
    let (name, rest) = cut(call);
    match name {
        "submit" => submit(alloc, medium, calls, rest),
        "next" => next(alloc, medium, calls, rest),
        "take" => take(alloc, medium, calls, rest),
        _ => look(alloc, medium, name, rest),
    }
}

/// The answers of calls while both nodes are live.
fn told_calls(alloc: Global, medium: &mut Medium, questions: &str) -> Result<String, Unanswered>
    requires { IsTried medium.old 0 }
{
    let mut text = String::new(alloc);
    let mut calls = 0;
    for call in questions.split("; ") {
        if calls >= MOST_CALLS {
            return Err(Unanswered::Unknown);
        }
        let told = step(alloc, medium, calls, call)?;
        calls += 1;
        push_part(&mut text, &told)?;
    }
    Ok(text)
}

/// The answers behind the leaving of a node: `NODE; has 0 0`.
fn told_left(
    alloc: Global,
    medium: &mut Medium,
    text: &mut String,
    rest: &str,
) -> Result<(), Unanswered> {
    let (node, questions) = rest.split_once("; ").ok_or(Unanswered::Unknown)?;
    medium.leave(short(node)?);
    for call in questions.split("; ") {
        let (name, rest) = cut(call);
        let told = look(alloc, medium, name, rest)?;
        push_part(text, &told)?;
    }
    Ok(())
}

/// The answers of calls on the bus; at the end a node may leave.
pub fn bus(alloc: Global, rest: &str) -> Result<String, Unanswered> {
    let mut medium = two_nodes(alloc)?;
    let Some((before, behind)) = rest.split_once("; leave ") else {
        return told_calls(alloc, &mut medium, rest);
    };
    let mut text = told_calls(alloc, &mut medium, before)?;
    told_left(alloc, &mut medium, &mut text, behind)?;
    Ok(text)
}
