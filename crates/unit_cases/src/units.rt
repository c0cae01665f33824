//! Units that answer from a list.
use crate::phases::told_phase;
use call_words::{call_of, reply_of, told_reply};
use case_words::Unanswered;
use fmi_states::{Ecu, ListEcu, Replies, Reply, call_in_turn, permitted};
use std::alloc::{AllocError, Global};

fn push_reply(replies: &mut Vec<Reply>, reply: Reply) -> Result<(), AllocError> {
    replies.push(reply)?;
    Ok(())
}

/// The replies of a list, each behind a semicolon.
pub fn replies_of(alloc: Global, text: &str) -> Result<Replies, Unanswered> {
    let mut replies = Vec::new(alloc);
    for words in text.split("; ") {
        let reply = reply_of(alloc, words)?;
        push_reply(&mut replies, reply)?;
    }
    Ok(Replies::of(replies))
}

/// How many replies a list has.
pub fn count(alloc: Global, rest: &str) -> Result<String, Unanswered> {
    let replies = replies_of(alloc, rest)?;
    let count = replies.as_slice().len();
    Ok(format!(in alloc; "{count}")?)
}

/// The replies of exchanges `CALL: REPLY`.
fn replies_in(alloc: Global, exchanges: &str) -> Result<Replies, Unanswered> {
    let mut replies = Vec::new(alloc);
    for exchange in exchanges.split("; ") {
        let (_, words) = exchange.split_once(": ").ok_or(Unanswered::Unknown)?;
        let reply = reply_of(alloc, words)?;
        push_reply(&mut replies, reply)?;
    }
    Ok(Replies::of(replies))
}

/// Makes a call that has to be permitted: its reply, and the phase behind it.
fn called(alloc: Global, unit: &mut ListEcu, words: &str) -> Result<String, Unanswered> {
    let call = call_of(alloc, words)?;
    if !permitted(unit.phase(), &call) {
        return Err(Unanswered::Unknown);
    }
    let reply = unit.call(alloc, &mut (), &call)?;
    let told = told_reply(alloc, &reply)?;
    let phase = told_phase(unit.phase());
    Ok(format!(in alloc; "{told} {phase}")?)
}

/// The phase of a fresh unit, and behind each call its reply and the phase: `CALL: REPLY; ..`, where the replies are
/// those of the list.
pub fn unit(alloc: Global, rest: &str) -> Result<String, Unanswered> {
    let mut unit = ListEcu::new(replies_in(alloc, rest)?);
    let mut text = String::from_str(alloc, told_phase(unit.phase()))?;
    for exchange in rest.split("; ") {
        let (words, _) = exchange.split_once(": ").ok_or(Unanswered::Unknown)?;
        let told = called(alloc, &mut unit, words)?;
        text.push_str("; ")?;
        text.push_str(&told)?;
    }
    Ok(text)
}

/// Two calls in turn, of a unit with these replies: `CALL; CALL: REPLY; ..`. The replies, a dash where the second call
/// wasn't made, and the phase.
pub fn turn(alloc: Global, rest: &str) -> Result<String, Unanswered> {
    let (calls, replies) = rest.split_once(": ").ok_or(Unanswered::Unknown)?;
    let (first, second) = calls.split_once("; ").ok_or(Unanswered::Unknown)?;
    let first = call_of(alloc, first)?;
    let second = call_of(alloc, second)?;
    let mut unit = ListEcu::new(replies_of(alloc, replies)?);
    if !permitted(unit.phase(), &first) {
        return Err(Unanswered::Unknown);
    }
    let replies = call_in_turn(alloc, &mut unit, &mut (), &first, &second)?;
    let first = told_reply(alloc, &replies.first)?;
    let second = match &replies.second {
        Some(reply) => told_reply(alloc, reply)?,
        None => String::from_str(alloc, "-")?,
    };
    let phase = told_phase(unit.phase());
    Ok(format!(in alloc; "{first}; {second}; {phase}")?)
}
