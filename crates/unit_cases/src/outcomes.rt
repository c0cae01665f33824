//! What comes of a session, as text.
use call_words::{told_call, told_reply};
use case_words::{Unanswered, told_bytes};
use ecu_session::{DueChange, Emission, End, SessionOut};
use log_lines::Cause;
use noting_unit::Exchanges;
use std::alloc::Global;

fn name_of(cause: Cause) -> &'static str {
    match cause {
        Cause::Trap => "Down Trap",
        Cause::Spent => "Down Spent",
        Cause::Status2 => "Down Status2",
        Cause::Status3 => "Down Status3",
        Cause::Status4 => "Down Status4",
        Cause::BadReply => "Down BadReply",
        Cause::BadBuffer => "Down BadBuffer",
        Cause::Loop => "Down Loop",
        Cause::BadInterval => "Down BadInterval",
    }
}

/// How a session or a close ends.
pub fn told_end(end: End) -> &'static str {
    match end {
        End::Live => "Live",
        End::Over => "Over",
        End::Down(cause) => name_of(cause),
    }
}

/// What becomes of each countdown clock, in their order.
fn told_dues(alloc: Global, dues: &[DueChange]) -> Result<String, Unanswered> {
    let mut text = String::from_str(alloc, "clocks")?;
    for due in dues {
        match due {
            DueChange::Keep => text.push_str(" Keep")?,
            DueChange::Clear => text.push_str(" Clear")?,
            DueChange::At(moment) => {
                let part = format!(in alloc; " At {moment}")?;
                text.push_str(&part)?;
            }
        }
    }
    Ok(text)
}

/// Each terminal that emitted, by its place, with its bytes; a dash for none.
fn told_emissions(alloc: Global, emitted: &[Emission]) -> Result<String, Unanswered> {
    let mut text = String::from_str(alloc, "emitted")?;
    for emission in emitted {
        let terminal = emission.terminal;
        let bytes = told_bytes(alloc, emission.bytes.as_slice())?;
        let part = format!(in alloc; " {bytes} at {terminal}")?;
        text.push_str(&part)?;
    }
    if emitted.is_empty() {
        text.push_str(" -")?;
    }
    Ok(text)
}

/// The end, what was emitted, what becomes of the clocks, and how many calls were made.
fn told_outcome(
    alloc: Global,
    outcome: &SessionOut,
    exchanges: &Exchanges,
) -> Result<String, Unanswered> {
    let end = told_end(outcome.end);
    let emitted = told_emissions(alloc, outcome.emitted.as_slice())?;
    let dues = told_dues(alloc, outcome.dues.as_slice())?;
    let count = exchanges.as_slice().len();
    Ok(format!(in alloc; "{end}; {emitted}; {dues}; calls {count}")?)
}

/// The calls with their replies, in their order.
pub fn told_calls(alloc: Global, exchanges: &Exchanges) -> Result<String, Unanswered> {
    let mut text = String::new(alloc);
    for exchange in exchanges.as_slice() {
        let call = told_call(alloc, &exchange.call)?;
        let reply = told_reply(alloc, &exchange.reply)?;
        if !text.is_empty() {
            text.push_str("; ")?;
        }
        let part = format!(in alloc; "{call}: {reply}")?;
        text.push_str(&part)?;
    }
    Ok(text)
}

/// What comes of a session, or its calls.
pub fn told(
    alloc: Global,
    part: &str,
    outcome: &SessionOut,
    exchanges: &Exchanges,
) -> Result<String, Unanswered> {
    match part {
        "outcome" => told_outcome(alloc, outcome, exchanges),
        "calls" => told_calls(alloc, exchanges),
        _ => Err(Unanswered::Unknown),
    }
}
