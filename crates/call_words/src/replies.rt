//! Replies as words: `Ok`, `Clock Ok true`, `Data Warning 0b0c`, `Updated Ok true false`, `Interval Ok 3 1000 Changed`,
//! `Broken Trap`.
use can_frame::Bytes;
use case_words::{Unanswered, bytes_of, cut, long, told_bytes};
use fmi_states::{Broken, FmiStatus, Qualifier, Reply};
use std::alloc::Global;

fn status_of(word: &str) -> Result<FmiStatus, Unanswered> {
    match word {
        "Ok" => Ok(FmiStatus::Ok),
        "Warning" => Ok(FmiStatus::Warning),
        "Discard" => Ok(FmiStatus::Discard),
        "Error" => Ok(FmiStatus::Error),
        "Fatal" => Ok(FmiStatus::Fatal),
        _ => Err(Unanswered::Unknown),
    }
}

fn flag_of(word: &str) -> Result<bool, Unanswered> {
    match word {
        "true" => Ok(true),
        "false" => Ok(false),
        _ => Err(Unanswered::Unknown),
    }
}

fn qualifier_of(word: &str) -> Result<Qualifier, Unanswered> {
    match word {
        "NotYetKnown" => Ok(Qualifier::NotYetKnown),
        "Unchanged" => Ok(Qualifier::Unchanged),
        "Changed" => Ok(Qualifier::Changed),
        _ => Err(Unanswered::Unknown),
    }
}

fn fault_of(word: &str) -> Result<Broken, Unanswered> {
    match word {
        "Trap" => Ok(Broken::Trap),
        "Spent" => Ok(Broken::Spent),
        "BadReply" => Ok(Broken::BadReply),
        "BadBuffer" => Ok(Broken::BadBuffer),
        _ => Err(Unanswered::Unknown),
    }
}

/// An interval behind its status.
fn interval_of(status: FmiStatus, rest: &str) -> Result<Reply, Unanswered> {
    let (counter, rest) = cut(rest);
    let (resolution, qualifier) = cut(rest);
    Ok(Reply::Interval {
        status,
        counter: long(counter)?,
        resolution: long(resolution)?,
        qualifier: qualifier_of(qualifier)?,
    })
}

fn updated_of(status: FmiStatus, rest: &str) -> Result<Reply, Unanswered> {
    let (another, end) = cut(rest);
    Ok(Reply::Updated(status, flag_of(another)?, flag_of(end)?))
}

/// What stands behind the name of a reply and its status.
fn reply_with(
    alloc: Global,
    name: &str,
    status: FmiStatus,
    rest: &str,
) -> Result<Reply, Unanswered> {
    match name {
        "Clock" => Ok(Reply::Clock(status, flag_of(rest)?)),
        "Data" => Ok(Reply::Data(status, Bytes::of(bytes_of(alloc, rest)?))),
        "Updated" => updated_of(status, rest),
        "Interval" => interval_of(status, rest),
        _ => Err(Unanswered::Unknown),
    }
}

/// The reply of these words.
pub fn reply_of(alloc: Global, text: &str) -> Result<Reply, Unanswered> {
    let (name, rest) = cut(text);
    if rest.is_empty() {
        return Ok(Reply::Plain(status_of(name)?));
    }
    if name == "Broken" {
        return Ok(Reply::Broken(fault_of(rest)?));
    }
    let (status, rest) = cut(rest);
    reply_with(alloc, name, status_of(status)?, rest)
}

fn told_status(status: FmiStatus) -> &'static str {
    match status {
        FmiStatus::Ok => "Ok",
        FmiStatus::Warning => "Warning",
        FmiStatus::Discard => "Discard",
        FmiStatus::Error => "Error",
        FmiStatus::Fatal => "Fatal",
    }
}

fn told_fault(fault: Broken) -> &'static str {
    match fault {
        Broken::Trap => "Broken Trap",
        Broken::Spent => "Broken Spent",
        Broken::BadReply => "Broken BadReply",
        Broken::BadBuffer => "Broken BadBuffer",
    }
}

fn told_qualifier(qualifier: Qualifier) -> &'static str {
    match qualifier {
        Qualifier::NotYetKnown => "NotYetKnown",
        Qualifier::Unchanged => "Unchanged",
        Qualifier::Changed => "Changed",
    }
}

/// A reply with bytes; without any it ends with its status.
fn told_data(alloc: Global, status: FmiStatus, bytes: &Bytes) -> Result<String, Unanswered> {
    let status = told_status(status);
    let text = told_bytes(alloc, bytes.as_slice())?;
    if text.is_empty() {
        return Ok(format!(in alloc; "Data {status}")?);
    }
    Ok(format!(in alloc; "Data {status} {text}")?)
}

/// The words of a reply.
pub fn told_reply(alloc: Global, reply: &Reply) -> Result<String, Unanswered> {
    match reply {
        Reply::Plain(status) => Ok(String::from_str(alloc, told_status(*status))?),
        Reply::Clock(status, ticks) => {
            let status = told_status(*status);
            Ok(format!(in alloc; "Clock {status} {ticks}")?)
        }
        Reply::Data(status, bytes) => told_data(alloc, *status, bytes),
        Reply::Updated(status, another, end) => {
            let status = told_status(*status);
            Ok(format!(in alloc; "Updated {status} {another} {end}")?)
        }
        Reply::Interval {
            status,
            counter,
            resolution,
            qualifier,
        } => {
            let status = told_status(*status);
            let qualifier = told_qualifier(*qualifier);
            Ok(format!(in alloc; "Interval {status} {counter} {resolution} {qualifier}")?)
        }
        Reply::Broken(fault) => Ok(String::from_str(alloc, told_fault(*fault))?),
    }
}
