//! What a unit answers, word by word.
use can_frame::Bytes;
use case_words::{Unanswered, short};
use fmi_states::{FmiStatus, Qualifier, Reply};
use std::alloc::Global;

/// No interval, or one of so many microseconds.
fn interval(microseconds: Option<u32>) -> Reply {
    Reply::Interval {
        status: FmiStatus::Ok,
        counter: u64::from(microseconds.unwrap_or(0)),
        resolution: 1_000_000,
        qualifier: match microseconds {
            None => Qualifier::NotYetKnown,
            Some(_) => Qualifier::Changed,
        },
    }
}

/// The bytes of an output, or an interval.
fn valued(alloc: Global, word: &str) -> Result<Reply, Unanswered> {
    let (kind, value) = word.split_once(':').ok_or(Unanswered::Unknown)?;
    match kind {
        "data" => {
            let bytes = hex::decode(alloc, value).ok().ok_or(Unanswered::Unknown)?;
            Ok(Reply::Data(FmiStatus::Ok, Bytes::of(bytes)))
        }
        "in" => Ok(interval(Some(short(value)?))),
        _ => Err(Unanswered::Unknown),
    }
}

fn reply(alloc: Global, word: &str) -> Result<Reply, Unanswered> {
    match word {
        "ok" => Ok(Reply::Plain(FmiStatus::Ok)),
        "error" => Ok(Reply::Plain(FmiStatus::Error)),
        "fatal" => Ok(Reply::Plain(FmiStatus::Fatal)),
        "still" => Ok(Reply::Clock(FmiStatus::Ok, false)),
        "ticks" => Ok(Reply::Clock(FmiStatus::Ok, true)),
        "updated" => Ok(Reply::Updated(FmiStatus::Ok, false, false)),
        "ends" => Ok(Reply::Updated(FmiStatus::Ok, false, true)),
        "unknown" => Ok(interval(None)),
        _ => valued(alloc, word),
    }
}

/// A reply, and how many times it comes: `ok*3`, or a reply by itself.
fn push_replies(alloc: Global, replies: &mut Vec<Reply>, word: &str) -> Result<(), Unanswered> {
    let (word, times) = match word.split_once('*') {
        Some((word, times)) => (word, short(times)?),
        None => (word, 1),
    };
    for _ in 0..times {
        replies.push(reply(alloc, word)?)?;
    }
    Ok(())
}

/// Replies in turn, where ` , ` ends those of a session.
pub fn replies(alloc: Global, text: &str) -> Result<Vec<Reply>, Unanswered> {
    let mut replies = Vec::new(alloc);
    for word in text.split(' ') {
        if word != "," {
            push_replies(alloc, &mut replies, word)?;
        }
    }
    Ok(replies)
}
