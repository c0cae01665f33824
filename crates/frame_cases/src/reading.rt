//! Operations in words, read.
use crate::frames::{frame_of, identifier};
use bus_ops::{Declared, Op, Parameter};
use can_frame::Bytes;
use case_words::{Unanswered, bytes_of, cut, short};
use std::alloc::Global;

fn part_is_primary(word: &str) -> Result<bool, Unanswered> {
    match word {
        "primary" => Ok(true),
        "secondary" => Ok(false),
        _ => Err(Unanswered::Unknown),
    }
}

fn is_sender(word: &str) -> Result<bool, Unanswered> {
    match word {
        "sender" => Ok(true),
        "receiver" => Ok(false),
        _ => Err(Unanswered::Unknown),
    }
}

/// An error of a frame: `5 4 secondary sender`.
fn bus_error(rest: &str) -> Result<Op, Unanswered> {
    let (id, rest) = cut(rest);
    let (kind, rest) = cut(rest);
    let (part, role) = cut(rest);
    Ok(Op::BusError {
        id: identifier(id)?,
        kind: kind.parse::<u8>().ok().ok_or(Unanswered::Unknown)?,
        primary: part_is_primary(part)?,
        sender: is_sender(role)?,
    })
}

/// What a node configures or declares.
fn declaration(name: &str, rest: &str) -> Result<Op, Unanswered> {
    match name {
        "rate" => Ok(Op::Configuration(Parameter::Rate(short(rest)?))),
        "fd-rate" => Ok(Op::Configuration(Parameter::FdRate(short(rest)?))),
        "keep" => Ok(Op::Configuration(Parameter::Keep)),
        "discard" => Ok(Op::Configuration(Parameter::Discard)),
        "active" => Ok(Op::Status(Declared::Active)),
        "passive" => Ok(Op::Status(Declared::Passive)),
        "off" => Ok(Op::Status(Declared::Off)),
        "wakeup" => Ok(Op::Wakeup),
        "sleep" => Ok(Op::Sleep),
        _ => Err(Unanswered::Unknown),
    }
}

/// An operation: its name, and what it has.
pub fn operation(alloc: Global, words: &str) -> Result<Op, Unanswered> {
    let (name, rest) = cut(words);
    match name {
        "format-error" => Ok(Op::FormatError(Bytes::of(bytes_of(alloc, rest)?))),
        "transmit" => Ok(Op::Transmit(frame_of(alloc, rest)?)),
        "fd-transmit" => Ok(Op::FdTransmit(frame_of(alloc, rest)?)),
        "confirm" => Ok(Op::Confirm(identifier(rest)?)),
        "lost" => Ok(Op::ArbitrationLost(identifier(rest)?)),
        "error" => bus_error(rest),
        _ => declaration(name, rest),
    }
}
