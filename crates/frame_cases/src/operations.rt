//! Operations and their bytes.
ghost use Rattle.std.specs.Prelude.{◌≡◌};
ghost use Rattle.frame_specs.specs.Frame.{is_fd};
ghost use Rattle.operation_specs.specs.Operation.{is_valid};
ghost use Rattle.bus_ops.specs.Views.{operation_of};

use crate::frames::{told_frame, told_or_dash};
use crate::reading::operation;
use bus_ops::{Declared, Item, Op, Parameter, read_ops, write_op};
use can_frame::{Frame, Kind};
use case_words::{Unanswered, bytes_of, cut, told_bytes};
use std::alloc::Global;

fn word(alloc: Global, word: &str) -> Result<String, Unanswered> {
    Ok(String::from_str(alloc, word)?)
}

fn told_parameter(alloc: Global, parameter: Parameter) -> Result<String, Unanswered> {
    match parameter {
        Parameter::Rate(rate) => Ok(format!(in alloc; "rate {rate}")?),
        Parameter::FdRate(rate) => Ok(format!(in alloc; "fd-rate {rate}")?),
        Parameter::Keep => word(alloc, "keep"),
        Parameter::Discard => word(alloc, "discard"),
    }
}

fn name_of(declared: Declared) -> &'static str {
    match declared {
        Declared::Active => "active",
        Declared::Passive => "passive",
        Declared::Off => "off",
    }
}

fn told_error(
    alloc: Global,
    id: u32,
    kind: u8,
    primary: bool,
    sender: bool,
) -> Result<String, Unanswered> {
    let part = if primary { "primary" } else { "secondary" };
    let role = if sender { "sender" } else { "receiver" };
    Ok(format!(in alloc; "error {id:x} {kind} {part} {role}")?)
}

/// A name, and what stands behind it.
fn named(alloc: Global, name: &str, rest: &str) -> Result<String, Unanswered> {
    Ok(format!(in alloc; "{name} {rest}")?)
}

fn told_operation(alloc: Global, op: &Op) -> Result<String, Unanswered> {
    match op {
        Op::FormatError(bytes) => named(
            alloc,
            "format-error",
            &told_or_dash(alloc, bytes.as_slice())?,
        ),
        Op::Transmit(frame) => named(alloc, "transmit", &told_frame(alloc, frame)?),
        Op::FdTransmit(frame) => named(alloc, "fd-transmit", &told_frame(alloc, frame)?),
        Op::Confirm(id) => Ok(format!(in alloc; "confirm {id:x}")?),
        Op::ArbitrationLost(id) => Ok(format!(in alloc; "lost {id:x}")?),
        Op::BusError {
            id,
            kind,
            primary,
            sender,
        } => told_error(alloc, *id, *kind, *primary, *sender),
        Op::Configuration(parameter) => told_parameter(alloc, *parameter),
        Op::Status(declared) => word(alloc, name_of(*declared)),
        Op::Wakeup => word(alloc, "wakeup"),
        Op::Sleep => word(alloc, "sleep"),
    }
}

fn told_item(alloc: Global, item: &Item) -> Result<String, Unanswered> {
    match item {
        Item::Op(op) => told_operation(alloc, op),
        Item::Bad(bytes) => named(alloc, "bad", &told_bytes(alloc, bytes.as_slice())?),
    }
}

/// The items that bytes hold, with semicolons between; a dash for none.
pub fn items(alloc: Global, rest: &str) -> Result<String, Unanswered> {
    let bytes = bytes_of(alloc, rest)?;
    let mut text = String::new(alloc);
    for item in &read_ops(alloc, &bytes)?.into_vec() {
        if !text.is_empty() {
            text.push_str("; ")?;
        }
        let told = told_item(alloc, item)?;
        text.push_str(&told)?;
    }
    if text.is_empty() {
        text.push_str("-")?;
    }
    Ok(text)
}

fn has_fd_kind(frame: &Frame) -> bool
    ensures { result ≡ is_fd frame.now.kind }
{
    matches!(frame.kind(), Kind::Fd { .. })
}

/// Whether its fields go together.
fn is_writable(op: &Op) -> bool
    ensures { result ≡ is_valid (operation_of op.now) }
{
    match op {
        Op::FormatError(bytes) => bytes.as_slice().len() <= 65535,
        Op::Transmit(frame) => !has_fd_kind(frame),
        Op::FdTransmit(frame) => has_fd_kind(frame),
        Op::BusError { kind, .. } => 1 <= *kind && *kind <= 5,
        _ => true,
    }
}

/// Bytes with an operation behind them: `09 confirm 123`.
pub fn write(alloc: Global, rest: &str) -> Result<String, Unanswered> {
    let (front, words) = cut(rest);
    let mut out = bytes_of(alloc, front)?;
    let op = operation(alloc, words)?;
    if !is_writable(&op) {
        return Err(Unanswered::Unknown);
    }
    write_op(alloc, &mut out, &op)?;
    told_bytes(alloc, &out)
}
