//! The line on how a call ended.
ghost use Rattle.std.specs.Prelude.{◌≡◌, ◌++◌, IfOk, OnOk, codes, decimal};
ghost use Rattle.call_specs.specs.CallLine.{trap_word};
ghost use Rattle.call_run.specs.Ends.{number_or_dash, left_text, end_line};

use crate::machine::End;
use code_specs::TrapKind;
use itoa::Buffer;
use std::alloc::{AllocError, Global};
use wasm_machine::Outcome;

/// Why a call was aborted, as it is printed.
fn trap_word(kind: TrapKind) -> &'static [u8]
    ensures { result.now ≡ trap_word kind }
{
    match kind {
        TrapKind::Unreachable => b"Unreachable",
        TrapKind::Memory => b"Memory",
        TrapKind::ZeroDivide => b"ZeroDivide",
        TrapKind::Overflow => b"Overflow",
        TrapKind::Table => b"Table",
        TrapKind::Null => b"Null",
        TrapKind::Signature => b"Signature",
        TrapKind::Depth => b"Depth",
    }
}

// A word, and a number.
fn push_number(line: &mut Vec<u8>, word: &[u8], number: u64) -> Result<(), AllocError>
    ensures { OnOk result (line.new.items ≡ line.old.items ++ word.now ++ decimal number) }
{
    let mut digits = Buffer::new();
    line.extend_from_slice(word)?;
    line.extend_from_slice(digits.format(number).as_bytes())
}

// What was returned, or a dash for nothing.
fn push_value(line: &mut Vec<u8>, value: Option<u64>) -> Result<(), AllocError>
    ensures { OnOk result (line.new.items ≡ line.old.items ++ codes "value " ++ number_or_dash value) }
{
    match value {
        Some(number) => push_number(line, b"value ", number),
        None => line.extend_from_slice(b"value -"),
    }
}

// What aborted it.
fn push_trap(line: &mut Vec<u8>, kind: TrapKind) -> Result<(), AllocError>
    ensures { OnOk result (line.new.items ≡ line.old.items ++ codes "trap " ++ trap_word kind) }
{
    line.extend_from_slice(b"trap ")?;
    line.extend_from_slice(trap_word(kind))
}

// What is left of the fuel, and the line feed.
fn push_left(line: &mut Vec<u8>, left: u64) -> Result<(), AllocError>
    ensures { OnOk result (line.new.items ≡ line.old.items ++ left_text left) }
{
    push_number(line, b" left ", left)?;
    line.extend_from_slice(b"\n")
}

// How a call ended.
fn push_end(line: &mut Vec<u8>, end: &End) -> Result<(), AllocError>
    ensures { OnOk result (line.new.items ≡ line.old.items ++ end_line end.now) }
{
    match end.outcome {
        Outcome::Value(value) => {
            push_value(line, value)?;
            push_left(line, end.left)
        }
        Outcome::Trap(kind) => {
            push_trap(line, kind)?;
            push_left(line, end.left)
        }
        Outcome::Spent => line.extend_from_slice(b"spent left 0\n"),
    }
}

/// The line on how a call ended, behind a word.
pub(crate) fn line_on(alloc: Global, word: &[u8], end: &End) -> Result<Vec<u8>, AllocError>
    ensures { IfOk result (λ line. line.items ≡ word.now ++ end_line end.now) }
{
    let mut line = Vec::new(alloc);
    line.extend_from_slice(word)?;
    push_end(&mut line, end)?;
    Ok(line)
}
