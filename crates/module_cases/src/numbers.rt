//! LEB128 numbers, and the integer instructions.
ghost use Rattle.std.specs.Prelude.{◌≤◌, length, IfOk};

use case_words::{Unanswered, bytes_of, cut, hexadecimal, short, told_bytes};
use leb_bytes::LebError;
use std::alloc::Global;
use wasm_num::{NumTrap, binary, is_binary, is_unary, unary};

/// The words of a question on a number at a place: `1 80C0BB7880`.
fn placed(alloc: Global, rest: &str) -> Result<(Vec<u8>, usize), Unanswered>
    ensures { IfOk result (λ p. p.1 ≤ length p.0.items) }
{
    let (at, runs) = cut(rest);
    let at = short(at)? as usize;
    let bytes = bytes_of(alloc, runs)?;
    if at > bytes.len() {
        return Err(Unanswered::Unknown);
    }
    Ok((bytes, at))
}

fn fault(alloc: Global, error: LebError) -> Result<String, Unanswered> {
    let name = match error {
        LebError::Short => "Short",
        LebError::Long => "Long",
        LebError::Bits => "Bits",
    };
    Ok(String::from_str(alloc, name)?)
}

/// The number at a place, and the place behind it.
pub fn read_u32(alloc: Global, rest: &str) -> Result<String, Unanswered> {
    let (bytes, at) = placed(alloc, rest)?;
    match leb_bytes::read_u32(&bytes, at) {
        Ok((number, next)) => Ok(format!(in alloc; "{number} next {next}")?),
        Err(error) => fault(alloc, error),
    }
}

/// The same for a signed number.
pub fn read_s32(alloc: Global, rest: &str) -> Result<String, Unanswered> {
    let (bytes, at) = placed(alloc, rest)?;
    match leb_bytes::read_s32(&bytes, at) {
        Ok((number, next)) => Ok(format!(in alloc; "{number} next {next}")?),
        Err(error) => fault(alloc, error),
    }
}

/// The same for a signed number of 64 bits.
pub fn read_s64(alloc: Global, rest: &str) -> Result<String, Unanswered> {
    let (bytes, at) = placed(alloc, rest)?;
    match leb_bytes::read_s64(&bytes, at) {
        Ok((number, next)) => Ok(format!(in alloc; "{number} next {next}")?),
        Err(error) => fault(alloc, error),
    }
}

/// Bytes with a number behind them; the number stands first: `624485 E58E26`.
pub fn write_u32(alloc: Global, rest: &str) -> Result<String, Unanswered> {
    let (number, runs) = cut(rest);
    let mut out = bytes_of(alloc, runs)?;
    leb_bytes::write_u32(alloc, &mut out, short(number)?)?;
    told_bytes(alloc, &out)
}

/// The same for a signed number.
pub fn write_s32(alloc: Global, rest: &str) -> Result<String, Unanswered> {
    let (number, runs) = cut(rest);
    let number = number.parse::<i32>().ok().ok_or(Unanswered::Unknown)?;
    let mut out = bytes_of(alloc, runs)?;
    leb_bytes::write_s32(alloc, &mut out, number)?;
    told_bytes(alloc, &out)
}

/// The same for a signed number of 64 bits.
pub fn write_s64(alloc: Global, rest: &str) -> Result<String, Unanswered> {
    let (number, runs) = cut(rest);
    let number = number.parse::<i64>().ok().ok_or(Unanswered::Unknown)?;
    let mut out = bytes_of(alloc, runs)?;
    leb_bytes::write_s64(alloc, &mut out, number)?;
    told_bytes(alloc, &out)
}

/// What an instruction makes of its operands.
fn result_of(op: u8, operands: &str) -> Result<Result<u64, NumTrap>, Unanswered> {
    let (first, second) = cut(operands);
    let first = hexadecimal(first)?;
    if is_unary(op) {
        return Ok(Ok(unary(op, first)));
    }
    let second = hexadecimal(second)?;
    if is_binary(op) {
        return Ok(binary(op, first, second));
    }
    Err(Unanswered::Unknown)
}

/// What an integer instruction makes of its operands, the upper one last, all in hexadecimal: `6A 1 2`.
pub fn number(alloc: Global, rest: &str) -> Result<String, Unanswered> {
    let (op, operands) = cut(rest);
    let op = u8::from_str_radix(op, 16).ok().ok_or(Unanswered::Unknown)?;
    match result_of(op, operands)? {
        Ok(number) => Ok(format!(in alloc; "{number:x}")?),
        Err(NumTrap::ZeroDivide) => Ok(String::from_str(alloc, "ZeroDivide")?),
        Err(NumTrap::Overflow) => Ok(String::from_str(alloc, "Overflow")?),
    }
}
