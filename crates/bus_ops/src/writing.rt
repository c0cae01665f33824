//! Writing operations.
ghost use Rattle.std.specs.Prelude.{◌≡◌, ◌++◌, ◌∷◌, [], ◌≤◌, true, OnOk, OnErr, length};
ghost use Rattle.std.specs.Int.{w32, to_le_bytes};
ghost use Rattle.operation_specs.specs.Operation.{is_valid, Transmit, FdTransmit, BusError};
ghost use Rattle.operation_specs.specs.Spelling.{code_of, counted, fields_of, parameter_fields, declared_byte, spell};
ghost use Rattle.bus_ops.specs.Views.{operation_of, parameter_of, declared_of};

use crate::{Declared, Op, Parameter};
use can_frame::{Frame, Kind};
use std::alloc::{AllocError, Global};

/// Appends the bytes of an operation: its code, the number of all its bytes and its fields, each
/// number with its lowest byte first. A format error holds at most 65,535 bytes, a frame is of kind
/// `Fd` exactly in an FD transmit, and a kind of error is 1 to 5. After want of memory `out` is
/// unchanged.
#[tactic(auto, unfolding(operation_specs::specs::Spelling::spell))]
pub fn write_op(alloc: Global, out: &mut Vec<u8>, op: &Op) -> Result<(), AllocError>
    requires { is_valid (operation_of op.now) ≡ true }
    ensures ok { OnOk result (out.new.items ≡ out.old.items ++ spell (operation_of op.now)) }
    ensures err { OnErr result (out.new.items ≡ out.old.items) }
{
    let mut fields = Vec::new(alloc);
    put_fields(&mut fields, op)?;
    let mut spelling = Vec::new(alloc);
    spelling.extend_from_slice(&code(op).to_le_bytes())?;
    spelling.extend_from_slice(&(8 + fields.len() as u32).to_le_bytes())?;
    spelling.extend_from_slice(&fields)?;
    out.extend_from_slice(&spelling)?;
    Ok(())
}

fn code(op: &Op) -> u32
    ensures { result ≡ code_of (operation_of op.now) }
{
    match op {
        Op::FormatError(_) => 0x01,
        Op::Transmit(_) => 0x10,
        Op::FdTransmit(_) => 0x11,
        Op::Confirm(_) => 0x20,
        Op::ArbitrationLost(_) => 0x30,
        Op::BusError { .. } => 0x31,
        Op::Configuration(_) => 0x40,
        Op::Status(_) => 0x41,
        Op::Wakeup => 0x42,
        Op::Sleep => 0xf0,
    }
}

fn put_fields(out: &mut Vec<u8>, op: &Op) -> Result<(), AllocError>
    requires { is_valid (operation_of op.now) ≡ true }
    ensures fields { OnOk result (out.new.items ≡ out.old.items ++ fields_of (operation_of op.now)) }
    ensures bounded { length (fields_of (operation_of op.now)) ≤ 65546 }
{
    match op {
        Op::FormatError(bytes) => put_counted(out, bytes.as_slice()),
        Op::Transmit(frame) => put_frame(out, frame),
        Op::FdTransmit(frame) => put_fd_frame(out, frame),
        Op::Confirm(id) | Op::ArbitrationLost(id) => put_number(out, *id),
        Op::BusError {
            id,
            kind,
            primary,
            sender,
        } => put_error(out, *id, *kind, *primary, *sender),
        Op::Configuration(parameter) => put_parameter(out, *parameter),
        Op::Status(declared) => put_declared(out, *declared),
        Op::Wakeup | Op::Sleep => Ok(()),
    }
}

fn put_number(out: &mut Vec<u8>, number: u32) -> Result<(), AllocError>
    ensures { OnOk result (out.new.items ≡ out.old.items ++ to_le_bytes w32 number) }
{
    out.extend_from_slice(&number.to_le_bytes())?;
    Ok(())
}

fn put_counted(out: &mut Vec<u8>, bytes: &[u8]) -> Result<(), AllocError>
    requires { length bytes.now ≤ 65535 }
    ensures { OnOk result (out.new.items ≡ out.old.items ++ counted bytes.now) }
{
    out.extend_from_slice(&(bytes.len() as u16).to_le_bytes())?;
    out.extend_from_slice(bytes)?;
    Ok(())
}

fn put_frame(out: &mut Vec<u8>, frame: &Frame) -> Result<(), AllocError>
    ensures fields { OnOk result (out.new.items ≡ out.old.items ++ fields_of (Transmit frame.now)) }
    ensures bounded { length (fields_of (Transmit frame.now)) ≤ 73 }
{
    let remote = matches!(frame.kind(), Kind::Remote);
    put_number(out, frame.id())?;
    out.extend_from_slice(&[u8::from(frame.ext()), u8::from(remote)])?;
    put_counted(out, frame.bytes().as_slice())
}

fn put_fd_frame(out: &mut Vec<u8>, frame: &Frame) -> Result<(), AllocError>
    ensures fields { OnOk result (out.new.items ≡ out.old.items ++ fields_of (FdTransmit frame.now)) }
    ensures bounded { length (fields_of (FdTransmit frame.now)) ≤ 73 }
{
    let (brs, esi) = match frame.kind() {
        Kind::Fd { brs, esi } => (brs, esi),
        _ => (false, false),
    };
    put_number(out, frame.id())?;
    out.extend_from_slice(&[u8::from(frame.ext()), u8::from(brs), u8::from(esi)])?;
    put_counted(out, frame.bytes().as_slice())
}

fn put_error(
    out: &mut Vec<u8>,
    id: u32,
    kind: u8,
    primary: bool,
    sender: bool,
) -> Result<(), AllocError>
    ensures { OnOk result (out.new.items ≡ out.old.items ++ fields_of (BusError id kind primary sender)) }
{
    let part = if primary { 1 } else { 2 };
    put_number(out, id)?;
    out.extend_from_slice(&[kind, part, u8::from(sender)])?;
    Ok(())
}

fn put_parameter(out: &mut Vec<u8>, parameter: Parameter) -> Result<(), AllocError>
    ensures { OnOk result (out.new.items ≡ out.old.items ++ parameter_fields (parameter_of parameter)) }
{
    match parameter {
        Parameter::Rate(rate) => {
            out.push(1)?;
            put_number(out, rate)
        }
        Parameter::FdRate(rate) => {
            out.push(2)?;
            put_number(out, rate)
        }
        Parameter::Keep => Ok(out.extend_from_slice(&[4, 1])?),
        Parameter::Discard => Ok(out.extend_from_slice(&[4, 2])?),
    }
}

fn put_declared(out: &mut Vec<u8>, declared: Declared) -> Result<(), AllocError>
    ensures { OnOk result (out.new.items ≡ out.old.items ++ declared_byte (declared_of declared) ∷ []) }
{
    let byte = match declared {
        Declared::Active => 1,
        Declared::Passive => 2,
        Declared::Off => 3,
    };
    out.push(byte)?;
    Ok(())
}
