//! Taking the bytes of one operation apart.
ghost use Rattle.std.specs.Prelude.{◌≡◌, IfOk, option_map};
ghost use Rattle.operation_specs.specs.Operation.{FormatError};
ghost use Rattle.bus_ops.specs.PartsView.{frame_of};
ghost use Rattle.bus_ops.specs.Fields.{number_at, lone_number, counted_at, flag_at, part_at, classical_behind, fd_behind, checked, classical_at, fd_at, transmit_at, fd_transmit_at, error_behind, error_at, behaviour_at, parameter_at, declared_at, plain_at, fields_at, operation_at};
ghost use Rattle.bus_ops.specs.Views.{operation_of, parameter_of, declared_of};

use crate::{Declared, Op, Parameter};
use can_frame::{Bytes, Frame, Kind};
use std::alloc::{AllocError, Global};

/// The parts of a frame before it is known that it can stand on the wire.
#[derive(Drop)]
struct Parts<'a> {
    id: u32,
    ext: bool,
    kind: Kind,
    data: &'a [u8],
}

/// The operation with exactly this spelling, None where there is none.
#[tactic(auto, unfolding(crate::specs::Fields::operation_at))]
pub fn operation(alloc: Global, bytes: &[u8]) -> Result<Option<Op>, AllocError>
    ensures { IfOk result (λ op. option_map operation_of op ≡ operation_at bytes.now) }
{
    let Some((code, rest)) = number(bytes) else {
        return Ok(None);
    };
    let Some((total, fields)) = number(rest) else {
        return Ok(None);
    };
    if total as usize != bytes.len() {
        return Ok(None);
    }
    of_fields(alloc, code, fields)
}

#[tactic(auto, unfolding(crate::specs::Fields::fields_at))]
fn of_fields(alloc: Global, code: u32, fields: &[u8]) -> Result<Option<Op>, AllocError>
    ensures { IfOk result (λ op. option_map operation_of op ≡ fields_at code fields.now) }
{
    match code {
        0x01 => format_error(alloc, fields),
        0x10 => transmit(alloc, fields),
        0x11 => fd_transmit(alloc, fields),
        _ => Ok(plain(code, fields)),
    }
}

#[tactic(auto, unfolding(crate::specs::Fields::plain_at))]
fn plain(code: u32, fields: &[u8]) -> Option<Op>
    ensures { option_map operation_of result ≡ plain_at code fields.now }
{
    match code {
        0x20 => Some(Op::Confirm(only_number(fields)?)),
        0x30 => Some(Op::ArbitrationLost(only_number(fields)?)),
        0x31 => bus_error(fields),
        0x40 => Some(Op::Configuration(parameter(fields)?)),
        0x41 => Some(Op::Status(declared(fields)?)),
        0x42 if fields.is_empty() => Some(Op::Wakeup),
        0xf0 if fields.is_empty() => Some(Op::Sleep),
        _ => None,
    }
}

fn format_error(alloc: Global, fields: &[u8]) -> Result<Option<Op>, AllocError>
    ensures { IfOk result (λ op. option_map operation_of op ≡ option_map FormatError (counted_at fields.now)) }
{
    let Some(bytes) = counted(fields) else {
        return Ok(None);
    };
    let bytes = Bytes::of(bytes.to_vec(alloc)?);
    Ok(Some(Op::FormatError(bytes)))
}

#[tactic(auto, unfolding(crate::specs::Fields::transmit_at))]
fn transmit(alloc: Global, fields: &[u8]) -> Result<Option<Op>, AllocError>
    ensures { IfOk result (λ op. option_map operation_of op ≡ transmit_at fields.now) }
{
    let Some(parts) = classical_parts(fields) else {
        return Ok(None);
    };
    let Some(frame) = frame(alloc, parts)? else {
        return Ok(None);
    };
    Ok(Some(Op::Transmit(frame)))
}

#[tactic(auto, unfolding(crate::specs::Fields::fd_transmit_at))]
fn fd_transmit(alloc: Global, fields: &[u8]) -> Result<Option<Op>, AllocError>
    ensures { IfOk result (λ op. option_map operation_of op ≡ fd_transmit_at fields.now) }
{
    let Some(parts) = fd_parts(fields) else {
        return Ok(None);
    };
    let Some(frame) = frame(alloc, parts)? else {
        return Ok(None);
    };
    Ok(Some(Op::FdTransmit(frame)))
}

#[tactic(auto, unfolding(crate::specs::Fields::checked))]
fn frame(alloc: Global, parts: Parts<'_>) -> Result<Option<Frame>, AllocError>
    ensures { IfOk result (λ f. f ≡ checked (frame_of parts.entry)) }
{
    let bytes = Bytes::of(parts.data.to_vec(alloc)?);
    match Frame::new(parts.id, parts.ext, parts.kind, bytes) {
        Ok(frame) => Ok(Some(frame)),
        Err(_) => Ok(None),
    }
}

#[tactic(auto, unfolding(crate::specs::Fields::classical_at))]
fn classical_parts(fields: &[u8]) -> Option<Parts<'_>>
    ensures { option_map frame_of result ≡ classical_at fields.now }
{
    let (id, rest) = number(fields)?;
    classical_rest(id, rest)
}

#[tactic(auto, unfolding(crate::specs::Fields::classical_behind))]
fn classical_rest(id: u32, fields: &[u8]) -> Option<Parts<'_>>
    ensures { option_map frame_of result ≡ classical_behind id fields.now }
{
    match fields {
        [ide, rtr, rest @ ..] => {
            let ext = flag(*ide)?;
            let remote = flag(*rtr)?;
            let data = counted(rest)?;
            let kind = if remote { Kind::Remote } else { Kind::Data };
            Some(Parts {
                id,
                ext,
                kind,
                data,
            })
        }
        _ => None,
    }
}

#[tactic(auto, unfolding(crate::specs::Fields::fd_at))]
fn fd_parts(fields: &[u8]) -> Option<Parts<'_>>
    ensures { option_map frame_of result ≡ fd_at fields.now }
{
    let (id, rest) = number(fields)?;
    fd_rest(id, rest)
}

#[tactic(auto, unfolding(crate::specs::Fields::fd_behind))]
fn fd_rest(id: u32, fields: &[u8]) -> Option<Parts<'_>>
    ensures { option_map frame_of result ≡ fd_behind id fields.now }
{
    match fields {
        [ide, switch, indicator, rest @ ..] => {
            let ext = flag(*ide)?;
            let brs = flag(*switch)?;
            let esi = flag(*indicator)?;
            let data = counted(rest)?;
            let kind = Kind::Fd { brs, esi };
            Some(Parts {
                id,
                ext,
                kind,
                data,
            })
        }
        _ => None,
    }
}

#[tactic(auto, unfolding(crate::specs::Fields::error_at))]
fn bus_error(fields: &[u8]) -> Option<Op>
    ensures { option_map operation_of result ≡ error_at fields.now }
{
    let (id, rest) = number(fields)?;
    error_rest(id, rest)
}

#[tactic(auto, unfolding(crate::specs::Fields::error_behind))]
fn error_rest(id: u32, fields: &[u8]) -> Option<Op>
    ensures { option_map operation_of result ≡ error_behind id fields.now }
{
    match fields {
        [kind @ 1..=5, part, sender] => {
            let primary = is_primary(*part)?;
            let sender = flag(*sender)?;
            Some(Op::BusError {
                id,
                kind: *kind,
                primary,
                sender,
            })
        }
        _ => None,
    }
}

#[tactic(auto, unfolding(crate::specs::Fields::parameter_at))]
fn parameter(fields: &[u8]) -> Option<Parameter>
    ensures { option_map parameter_of result ≡ parameter_at fields.now }
{
    match fields {
        [1, rate @ ..] => Some(Parameter::Rate(only_number(rate)?)),
        [2, rate @ ..] => Some(Parameter::FdRate(only_number(rate)?)),
        [4, 1] => Some(Parameter::Keep),
        [4, 2] => Some(Parameter::Discard),
        _ => None,
    }
}

fn declared(fields: &[u8]) -> Option<Declared>
    ensures { option_map declared_of result ≡ declared_at fields.now }
{
    match fields {
        [1] => Some(Declared::Active),
        [2] => Some(Declared::Passive),
        [3] => Some(Declared::Off),
        _ => None,
    }
}

fn flag(byte: u8) -> Option<bool>
    ensures { result ≡ flag_at byte }
{
    match byte {
        0 => Some(false),
        1 => Some(true),
        _ => None,
    }
}

fn is_primary(byte: u8) -> Option<bool>
    ensures { result ≡ part_at byte }
{
    match byte {
        1 => Some(true),
        2 => Some(false),
        _ => None,
    }
}

fn counted(fields: &[u8]) -> Option<&[u8]>
    ensures { option_map (λ b. b.now) result ≡ counted_at fields.now }
{
    match fields {
        [low, high, rest @ ..] => {
            let length = u16::from_le_bytes([*low, *high]);
            (rest.len() == usize::from(length)).then_some(rest)
        }
        _ => None,
    }
}

#[tactic(auto, unfolding(crate::specs::Fields::lone_number))]
fn only_number(fields: &[u8]) -> Option<u32>
    ensures { result ≡ lone_number fields.now }
{
    let (number, rest) = number(fields)?;
    rest.is_empty().then_some(number)
}

fn number(bytes: &[u8]) -> Option<(u32, &[u8])>
    ensures { option_map (λ x. (x.0, x.1.now)) result ≡ number_at bytes.now }
{
    match bytes {
        [a, b, c, d, rest @ ..] => Some((u32::from_le_bytes([*a, *b, *c, *d]), rest)),
        _ => None,
    }
}
