//! Single items: bytes, numbers, types and tokens.
//!
//! Each looks at the bytes of a region, from the file's beginning to the region's end.
ghost use Rattle.std.specs.Prelude.{◌≡◌, ◌≤◌, ◌<◌, ℕ, length, IfOk};
ghost use Rattle.module_specs.specs.Reading.{byte_at, u32_at, s32_at, s64_at, zero_at, Gives, each_at, vector_at, type_at, type_of, block_type_at};
ghost use Rattle.module_specs.specs.CodeReading.{immediates_at, token_at};
ghost use Rattle.module_specs.specs.declared.opcodes.Group.TheVariants as group;
ghost use Rattle.module_specs.specs.Opcodes.{simple_instr, indexed_instr};

use leb_bytes::{LebError, read_s32, read_s64, read_u32};
use module_specs::{Fault, Group, Indexed, Simple, Token, row_of};
use std::alloc::Global;
use wasm_types::{Instr, Labels, ValType};

/// The byte at a place of a region, and the place behind it.
#[tactic(auto, unfolding(module_specs::specs::Reading::byte_at))]
pub fn byte(bytes: &[u8], at: usize) -> Result<(u8, usize), Fault>
    requires { at ≤ length bytes.now }
    ensures next { IfOk result (λ p. (at < p.1) × (p.1 ≤ length bytes.now)) }
    ensures is { result ≡ byte_at bytes.now at }
{
    if at < bytes.len() {
        return Ok((bytes[at], at + 1));
    }
    Err(Fault::Short(bytes.len()))
}

/// The unsigned number of 32 bits at a place.
#[tactic(auto, unfolding(module_specs::specs::Reading::u32_at))]
pub fn number(bytes: &[u8], at: usize) -> Result<(u32, usize), Fault>
    requires { at ≤ length bytes.now }
    ensures next { IfOk result (λ p. (at < p.1) × (p.1 ≤ length bytes.now)) }
    ensures is { result ≡ u32_at bytes.now at }
{
    match read_u32(bytes, at) {
        Ok((n, next)) => Ok((n, next)),
        Err(LebError::Short) => Err(Fault::Short(bytes.len())),
        Err(_) => Err(Fault::Number(at)),
    }
}

/// The signed number of 32 bits at a place.
#[tactic(auto, unfolding(module_specs::specs::Reading::s32_at))]
pub fn signed(bytes: &[u8], at: usize) -> Result<(i32, usize), Fault>
    requires { at ≤ length bytes.now }
    ensures next { IfOk result (λ p. (at < p.1) × (p.1 ≤ length bytes.now)) }
    ensures is { result ≡ s32_at bytes.now at }
{
    match read_s32(bytes, at) {
        Ok((n, next)) => Ok((n, next)),
        Err(LebError::Short) => Err(Fault::Short(bytes.len())),
        Err(_) => Err(Fault::Number(at)),
    }
}

/// The signed number of 64 bits at a place.
#[tactic(auto, unfolding(module_specs::specs::Reading::s64_at))]
pub fn long_signed(bytes: &[u8], at: usize) -> Result<(i64, usize), Fault>
    requires { at ≤ length bytes.now }
    ensures next { IfOk result (λ p. (at < p.1) × (p.1 ≤ length bytes.now)) }
    ensures is { result ≡ s64_at bytes.now at }
{
    match read_s64(bytes, at) {
        Ok((n, next)) => Ok((n, next)),
        Err(LebError::Short) => Err(Fault::Short(bytes.len())),
        Err(_) => Err(Fault::Number(at)),
    }
}

#[tactic(auto, unfolding(module_specs::specs::Reading::zero_at))]
fn zero(bytes: &[u8], at: usize) -> Result<usize, Fault>
    requires { at ≤ length bytes.now }
    ensures next { IfOk result (λ p. (at < p) × (p ≤ length bytes.now)) }
    ensures is { result ≡ zero_at bytes.now at }
{
    let (byte, next) = byte(bytes, at)?;
    if byte != 0 {
        return Err(Fault::Opcode(at, byte));
    }
    Ok(next)
}

fn type_of(at: usize, next: usize, byte: u8) -> Result<(ValType, usize), Fault>
    ensures next { IfOk result (λ p. p.1 ≡ next) }
    ensures is { result ≡ type_of at next byte }
{
    match byte {
        0x7F => Ok((ValType::I32, next)),
        0x7E => Ok((ValType::I64, next)),
        0x7D | 0x7C => Err(Fault::Float(at)),
        _ => Err(Fault::Form(at)),
    }
}

/// The value type at a place.
#[tactic(auto, unfolding(module_specs::specs::Reading::type_at))]
pub fn value_type(bytes: &[u8], at: usize) -> Result<(ValType, usize), Fault>
    requires { at ≤ length bytes.now }
    ensures next { IfOk result (λ p. (at < p.1) × (p.1 ≤ length bytes.now)) }
    ensures is { result ≡ type_at bytes.now at }
{
    let (byte, next) = byte(bytes, at)?;
    type_of(at, next, byte)
}

/// The block type at a place: the value that the block leaves, if it leaves one.
#[tactic(auto, unfolding(module_specs::specs::Reading::block_type_at))]
pub fn block_type(bytes: &[u8], at: usize) -> Result<(Option<ValType>, usize), Fault>
    requires { at ≤ length bytes.now }
    ensures next { IfOk result (λ p. (at < p.1) × (p.1 ≤ length bytes.now)) }
    ensures is { result ≡ block_type_at bytes.now at }
{
    let (byte, next) = byte(bytes, at)?;
    if byte == 0x40 {
        return Ok((None, next));
    }
    let (ty, next) = type_of(at, next, byte)?;
    Ok((Some(ty), next))
}

// So many labels.
fn each_label(
    alloc: Global,
    bytes: &[u8],
    count: u32,
    at: usize,
) -> Result<(Vec<u32>, usize), Fault>
    requires { at ≤ length bytes.now }
    ensures next { IfOk result (λ p. (at ≤ p.1) × (p.1 ≤ length bytes.now)) }
    ensures is { Gives (λ p. (p.0.items, p.1)) result (each_at u32_at bytes.now count at) }
{
    let mut items = Vec::new(alloc);
    let mut place = at;
    for _ in 0..count {
        let (item, next) = number(bytes, place)?;
        items.push(item)?;
        place = next;
    }
    Ok((items, place))
}

#[tactic(auto, unfolding(module_specs::specs::Reading::vector_at))]
fn labels(alloc: Global, bytes: &[u8], at: usize) -> Result<(Vec<u32>, usize), Fault>
    requires { at ≤ length bytes.now }
    ensures next { IfOk result (λ p. (at < p.1) × (p.1 ≤ length bytes.now)) }
    ensures is { Gives (λ p. (p.0.items, p.1)) result (vector_at u32_at bytes.now at) }
{
    let (count, next) = number(bytes, at)?;
    each_label(alloc, bytes, count, next)
}

fn simple_instr(op: u8, what: Simple) -> Instr
    ensures { result ≡ simple_instr op what }
{
    match what {
        Simple::Unreachable => Instr::Unreachable,
        Simple::Nop => Instr::Nop,
        Simple::Return => Instr::Return,
        Simple::Drop => Instr::Drop,
        Simple::Select => Instr::Select,
        Simple::MemorySize => Instr::MemorySize,
        Simple::MemoryGrow => Instr::MemoryGrow,
        Simple::Numeric => Instr::Numeric(op),
    }
}

fn indexed_instr(op: u8, what: Indexed, index: u32) -> Instr
    ensures { result ≡ indexed_instr op what index }
{
    match what {
        Indexed::Br => Instr::Br(index),
        Indexed::BrIf => Instr::BrIf(index),
        Indexed::Call => Instr::Call(index),
        Indexed::Local => Instr::Local { op, index },
        Indexed::Globals => Instr::Globals { op, index },
    }
}

// A constant of a type, behind its opcode.
fn constant(bytes: &[u8], ty: ValType, at: usize) -> Result<(Token, usize), Fault>
    requires { at ≤ length bytes.now }
    ensures next { IfOk result (λ p. (at < p.1) × (p.1 ≤ length bytes.now)) }
    ensures is { (place op : ℕ) → result ≡ immediates_at bytes.now place op at (group.Constant ty) }
{
    match ty {
        ValType::I32 => {
            let (value, next) = signed(bytes, at)?;
            Ok((Token::Plain(Instr::I32Const(value)), next))
        }
        ValType::I64 => {
            let (value, next) = long_signed(bytes, at)?;
            Ok((Token::Plain(Instr::I64Const(value)), next))
        }
    }
}

// The alignment and the offset of an access, behind its opcode.
fn access(bytes: &[u8], op: u8, at: usize) -> Result<(Token, usize), Fault>
    requires { at ≤ length bytes.now }
    ensures next { IfOk result (λ p. (at < p.1) × (p.1 ≤ length bytes.now)) }
    ensures is { (place width : ℕ) → result ≡ immediates_at bytes.now place op at (group.Access width) }
{
    let (align, next) = number(bytes, at)?;
    let (offset, next) = number(bytes, next)?;
    Ok((Token::Plain(Instr::Access { op, align, offset }), next))
}

/// The token at a place: an opcode and its immediates, but for a block type.
#[tactic(auto, unfolding(module_specs::specs::CodeReading::token_at))]
pub fn read_token(alloc: Global, bytes: &[u8], at: usize) -> Result<(Token, usize), Fault>
    requires { at ≤ length bytes.now }
    ensures next { IfOk result (λ p. (at < p.1) × (p.1 ≤ length bytes.now)) }
    ensures is { Gives (λ p. p) result (token_at bytes.now at) }
{
    let (op, next) = byte(bytes, at)?;
    match row_of(op).group {
        Group::Opens(kind) => Ok((Token::Opens(kind), next)),
        Group::Else => Ok((Token::Else, next)),
        Group::End => Ok((Token::End, next)),
        Group::Bare(what) => Ok((Token::Plain(simple_instr(op, what)), next)),
        Group::Zero(what) => {
            let next = zero(bytes, next)?;
            Ok((Token::Plain(simple_instr(op, what)), next))
        }
        Group::Index(what) => {
            let (index, next) = number(bytes, next)?;
            Ok((Token::Plain(indexed_instr(op, what, index)), next))
        }
        Group::Access(_) => access(bytes, op, next),
        Group::Constant(ty) => constant(bytes, ty, next),
        Group::Indirect => {
            let (ty, next) = number(bytes, next)?;
            let next = zero(bytes, next)?;
            Ok((Token::Plain(Instr::CallIndirect(ty)), next))
        }
        Group::Table => {
            let (labels, next) = labels(alloc, bytes, next)?;
            let (default, next) = number(bytes, next)?;
            let labels = Labels::of(labels);
            Ok((Token::Plain(Instr::BrTable { labels, default }), next))
        }
        Group::Float => Err(Fault::Float(at)),
        Group::Unknown => Err(Fault::Opcode(at, op)),
    }
}
