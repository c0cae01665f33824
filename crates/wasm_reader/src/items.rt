//! Vectors of bytes, indices and value types, and names.
ghost use Rattle.std.specs.Prelude.{◌≡◌, ◌≤◌, ◌<◌, length, IfOk};
ghost use Rattle.module_specs.specs.Reading.{byte_at, u32_at, type_at, each_at, vector_at, name_at, Gives};
ghost use Rattle.std.specs.Str.{is_utf8};

use module_specs::Fault;
use std::alloc::Global;
use wasm_code::{byte, number, value_type};
use wasm_types::ValType;

fn each_byte(alloc: Global, bytes: &[u8], count: u32, at: usize) -> Result<(Vec<u8>, usize), Fault>
    requires { at ≤ length bytes.now }
    ensures next { IfOk result (λ p. p.1 ≤ length bytes.now) }
    ensures is { Gives (λ p. (p.0.items, p.1)) result (each_at byte_at bytes.now count at) }
{
    let mut items = Vec::new(alloc);
    let mut place = at;
    for _ in 0..count {
        let (item, next) = byte(bytes, place)?;
        items.push(item)?;
        place = next;
    }
    Ok((items, place))
}

#[tactic(auto, unfolding(module_specs::specs::Reading::vector_at))]
pub fn bytes_of(alloc: Global, bytes: &[u8], at: usize) -> Result<(Vec<u8>, usize), Fault>
    requires { at ≤ length bytes.now }
    ensures next { IfOk result (λ p. p.1 ≤ length bytes.now) }
    ensures is { Gives (λ p. (p.0.items, p.1)) result (vector_at byte_at bytes.now at) }
{
    let (count, next) = number(bytes, at)?;
    each_byte(alloc, bytes, count, next)
}

fn each_index(
    alloc: Global,
    bytes: &[u8],
    count: u32,
    at: usize,
) -> Result<(Vec<u32>, usize), Fault>
    requires { at ≤ length bytes.now }
    ensures next { IfOk result (λ p. p.1 ≤ length bytes.now) }
    ensures is { Gives (λ p. (p.0.items, p.1)) result (each_at u32_at bytes.now count at) }
{
    let mut items = Vec::new(alloc);
    let mut place = at;
    for _ in 0..count {
        let (item, next) = number(bytes, place)?;
        items.push(item)?;
        place = next;
    }
    Ok((items, place))
}

#[tactic(auto, unfolding(module_specs::specs::Reading::vector_at))]
pub fn indices(alloc: Global, bytes: &[u8], at: usize) -> Result<(Vec<u32>, usize), Fault>
    requires { at ≤ length bytes.now }
    ensures next { IfOk result (λ p. p.1 ≤ length bytes.now) }
    ensures is { Gives (λ p. (p.0.items, p.1)) result (vector_at u32_at bytes.now at) }
{
    let (count, next) = number(bytes, at)?;
    each_index(alloc, bytes, count, next)
}

fn each_type(
    alloc: Global,
    bytes: &[u8],
    count: u32,
    at: usize,
) -> Result<(Vec<ValType>, usize), Fault>
    requires { at ≤ length bytes.now }
    ensures next { IfOk result (λ p. p.1 ≤ length bytes.now) }
    ensures is { Gives (λ p. (p.0.items, p.1)) result (each_at type_at bytes.now count at) }
{
    let mut items = Vec::new(alloc);
    let mut place = at;
    for _ in 0..count {
        let (item, next) = value_type(bytes, place)?;
        items.push(item)?;
        place = next;
    }
    Ok((items, place))
}

#[tactic(auto, unfolding(module_specs::specs::Reading::vector_at))]
pub fn value_types(alloc: Global, bytes: &[u8], at: usize) -> Result<(Vec<ValType>, usize), Fault>
    requires { at ≤ length bytes.now }
    ensures next { IfOk result (λ p. p.1 ≤ length bytes.now) }
    ensures is { Gives (λ p. (p.0.items, p.1)) result (vector_at type_at bytes.now at) }
{
    let (count, next) = number(bytes, at)?;
    each_type(alloc, bytes, count, next)
}

// Whether bytes are UTF-8.
#[tactic(auto, using(crate::proofs::Texts::tested_ok, crate::proofs::Texts::tested_err))]
fn is_utf8(bytes: &[u8]) -> bool
    ensures { result ≡ is_utf8 bytes.now }
{
    match std::str::from_utf8(bytes) {
        Ok(_) => true,
        Err(_) => false,
    }
}

/// The name at a place.
#[tactic(auto, unfolding(module_specs::specs::Reading::name_at))]
pub fn name(alloc: Global, bytes: &[u8], at: usize) -> Result<(Vec<u8>, usize), Fault>
    requires { at ≤ length bytes.now }
    ensures next { IfOk result (λ p. p.1 ≤ length bytes.now) }
    ensures is { Gives (λ p. (p.0.items, p.1)) result (name_at bytes.now at) }
{
    let (name, next) = bytes_of(alloc, bytes, at)?;
    if !is_utf8(&name) {
        return Err(Fault::Utf8(at));
    }
    Ok((name, next))
}
