//! Function types, tables and memories.
ghost use Rattle.std.specs.Prelude.{◌≡◌, ◌≤◌, ◌<◌, length, IfOk};
ghost use Rattle.module_specs.specs.Reading.{each_at, vector_at, Gives};
ghost use Rattle.module_specs.specs.ModuleReading.{func_type_at, max_at, limits_at, table_at, memory_at};

use crate::items::value_types;
use module_specs::Fault;
use std::alloc::Global;
use wasm_code::{byte, number};
use wasm_types::{FuncType, Limits, ValTypes};

const MOST_ENTRIES: u32 = 65536;

const MOST_PAGES: u32 = 256;

#[tactic(auto, unfolding(module_specs::specs::ModuleReading::func_type_at))]
fn func_type(alloc: Global, bytes: &[u8], at: usize) -> Result<(FuncType, usize), Fault>
    requires { at ≤ length bytes.now }
    ensures next { IfOk result (λ p. p.1 ≤ length bytes.now) }
    ensures is { Gives (λ p. p) result (func_type_at bytes.now at) }
{
    let (form, next) = byte(bytes, at)?;
    if form != 0x60 {
        return Err(Fault::Form(at));
    }
    let (params, next) = value_types(alloc, bytes, next)?;
    let (results, next) = value_types(alloc, bytes, next)?;
    let ty = FuncType {
        params: ValTypes::of(params),
        results: ValTypes::of(results),
    };
    Ok((ty, next))
}

fn max(flag: u8, bytes: &[u8], at: usize) -> Result<(Option<u32>, usize), Fault>
    requires { at ≤ length bytes.now }
    ensures next { IfOk result (λ p. p.1 ≤ length bytes.now) }
    ensures is { result ≡ max_at flag bytes.now at }
{
    if flag == 0 {
        return Ok((None, at));
    }
    let (max, next) = number(bytes, at)?;
    Ok((Some(max), next))
}

// Limits whose least size may be so much.
#[tactic(auto, unfolding(module_specs::specs::ModuleReading::limits_at))]
fn limits(most: u32, bytes: &[u8], at: usize) -> Result<(Limits, usize), Fault>
    requires { at ≤ length bytes.now }
    ensures next { IfOk result (λ p. p.1 ≤ length bytes.now) }
    ensures is { result ≡ limits_at most bytes.now at }
{
    let (flag, place) = byte(bytes, at)?;
    if flag > 1 {
        return Err(Fault::Form(at));
    }
    let (min, next) = number(bytes, place)?;
    if min > most {
        return Err(Fault::Limit(place));
    }
    let (max, next) = max(flag, bytes, next)?;
    Ok((Limits { min, max }, next))
}

#[tactic(auto, unfolding(module_specs::specs::ModuleReading::table_at))]
fn table(bytes: &[u8], at: usize) -> Result<(Limits, usize), Fault>
    requires { at ≤ length bytes.now }
    ensures next { IfOk result (λ p. p.1 ≤ length bytes.now) }
    ensures is { result ≡ table_at bytes.now at }
{
    let (form, next) = byte(bytes, at)?;
    if form != 0x70 {
        return Err(Fault::Form(at));
    }
    limits(MOST_ENTRIES, bytes, next)
}

fn memory(bytes: &[u8], at: usize) -> Result<(Limits, usize), Fault>
    requires { at ≤ length bytes.now }
    ensures next { IfOk result (λ p. p.1 ≤ length bytes.now) }
    ensures is { result ≡ memory_at bytes.now at }
{
    limits(MOST_PAGES, bytes, at)
}

fn each_func_type(
    alloc: Global,
    bytes: &[u8],
    count: u32,
    at: usize,
) -> Result<(Vec<FuncType>, usize), Fault>
    requires { at ≤ length bytes.now }
    ensures next { IfOk result (λ p. p.1 ≤ length bytes.now) }
    ensures is { Gives (λ p. (p.0.items, p.1)) result (each_at func_type_at bytes.now count at) }
{
    let mut items = Vec::new(alloc);
    let mut place = at;
    for _ in 0..count {
        let (item, next) = func_type(alloc, bytes, place)?;
        items.push(item)?;
        place = next;
    }
    Ok((items, place))
}

#[tactic(auto, unfolding(module_specs::specs::Reading::vector_at))]
pub fn func_types(alloc: Global, bytes: &[u8], at: usize) -> Result<(Vec<FuncType>, usize), Fault>
    requires { at ≤ length bytes.now }
    ensures next { IfOk result (λ p. p.1 ≤ length bytes.now) }
    ensures is { Gives (λ p. (p.0.items, p.1)) result (vector_at func_type_at bytes.now at) }
{
    let (count, next) = number(bytes, at)?;
    each_func_type(alloc, bytes, count, next)
}

fn each_table(
    alloc: Global,
    bytes: &[u8],
    count: u32,
    at: usize,
) -> Result<(Vec<Limits>, usize), Fault>
    requires { at ≤ length bytes.now }
    ensures next { IfOk result (λ p. p.1 ≤ length bytes.now) }
    ensures is { Gives (λ p. (p.0.items, p.1)) result (each_at table_at bytes.now count at) }
{
    let mut items = Vec::new(alloc);
    let mut place = at;
    for _ in 0..count {
        let (item, next) = table(bytes, place)?;
        items.push(item)?;
        place = next;
    }
    Ok((items, place))
}

#[tactic(auto, unfolding(module_specs::specs::Reading::vector_at))]
pub fn tables(alloc: Global, bytes: &[u8], at: usize) -> Result<(Vec<Limits>, usize), Fault>
    requires { at ≤ length bytes.now }
    ensures next { IfOk result (λ p. p.1 ≤ length bytes.now) }
    ensures is { Gives (λ p. (p.0.items, p.1)) result (vector_at table_at bytes.now at) }
{
    let (count, next) = number(bytes, at)?;
    each_table(alloc, bytes, count, next)
}

fn each_memory(
    alloc: Global,
    bytes: &[u8],
    count: u32,
    at: usize,
) -> Result<(Vec<Limits>, usize), Fault>
    requires { at ≤ length bytes.now }
    ensures next { IfOk result (λ p. p.1 ≤ length bytes.now) }
    ensures is { Gives (λ p. (p.0.items, p.1)) result (each_at memory_at bytes.now count at) }
{
    let mut items = Vec::new(alloc);
    let mut place = at;
    for _ in 0..count {
        let (item, next) = memory(bytes, place)?;
        items.push(item)?;
        place = next;
    }
    Ok((items, place))
}

#[tactic(auto, unfolding(module_specs::specs::Reading::vector_at))]
pub fn memories(alloc: Global, bytes: &[u8], at: usize) -> Result<(Vec<Limits>, usize), Fault>
    requires { at ≤ length bytes.now }
    ensures next { IfOk result (λ p. p.1 ≤ length bytes.now) }
    ensures is { Gives (λ p. (p.0.items, p.1)) result (vector_at memory_at bytes.now at) }
{
    let (count, next) = number(bytes, at)?;
    each_memory(alloc, bytes, count, next)
}
