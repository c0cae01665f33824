//! Constants, globals, exports and segments.
ghost use Rattle.std.specs.Prelude.{◌≡◌, ◌≤◌, ◌<◌, length, IfOk};
ghost use Rattle.module_specs.specs.Reading.{each_at, vector_at, Gives};
ghost use Rattle.module_specs.specs.ModuleReading.{value_of, constant_at, global_at, export_at, offset_at, element_at, data_at};

use crate::items::{bytes_of, indices, name};
use module_specs::Fault;
use std::alloc::Global;
use wasm_code::{byte, long_signed, number, signed, value_type};
use wasm_types::{Bytes, Constant, Data, Element, Export, GlobalVar, Indices, ValType};

// The value behind the first byte of a constant, which stands at a place.
fn value_of(bytes: &[u8], at: usize, next: usize, op: u8) -> Result<(Constant, usize), Fault>
    requires { next ≤ length bytes.now }
    ensures next { IfOk result (λ p. p.1 ≤ length bytes.now) }
    ensures is { result ≡ value_of bytes.now at next op }
{
    match op {
        0x41 => {
            let (value, next) = signed(bytes, next)?;
            let value = value.cast_unsigned() as u64;
            Ok((
                Constant {
                    ty: ValType::I32,
                    value,
                },
                next,
            ))
        }
        0x42 => {
            let (value, next) = long_signed(bytes, next)?;
            let value = value.cast_unsigned();
            Ok((
                Constant {
                    ty: ValType::I64,
                    value,
                },
                next,
            ))
        }
        0x43 | 0x44 => Err(Fault::Float(at)),
        _ => Err(Fault::Form(at)),
    }
}

#[tactic(auto, unfolding(module_specs::specs::ModuleReading::constant_at))]
fn constant(bytes: &[u8], at: usize) -> Result<(Constant, usize), Fault>
    requires { at ≤ length bytes.now }
    ensures next { IfOk result (λ p. p.1 ≤ length bytes.now) }
    ensures is { result ≡ constant_at bytes.now at }
{
    let (op, next) = byte(bytes, at)?;
    let (value, place) = value_of(bytes, at, next, op)?;
    let (end, next) = byte(bytes, place)?;
    if end != 0x0B {
        return Err(Fault::Form(place));
    }
    Ok((value, next))
}

#[tactic(auto, unfolding(module_specs::specs::ModuleReading::global_at))]
fn global(bytes: &[u8], at: usize) -> Result<(GlobalVar, usize), Fault>
    requires { at ≤ length bytes.now }
    ensures next { IfOk result (λ p. p.1 ≤ length bytes.now) }
    ensures is { result ≡ global_at bytes.now at }
{
    let (ty, place) = value_type(bytes, at)?;
    let (mutable, next) = byte(bytes, place)?;
    if mutable > 1 {
        return Err(Fault::Form(place));
    }
    let (init, next) = constant(bytes, next)?;
    let global = GlobalVar {
        ty,
        mutable: mutable == 1,
        init,
    };
    Ok((global, next))
}

#[tactic(auto, unfolding(module_specs::specs::ModuleReading::export_at))]
fn export(alloc: Global, bytes: &[u8], at: usize) -> Result<(Export, usize), Fault>
    requires { at ≤ length bytes.now }
    ensures next { IfOk result (λ p. p.1 ≤ length bytes.now) }
    ensures is { Gives (λ p. p) result (export_at bytes.now at) }
{
    let (name, place) = name(alloc, bytes, at)?;
    let (kind, next) = byte(bytes, place)?;
    if kind > 3 {
        return Err(Fault::Form(place));
    }
    let (index, next) = number(bytes, next)?;
    let export = Export {
        name: Bytes::of(name),
        kind,
        index,
    };
    Ok((export, next))
}

#[tactic(auto, unfolding(module_specs::specs::ModuleReading::offset_at))]
fn offset(bytes: &[u8], at: usize) -> Result<(Constant, usize), Fault>
    requires { at ≤ length bytes.now }
    ensures next { IfOk result (λ p. p.1 ≤ length bytes.now) }
    ensures is { result ≡ offset_at bytes.now at }
{
    let (index, next) = number(bytes, at)?;
    if index != 0 {
        return Err(Fault::Form(at));
    }
    constant(bytes, next)
}

#[tactic(auto, unfolding(module_specs::specs::ModuleReading::element_at))]
fn element(alloc: Global, bytes: &[u8], at: usize) -> Result<(Element, usize), Fault>
    requires { at ≤ length bytes.now }
    ensures next { IfOk result (λ p. p.1 ≤ length bytes.now) }
    ensures is { Gives (λ p. p) result (element_at bytes.now at) }
{
    let (offset, next) = offset(bytes, at)?;
    let (funcs, next) = indices(alloc, bytes, next)?;
    let funcs = Indices::of(funcs);
    Ok((Element { offset, funcs }, next))
}

#[tactic(auto, unfolding(module_specs::specs::ModuleReading::data_at))]
fn data(alloc: Global, bytes: &[u8], at: usize) -> Result<(Data, usize), Fault>
    requires { at ≤ length bytes.now }
    ensures next { IfOk result (λ p. p.1 ≤ length bytes.now) }
    ensures is { Gives (λ p. p) result (data_at bytes.now at) }
{
    let (offset, next) = offset(bytes, at)?;
    let (data, next) = bytes_of(alloc, bytes, next)?;
    let bytes = Bytes::of(data);
    Ok((Data { offset, bytes }, next))
}

fn each_global(
    alloc: Global,
    bytes: &[u8],
    count: u32,
    at: usize,
) -> Result<(Vec<GlobalVar>, usize), Fault>
    requires { at ≤ length bytes.now }
    ensures next { IfOk result (λ p. p.1 ≤ length bytes.now) }
    ensures is { Gives (λ p. (p.0.items, p.1)) result (each_at global_at bytes.now count at) }
{
    let mut items = Vec::new(alloc);
    let mut place = at;
    for _ in 0..count {
        let (item, next) = global(bytes, place)?;
        items.push(item)?;
        place = next;
    }
    Ok((items, place))
}

#[tactic(auto, unfolding(module_specs::specs::Reading::vector_at))]
pub fn globals(alloc: Global, bytes: &[u8], at: usize) -> Result<(Vec<GlobalVar>, usize), Fault>
    requires { at ≤ length bytes.now }
    ensures next { IfOk result (λ p. p.1 ≤ length bytes.now) }
    ensures is { Gives (λ p. (p.0.items, p.1)) result (vector_at global_at bytes.now at) }
{
    let (count, next) = number(bytes, at)?;
    each_global(alloc, bytes, count, next)
}

fn each_export(
    alloc: Global,
    bytes: &[u8],
    count: u32,
    at: usize,
) -> Result<(Vec<Export>, usize), Fault>
    requires { at ≤ length bytes.now }
    ensures next { IfOk result (λ p. p.1 ≤ length bytes.now) }
    ensures is { Gives (λ p. (p.0.items, p.1)) result (each_at export_at bytes.now count at) }
{
    let mut items = Vec::new(alloc);
    let mut place = at;
    for _ in 0..count {
        let (item, next) = export(alloc, bytes, place)?;
        items.push(item)?;
        place = next;
    }
    Ok((items, place))
}

#[tactic(auto, unfolding(module_specs::specs::Reading::vector_at))]
pub fn exports(alloc: Global, bytes: &[u8], at: usize) -> Result<(Vec<Export>, usize), Fault>
    requires { at ≤ length bytes.now }
    ensures next { IfOk result (λ p. p.1 ≤ length bytes.now) }
    ensures is { Gives (λ p. (p.0.items, p.1)) result (vector_at export_at bytes.now at) }
{
    let (count, next) = number(bytes, at)?;
    each_export(alloc, bytes, count, next)
}

fn each_element(
    alloc: Global,
    bytes: &[u8],
    count: u32,
    at: usize,
) -> Result<(Vec<Element>, usize), Fault>
    requires { at ≤ length bytes.now }
    ensures next { IfOk result (λ p. p.1 ≤ length bytes.now) }
    ensures is { Gives (λ p. (p.0.items, p.1)) result (each_at element_at bytes.now count at) }
{
    let mut items = Vec::new(alloc);
    let mut place = at;
    for _ in 0..count {
        let (item, next) = element(alloc, bytes, place)?;
        items.push(item)?;
        place = next;
    }
    Ok((items, place))
}

#[tactic(auto, unfolding(module_specs::specs::Reading::vector_at))]
pub fn elements(alloc: Global, bytes: &[u8], at: usize) -> Result<(Vec<Element>, usize), Fault>
    requires { at ≤ length bytes.now }
    ensures next { IfOk result (λ p. p.1 ≤ length bytes.now) }
    ensures is { Gives (λ p. (p.0.items, p.1)) result (vector_at element_at bytes.now at) }
{
    let (count, next) = number(bytes, at)?;
    each_element(alloc, bytes, count, next)
}

fn each_data(
    alloc: Global,
    bytes: &[u8],
    count: u32,
    at: usize,
) -> Result<(Vec<Data>, usize), Fault>
    requires { at ≤ length bytes.now }
    ensures next { IfOk result (λ p. p.1 ≤ length bytes.now) }
    ensures is { Gives (λ p. (p.0.items, p.1)) result (each_at data_at bytes.now count at) }
{
    let mut items = Vec::new(alloc);
    let mut place = at;
    for _ in 0..count {
        let (item, next) = data(alloc, bytes, place)?;
        items.push(item)?;
        place = next;
    }
    Ok((items, place))
}

#[tactic(auto, unfolding(module_specs::specs::Reading::vector_at))]
pub fn datas(alloc: Global, bytes: &[u8], at: usize) -> Result<(Vec<Data>, usize), Fault>
    requires { at ≤ length bytes.now }
    ensures next { IfOk result (λ p. p.1 ≤ length bytes.now) }
    ensures is { Gives (λ p. (p.0.items, p.1)) result (vector_at data_at bytes.now at) }
{
    let (count, next) = number(bytes, at)?;
    each_data(alloc, bytes, count, next)
}
