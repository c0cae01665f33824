//! Bodies: locals and code.
ghost use Rattle.std.specs.Prelude.{◌≡◌, ◌≤◌, ◌<◌, ◌+◌, ◌-◌, ◌++◌, ◌^◌, List, ℕ, Ok, length, replicate, take, IfOk, OnOk};
ghost use Rattle.wasm_types.specs.Modules.{NestedFunc, flat_func};
ghost use Rattle.module_specs.specs.Spelling.{Here};
ghost use Rattle.module_specs.specs.CodeSpelling.{SpellsBody};
ghost use Rattle.module_specs.specs.Reading.{Gives, u32_at, type_at, sized_at};
ghost use Rattle.module_specs.specs.CodeReading.{runs_at, locals_at, content_at, body_at};
ghost use Rattle.wasm_code.specs.Faults.{with_fault};
ghost use Rattle.wasm_code.specs.Flat.{flat_read};
ghost use Rattle.wasm_code.specs.Runs.{run_at};

use crate::error::{CodeError, code_error};
use crate::flat::read_code;
use crate::items::{number, value_type};
use module_specs::Fault;
use std::alloc::{AllocError, Global};
use wasm_types::{Func, Instrs, ValType, ValTypes};

const MOST_LOCALS: usize = 4096;

fn push_copies(locals: &mut Vec<ValType>, count: u32, ty: ValType) -> Result<(), AllocError>
    requires { length locals.old.items ≤ 4096 }
    ensures { OnOk result (locals.new.items ≡ locals.old.items ++ replicate count ty) }
{
    locals.resize(locals.len() + count as usize, ty)
}

// One run, behind the locals so far.
#[tactic(auto, unfolding(crate::specs::Runs::run_at))]
fn read_run(locals: &mut Vec<ValType>, body: usize, bytes: &[u8], at: usize) -> Result<usize, Fault>
    requires place { at ≤ length bytes.now }
    requires most { length locals.old.items ≤ 4096 }
    ensures next { IfOk result (λ next. (at ≤ next) × (next ≤ length bytes.now)) }
    ensures most { IfOk result (λ _. length locals.new.items ≤ 4096) }
    ensures is { Gives (λ next. (locals.new.items, next)) result (run_at body bytes.now locals.old.items at) }
{
    let (count, next) = number(bytes, at)?;
    if MOST_LOCALS - locals.len() < count as usize {
        return Err(Fault::Limit(body));
    }
    let (ty, next) = value_type(bytes, next)?;
    push_copies(locals, count, ty)?;
    Ok(next)
}

fn read_runs(
    alloc: Global,
    body: usize,
    bytes: &[u8],
    count: u32,
    at: usize,
) -> Result<(Vec<ValType>, usize), Fault>
    requires place { at ≤ length bytes.now }
    ensures next { IfOk result (λ p. (at ≤ p.1) × (p.1 ≤ length bytes.now)) }
    ensures is { Gives (λ p. (p.0.items, p.1)) result (runs_at body bytes.now 4096 count at) }
{
    let mut locals = Vec::new(alloc);
    let mut place = at;
    for _ in 0..count {
        place = read_run(&mut locals, body, bytes, place)?;
    }
    locals.shrink_to_fit();
    Ok((locals, place))
}

#[tactic(auto, unfolding(module_specs::specs::CodeReading::content_at, module_specs::specs::CodeReading::locals_at))]
fn read_content(
    alloc: Global,
    ty: u32,
    body: usize,
    bytes: &[u8],
    at: usize,
) -> Result<(Func, usize), Fault>
    requires place { at ≤ length bytes.now }
    requires size { length bytes.now < at + 2 ^ 32 }
    ensures next { IfOk result (λ p. p.1 ≤ length bytes.now) }
    ensures is { Gives (λ p. p) result (flat_read (content_at ty body bytes.now at)) }
{
    let (count, next) = number(bytes, at)?;
    let (locals, next) = read_runs(alloc, body, bytes, count, next)?;
    let (code, next) = read_code(alloc, bytes, next)?;
    let func = Func {
        ty,
        locals: ValTypes::of(locals),
        body: Instrs::of(code),
    };
    Ok((func, next))
}

/// Reads the body whose size stands at a place, in a region that ends where the bytes do, for a function of a type: the
/// function, and the place behind it.
#[tactic(auto, unfolding(module_specs::specs::CodeReading::body_at, module_specs::specs::Reading::sized_at))]
pub fn read_function(
    alloc: Global,
    bytes: &[u8],
    at: usize,
    ty: u32,
) -> Result<(Func, usize), Fault>
    requires place { at ≤ length bytes.now }
    ensures next { IfOk result (λ p. p.1 ≤ length bytes.now) }
    ensures is { Gives (λ p. p) result (flat_read (body_at ty bytes.now at)) }
{
    let (size, next) = number(bytes, at)?;
    let size = size as usize;
    if bytes.len() - next < size {
        return Err(Fault::Short(bytes.len()));
    }
    let end = next + size;
    let (func, next) = read_content(alloc, ty, at, &bytes[..end], next)?;
    if next < end {
        return Err(Fault::Size(at));
    }
    Ok((func, next))
}

/// Reads the body whose size stands at a place, in a section that ends at `end`, for a function of a type: the function,
/// and the place behind it.
pub fn read_body(
    alloc: Global,
    bytes: &[u8],
    at: usize,
    end: usize,
    ty: u32,
) -> Result<(Func, usize), CodeError>
    requires place { at ≤ end }
    requires end { end ≤ length bytes.now }
    // What is read is the flat form of a function that the bytes spell.
    ensures found { IfOk result (λ p. (f : NestedFunc) × (text : List ℕ) × (p.0 ≡ flat_func f) × (f.ty ≡ ty) × (p.1 ≤ end)
        × Here bytes.now at text p.1 × SpellsBody f text) }
    // What the bytes spell is read, unless memory runs out.
    ensures only { (f : NestedFunc) (text : List ℕ) (next : ℕ) → f.ty ≡ ty → next ≤ end
        → Here bytes.now at text next → SpellsBody f text
        → Gives (λ p. p) (with_fault result) (Ok (flat_func f, next)) }
    // Which fault it is.
    ensures exact { Gives (λ p. p) (with_fault result) (flat_read (body_at ty (take end bytes.now) at)) }
{
    match read_function(alloc, &bytes[..end], at, ty) {
        Ok(read) => Ok(read),
        Err(fault) => Err(code_error(fault)),
    }
}
