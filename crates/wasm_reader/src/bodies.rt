//! The content of a code section: a body for each function.
ghost use Rattle.std.specs.Prelude.{◌≡◌, ◌≤◌, length, IfOk};
ghost use Rattle.module_specs.specs.Reading.{Gives};
ghost use Rattle.module_specs.specs.ModuleReading.{bodies_at, codes_at};
ghost use Rattle.wasm_reader.specs.Flat.{flat_funcs};

use module_specs::Fault;
use std::alloc::Global;
use wasm_code::{number, read_function};
use wasm_types::Func;

fn read_bodies(
    alloc: Global,
    indices: &[u32],
    bytes: &[u8],
    at: usize,
) -> Result<(Vec<Func>, usize), Fault>
    requires { at ≤ length bytes.now }
    ensures next { IfOk result (λ p. p.1 ≤ length bytes.now) }
    ensures is { Gives (λ p. (p.0.items, p.1)) result (flat_funcs (bodies_at indices.now bytes.now at)) }
{
    let mut funcs = Vec::new(alloc);
    let mut place = at;
    for ty in indices {
        let (func, next) = read_function(alloc, bytes, place, *ty)?;
        funcs.push(func)?;
        place = next;
    }
    Ok((funcs, place))
}

/// The bodies at a place, for functions of these types, in the code section whose id byte stands at `id`.
#[tactic(auto, unfolding(module_specs::specs::ModuleReading::codes_at))]
pub fn read_codes(
    alloc: Global,
    id: usize,
    indices: &[u32],
    bytes: &[u8],
    at: usize,
) -> Result<(Vec<Func>, usize), Fault>
    requires { at ≤ length bytes.now }
    ensures next { IfOk result (λ p. p.1 ≤ length bytes.now) }
    ensures is { Gives (λ p. (p.0.items, p.1)) result (flat_funcs (codes_at id indices.now bytes.now at)) }
{
    let (count, next) = number(bytes, at)?;
    if count as usize != indices.len() {
        return Err(Fault::Count(id));
    }
    read_bodies(alloc, indices, bytes, next)
}
