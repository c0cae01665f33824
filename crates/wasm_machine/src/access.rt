//! Loads, stores, and the size of the memory.
ghost use Rattle.std.specs.Prelude.{◌≡◌, ◌≢◌, ◌≤◌, ◌<◌, ◌+◌, ◌*◌, ◌%◌, ◌^◌, [], ◌∷◌, List, ℕ, length, true, false, IfOk, IfSome, OnOk, OnErr, IsOk, slice_get, Some, None, nat_lt, if◌then◌else◌};
ghost use Rattle.wasm_types.specs.declared.instr.Instr.TheVariants.{Access, MemorySize, MemoryGrow};
ghost use Rattle.wasm_types.specs.Spellable.{width, is_access_op};
ghost use Rattle.wasm_types.specs.Modules.{NestedModule};
ghost use Rattle.wasm_types.specs.declared.module.Limits.{Limits};
ghost use Rattle.code_specs.specs.Stores.{greatest_pages};
ghost use Rattle.code_specs.specs.Effects.{Stuck, bare, effect_of};
ghost use Rattle.wasm_memory.specs.Pools.{bytes_in, IsThere, IsUnshared, KeepsOthers, KeepsUnshared};
ghost use Rattle.wasm_machine.specs.Opcodes.{is_load_op, loaded_type, width_of, with_sign, done};
ghost use Rattle.wasm_machine.specs.Instances.{store_in, Larger};

use crate::instance::Instance;
use crate::stack::{Values, pop, push};
use code_specs::TrapKind;
use std::alloc::{AllocError, Global};
use wasm_memory::Pool;

#[inline(always)]
fn access_width(op: u8) -> u8
    ensures { result ≡ width_of op }
{
    match op {
        0x28 | 0x34 | 0x35 | 0x36 | 0x3E => 4,
        0x29 | 0x37 => 8,
        0x2C | 0x2D | 0x30 | 0x31 | 0x3A | 0x3C => 1,
        _ => 2,
    }
}

// A number with its sign: where it is half of what there are or more, so much is added.
#[inline(always)]
fn extended(n: u64, half: u64, more: u64) -> u64
    requires { n + more < 2 ^ 64 }
    ensures { result ≡ (if nat_lt n half then n else n + more) }
{
    if n < half { n } else { n + more }
}

// What a load makes of the number with its bytes.
#[inline(always)]
fn signed_number(op: u8, n: u64) -> u64
    requires { n < 2 ^ (8 * width_of op) }
    ensures { result ≡ with_sign op n }
{
    match op {
        0x2C => extended(n, 0x80, 0xFFFF_FF00),
        0x2E => extended(n, 0x8000, 0xFFFF_0000),
        0x30 => extended(n, 0x80, 0xFFFF_FFFF_FFFF_FF00),
        0x32 => extended(n, 0x8000, 0xFFFF_FFFF_FFFF_0000),
        0x34 => extended(n, 0x8000_0000, 0xFFFF_FFFF_0000_0000),
        _ => n,
    }
}

#[inline(always)]
fn low_of(op: u8, n: u64) -> u64
    ensures { result ≡ n % 2 ^ width (loaded_type op) }
{
    if op == 0x29 || op >= 0x30 {
        n
    } else {
        n % 0x1_0000_0000
    }
}

/// A load, or the reason for a trap.
#[inline(always)]
pub(crate) fn load(
    values: &mut Values,
    instance: &Instance,
    pool: &Pool,
    op: u8,
    offset: u32,
) -> Option<TrapKind>
    requires op { is_access_op op ≡ true }
    requires load { is_load_op op ≡ true }
    requires there { values.old ≢ [] }
    requires memory { IsThere pool.now instance.now.memory }
    requires pages { instance.now.memory.pages ≤ 256 }
    requires room { length values.old ≤ 1048576 }
    ensures { (m : NestedModule) (l : Limits) (align : ℕ) → slice_get m.memories 0 ≡ Some l
        → effect_of bare m (Access op align offset) values.old (store_in pool.now instance.now) ≡ done result values.new (store_in pool.now instance.now) }
{
    let base = pop(values);
    if base > 0xFFFF_FFFF {
        return Some(TrapKind::Memory);
    }
    match instance
        .memory
        .load(pool, base as u32, offset, access_width(op))
    {
        None => Some(TrapKind::Memory),
        Some(n) => {
            push(values, low_of(op, signed_number(op, n)));
            None
        }
    }
}

/// A store, or the reason for a trap. It takes memory only where a page is shared.
#[inline(always)]
pub(crate) fn store(
    alloc: Global,
    values: &mut Values,
    instance: &mut Instance,
    pool: &mut Pool,
    op: u8,
    offset: u32,
) -> Result<Option<TrapKind>, AllocError>
    requires op { is_access_op op ≡ true }
    requires store { is_load_op op ≡ false }
    requires there { 2 ≤ length values.old }
    requires memory { IsThere pool.old instance.old.memory }
    requires pages { instance.old.memory.pages ≤ 256 }
    ensures done { (m : NestedModule) (l : Limits) (align : ℕ) → slice_get m.memories 0 ≡ Some l
        → IfOk result (λ t. effect_of bare m (Access op align offset) values.old (store_in pool.old instance.old) ≡ done t values.new (store_in pool.new instance.new)) }
    ensures trapped { IfOk result (λ t. IfSome t (λ _. store_in pool.new instance.new ≡ store_in pool.old instance.old)) }
    ensures memory { instance.new.memory ≡ instance.old.memory }
    ensures globals { instance.new.globals.items ≡ instance.old.globals.items }
    ensures table { instance.new.table.items ≡ instance.old.table.items }
    ensures still_there { IsThere pool.new instance.new.memory }
    ensures others { KeepsOthers pool.old pool.new instance.old.memory.table }
    ensures still_unshared { KeepsUnshared pool.old pool.new }
    ensures room { IsUnshared pool.old instance.old.memory.table → IsOk result }
{
    let n = pop(values);
    let base = pop(values);
    if base > 0xFFFF_FFFF {
        return Ok(Some(TrapKind::Memory));
    }
    let width = access_width(op);
    if instance
        .memory
        .store(alloc, pool, base as u32, offset, width, n)?
    {
        Ok(None)
    } else {
        Ok(Some(TrapKind::Memory))
    }
}

/// The size of the memory in pages.
#[inline(always)]
pub(crate) fn memory_size(values: &mut Values, instance: &Instance, pool: &Pool)
    requires memory { IsThere pool.now instance.now.memory }
    requires room { length values.old ≤ 1048576 }
    ensures { (m : NestedModule) (l : Limits) → slice_get m.memories 0 ≡ Some l
        → effect_of bare m MemorySize values.old (store_in pool.now instance.now) ≡ done None values.new (store_in pool.now instance.now) }
{
    push(values, u64::from(instance.memory.size()));
}

/// Grows the memory, where it may. It takes memory only where pages are added.
pub(crate) fn memory_grow(
    alloc: Global,
    values: &mut Values,
    instance: &mut Instance,
    pool: &mut Pool,
) -> Result<(), AllocError>
    requires there { values.old ≢ [] }
    requires memory { IsThere pool.old instance.old.memory }
    requires within { instance.old.memory.pages ≤ instance.old.memory.greatest }
    requires room { length values.old ≤ 1048576 }
    ensures done { (m : NestedModule) (l : Limits) → slice_get m.memories 0 ≡ Some l → instance.old.memory.greatest ≡ greatest_pages m
        → OnOk result (effect_of bare m MemoryGrow values.old (store_in pool.old instance.old) ≡ done None values.new (store_in pool.new instance.new)) }
    ensures larger { (m : NestedModule) (l : Limits) → slice_get m.memories 0 ≡ Some l → instance.old.memory.greatest ≡ greatest_pages m
        → OnErr result (Larger (length (bytes_in pool.old instance.old.memory)) (effect_of bare m MemoryGrow values.old (store_in pool.old instance.old))) }
    ensures within { instance.new.memory.pages ≤ instance.new.memory.greatest }
    ensures greatest { instance.new.memory.greatest ≡ instance.old.memory.greatest }
    ensures same_table { instance.new.memory.table ≡ instance.old.memory.table }
    ensures globals { instance.new.globals.items ≡ instance.old.globals.items }
    ensures table { instance.new.table.items ≡ instance.old.table.items }
    ensures still_there { IsThere pool.new instance.new.memory }
    ensures others { KeepsOthers pool.old pool.new instance.old.memory.table }
    ensures still_unshared { KeepsUnshared pool.old pool.new }
{
    let more = pop(values);
    if more == 0 {
        push(values, u64::from(instance.memory.size()));
        return Ok(());
    }
    if more > 0xFFFF_FFFF {
        push(values, 0xFFFF_FFFF);
        return Ok(());
    }
    match instance.memory.grow(alloc, pool, more as u32)? {
        Some(pages) => push(values, u64::from(pages)),
        None => push(values, 0xFFFF_FFFF),
    }
    Ok(())
}
