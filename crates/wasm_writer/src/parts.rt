//! The parts of a module but its code, measured and written.
ghost use Rattle.std.specs.Prelude.{◌≡◌, ◌<◌, ◌^◌, ◌%◌, ◌++◌, Option, length, OnOk};
ghost use Rattle.std.specs.Int.{cast_signed, w32, w64};
ghost use Rattle.std.proofs.Common.{rules};
ghost use Rattle.leb_bytes.specs.Writing.{unsigned_text};
ghost use Rattle.module_specs.specs.ModuleSpelling.{mutable_byte};
ghost use Rattle.wasm_writer.specs.Sizes.{unsigned_some, export_some};
ghost use Rattle.wasm_writer.specs.Texts.{sized_text, type_text};
ghost use Rattle.wasm_writer.specs.ModuleTexts.{func_type_text, sizes_text, memory_text, table_text, value_text, constant_text, global_text, export_text, element_text, data_text};

use crate::code::type_byte;
use crate::numbers::{number_len, signed_len, write_number};
use crate::shape::{Shape, vector_len, write_vector};
use leb_bytes::{write_s32, write_s64};
use std::alloc::{AllocError, Global};
use wasm_types::{Constant, Data, Element, Export, FuncType, GlobalVar, Limits, ValType};

/// Indices, as of a branch table or an element segment.
pub struct Index;

impl Shape for Index {
    type Item = u32;

    ghost text = { unsigned_text };

    ghost fits = { λ _. Unit {0} };

    fn len(item: &u32) -> usize {
        number_len(*item as usize)
    }

    fn write(alloc: Global, out: &mut Vec<u8>, item: &u32) -> Result<(), AllocError> {
        write_number(alloc, out, *item as usize)
    }

    ghost takes_bytes = { unsigned_some };
}

/// Value types.
pub struct Type;

impl Shape for Type {
    type Item = ValType;

    ghost text = { type_text };

    ghost fits = { λ _. Unit {0} };

    fn len(_item: &ValType) -> usize {
        1
    }

    fn write(_alloc: Global, out: &mut Vec<u8>, item: &ValType) -> Result<(), AllocError> {
        out.push(type_byte(*item))?;
        Ok(())
    }

    ghost takes_bytes = { Prim.search rules };
}

/// Function types.
pub struct Signature;

impl Shape for Signature {
    type Item = FuncType;

    ghost text = { func_type_text };

    ghost fits = { λ _. Unit {0} };

    fn len(item: &FuncType) -> usize {
        1 + vector_len::<Type>(item.params.as_slice()) + vector_len::<Type>(item.results.as_slice())
    }

    fn write(alloc: Global, out: &mut Vec<u8>, item: &FuncType) -> Result<(), AllocError> {
        out.push(0x60)?;
        write_vector::<Type>(alloc, out, item.params.as_slice())?;
        write_vector::<Type>(alloc, out, item.results.as_slice())
    }

    ghost takes_bytes = { Prim.search rules };
}

fn sizes_len(limits: &Limits) -> usize
    ensures { result ≡ length (sizes_text limits.now.min limits.now.max) }
{
    match limits.max {
        None => 1 + number_len(limits.min as usize),
        Some(max) => 1 + number_len(limits.min as usize) + number_len(max as usize),
    }
}

fn write_sizes(alloc: Global, out: &mut Vec<u8>, limits: &Limits) -> Result<(), AllocError>
    ensures { OnOk result (out.new.items ≡ out.old.items ++ sizes_text limits.now.min limits.now.max) }
{
    match limits.max {
        None => {
            out.push(0x00)?;
            write_number(alloc, out, limits.min as usize)
        }
        Some(max) => {
            out.push(0x01)?;
            write_number(alloc, out, limits.min as usize)?;
            write_number(alloc, out, max as usize)
        }
    }
}

/// Tables.
pub struct Table;

impl Shape for Table {
    type Item = Limits;

    ghost text = { table_text };

    ghost fits = { λ _. Unit {0} };

    fn len(item: &Limits) -> usize {
        1 + sizes_len(item)
    }

    fn write(alloc: Global, out: &mut Vec<u8>, item: &Limits) -> Result<(), AllocError> {
        out.push(0x70)?;
        write_sizes(alloc, out, item)
    }

    ghost takes_bytes = { Prim.search rules };
}

/// Memories.
pub struct Memory;

impl Shape for Memory {
    type Item = Limits;

    ghost text = { memory_text };

    ghost fits = { λ _. Unit {0} };

    fn len(item: &Limits) -> usize {
        sizes_len(item)
    }

    fn write(alloc: Global, out: &mut Vec<u8>, item: &Limits) -> Result<(), AllocError> {
        write_sizes(alloc, out, item)
    }

    ghost takes_bytes = { Prim.search rules };
}

// An i32 lies in the low 32 bits.
fn low_signed(bits: u64) -> i32
    ensures { result ≡ cast_signed w32 (bits % 2 ^ 32) }
{
    ((bits % (1 << 32)) as u32).cast_signed()
}

fn value_len(ty: ValType, bits: u64) -> usize
    ensures is { result ≡ length (value_text ty bits) }
    ensures few { result < 12 }
{
    match ty {
        ValType::I32 => 1 + signed_len(low_signed(bits) as i64),
        ValType::I64 => 1 + signed_len(bits.cast_signed()),
    }
}

fn write_value(alloc: Global, out: &mut Vec<u8>, ty: ValType, bits: u64) -> Result<(), AllocError>
    ensures { OnOk result (out.new.items ≡ out.old.items ++ value_text ty bits) }
{
    match ty {
        ValType::I32 => {
            out.push(0x41)?;
            write_s32(alloc, out, low_signed(bits))
        }
        ValType::I64 => {
            out.push(0x42)?;
            write_s64(alloc, out, bits.cast_signed())
        }
    }
}

fn constant_len(constant: Constant) -> usize
    ensures is { result ≡ length (constant_text constant) }
    ensures few { result < 13 }
{
    value_len(constant.ty, constant.value) + 1
}

fn write_constant(alloc: Global, out: &mut Vec<u8>, constant: Constant) -> Result<(), AllocError>
    ensures { OnOk result (out.new.items ≡ out.old.items ++ constant_text constant) }
{
    write_value(alloc, out, constant.ty, constant.value)?;
    out.push(0x0B)?;
    Ok(())
}

fn mutable_byte(mutable: bool) -> u8
    ensures { result ≡ mutable_byte mutable }
{
    if mutable { 1 } else { 0 }
}

/// Global variables.
pub struct Variable;

impl Shape for Variable {
    type Item = GlobalVar;

    ghost text = { global_text };

    ghost fits = { λ _. Unit {0} };

    fn len(item: &GlobalVar) -> usize {
        2 + constant_len(item.init)
    }

    fn write(alloc: Global, out: &mut Vec<u8>, item: &GlobalVar) -> Result<(), AllocError> {
        out.push(type_byte(item.ty))?;
        out.push(mutable_byte(item.mutable))?;
        write_constant(alloc, out, item.init)
    }

    ghost takes_bytes = { Prim.search rules };
}

/// The bytes of bytes behind their number.
pub fn bytes_len(bytes: &[u8]) -> usize
    requires { length (sized_text bytes.now) < 2 ^ 32 }
    ensures { result ≡ length (sized_text bytes.now) }
{
    number_len(bytes.len()) + bytes.len()
}

/// Appends bytes behind their number.
pub fn write_bytes(alloc: Global, out: &mut Vec<u8>, bytes: &[u8]) -> Result<(), AllocError>
    requires { length (sized_text bytes.now) < 2 ^ 32 }
    ensures { OnOk result (out.new.items ≡ out.old.items ++ sized_text bytes.now) }
{
    write_number(alloc, out, bytes.len())?;
    out.extend_from_slice(bytes)
}

/// Exports.
pub struct Exported;

impl Shape for Exported {
    type Item = Export;

    ghost text = { export_text };

    ghost fits = { λ _. Unit {0} };

    fn len(item: &Export) -> usize {
        bytes_len(item.name.as_slice()) + 1 + number_len(item.index as usize)
    }

    fn write(alloc: Global, out: &mut Vec<u8>, item: &Export) -> Result<(), AllocError> {
        write_bytes(alloc, out, item.name.as_slice())?;
        out.push(item.kind)?;
        write_number(alloc, out, item.index as usize)
    }

    ghost takes_bytes = { export_some };
}

/// Element segments.
pub struct Entries;

impl Shape for Entries {
    type Item = Element;

    ghost text = { element_text };

    ghost fits = { λ _. Unit {0} };

    fn len(item: &Element) -> usize {
        1 + constant_len(item.offset) + vector_len::<Index>(item.funcs.as_slice())
    }

    fn write(alloc: Global, out: &mut Vec<u8>, item: &Element) -> Result<(), AllocError> {
        out.push(0)?;
        write_constant(alloc, out, item.offset)?;
        write_vector::<Index>(alloc, out, item.funcs.as_slice())
    }

    ghost takes_bytes = { Prim.search rules };
}

/// Data segments.
pub struct Segment;

impl Shape for Segment {
    type Item = Data;

    ghost text = { data_text };

    ghost fits = { λ _. Unit {0} };

    fn len(item: &Data) -> usize {
        1 + constant_len(item.offset) + bytes_len(item.bytes.as_slice())
    }

    fn write(alloc: Global, out: &mut Vec<u8>, item: &Data) -> Result<(), AllocError> {
        out.push(0)?;
        write_constant(alloc, out, item.offset)?;
        write_bytes(alloc, out, item.bytes.as_slice())
    }

    ghost takes_bytes = { Prim.search rules };
}
