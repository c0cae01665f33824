//! Whole modules, measured and written.
ghost use Rattle.std.specs.Prelude.{◌≡◌, ◌<◌, ◌^◌, ◌++◌, ℕ, All, length, IfOk, OnOk};
ghost use Rattle.wasm_types.specs.Back.{nested_module};
ghost use Rattle.wasm_types.specs.declared.module.Func.{Func};
ghost use Rattle.wasm_writer.specs.ModuleTexts.{start_text, module_text};
ghost use Rattle.wasm_writer.specs.FlatTexts.{flat_sections_text};
ghost use Rattle.module_specs.specs.Spelled.{IsSpelled};

use crate::functions::{Body, Declared};
use crate::numbers::{number_len, write_number};
use crate::parts::{Entries, Exported, Memory, Segment, Signature, Table, Variable};
use crate::shape::{section_len, write_section};
use module_specs::SectionKind;
use std::alloc::{AllocError, Global};
use wasm_types::Module;

// The bytes of the header: 00 61 73 6D, and version 1.
const HEADER: [u8; 8] = [0x00, 0x61, 0x73, 0x6D, 0x01, 0x00, 0x00, 0x00];

// The bytes of the section of the function that runs first.
fn start_len(start: Option<u32>) -> usize
    ensures { result ≡ length (start_text start) }
{
    match start {
        None => 0,
        Some(func) => {
            let size = number_len(func as usize);
            1 + number_len(size) + size
        }
    }
}

fn write_start(alloc: Global, out: &mut Vec<u8>, start: Option<u32>) -> Result<(), AllocError>
    ensures { OnOk result (out.new.items ≡ out.old.items ++ start_text start) }
{
    match start {
        None => Ok(()),
        Some(func) => {
            out.push(8)?;
            write_number(alloc, out, number_len(func as usize))?;
            write_number(alloc, out, func as usize)
        }
    }
}

fn sections_len(parts: &Module) -> usize
    requires { length (flat_sections_text parts.now) < 2 ^ 32 }
    ensures { result ≡ length (flat_sections_text parts.now) }
{
    section_len::<Signature>(SectionKind::Type, parts.types.as_slice())
        + section_len::<Declared>(SectionKind::Function, parts.funcs.as_slice())
        + section_len::<Table>(SectionKind::Table, parts.tables.as_slice())
        + section_len::<Memory>(SectionKind::Memory, parts.memories.as_slice())
        + section_len::<Variable>(SectionKind::Global, parts.globals.as_slice())
        + section_len::<Exported>(SectionKind::Export, parts.exports.as_slice())
        + start_len(parts.start)
        + section_len::<Entries>(SectionKind::Element, parts.elements.as_slice())
        + section_len::<Body>(SectionKind::Code, parts.funcs.as_slice())
        + section_len::<Segment>(SectionKind::Data, parts.datas.as_slice())
}

fn write_sections(alloc: Global, out: &mut Vec<u8>, parts: &Module) -> Result<(), AllocError>
    requires small { length (flat_sections_text parts.now) < 2 ^ 32 }
    requires locals { All (λ (f : Func). length f.locals < 2 ^ 32) parts.now.funcs }
    ensures { OnOk result (out.new.items ≡ out.old.items ++ flat_sections_text parts.now) }
{
    write_section::<Signature>(alloc, out, SectionKind::Type, parts.types.as_slice())?;
    write_section::<Declared>(alloc, out, SectionKind::Function, parts.funcs.as_slice())?;
    write_section::<Table>(alloc, out, SectionKind::Table, parts.tables.as_slice())?;
    write_section::<Memory>(alloc, out, SectionKind::Memory, parts.memories.as_slice())?;
    write_section::<Variable>(alloc, out, SectionKind::Global, parts.globals.as_slice())?;
    write_section::<Exported>(alloc, out, SectionKind::Export, parts.exports.as_slice())?;
    write_start(alloc, out, parts.start)?;
    write_section::<Entries>(alloc, out, SectionKind::Element, parts.elements.as_slice())?;
    write_section::<Body>(alloc, out, SectionKind::Code, parts.funcs.as_slice())?;
    write_section::<Segment>(alloc, out, SectionKind::Data, parts.datas.as_slice())?;
    Ok(())
}

/// The bytes of a module's shortest spelling. Takes no memory.
pub fn shortest_len(parts: &Module) -> usize
    requires { IsSpelled parts.now }
    ensures { result ≡ length (module_text (nested_module parts.now)) }
{
    8 + sections_len(parts)
}

/// A module in its shortest spelling: numbers in their fewest bytes, locals in the longest runs of one type, no custom
/// sections and no empty sections.
pub fn write_module(alloc: Global, parts: &Module) -> Result<Vec<u8>, AllocError>
    requires { IsSpelled parts.now }
    ensures { IfOk result (λ bytes. bytes.items ≡ module_text (nested_module parts.now)) }
{
    let mut out = Vec::from_slice(alloc, &HEADER)?;
    write_sections(alloc, &mut out, parts)?;
    Ok(out)
}
