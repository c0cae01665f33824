//! Sections: id, size and content, and what was read so far.
ghost use Rattle.std.specs.Prelude.{◌≡◌, ◌≤◌, ◌<◌, length, IfOk};
ghost use Rattle.module_specs.specs.ModuleSpelling.{id_byte};
ghost use Rattle.module_specs.specs.Reading.{Gives, sized_at};
ghost use Rattle.module_specs.specs.ModuleReading.{custom_at, imports_at, section_content_at, kind_of_id, falls, section_at};
ghost use Rattle.module_specs.specs.declared.fault.Fault.TheVariants.{Short, Size};
ghost use Rattle.module_specs.specs.declared.section.SectionKind.TheVariants.{Export};
ghost use Rattle.wasm_reader.specs.Flat.{flat_part, before_of, with_part, nothing};

use crate::bodies::read_codes;
use crate::items::{indices, name};
use crate::segments::{datas, elements, exports, globals};
use crate::types::{func_types, memories, tables};
use module_specs::{Fault, SectionKind};
use std::alloc::Global;
use wasm_code::{byte, number};
use wasm_types::{
    Datas, Elements, Exports, FuncTypes, Funcs, Globals, Indices, LimitsList, Module,
};

/// What a section holds.
#[derive(Drop)]
pub enum Part {
    /// A name, and bytes that are left unread; neither is kept.
    Custom,
    /// Function types.
    Types(FuncTypes),
    /// No imports.
    Imports,
    /// The functions' type indices.
    Funcs(Indices),
    /// Tables.
    Tables(LimitsList),
    /// Memories.
    Memories(LimitsList),
    /// Globals.
    Globals(Globals),
    /// Exports.
    Exports(Exports),
    /// The function that runs first.
    Start(u32),
    /// Element segments.
    Elements(Elements),
    /// The functions, with their bodies.
    Codes(Funcs),
    /// Data segments.
    Datas(Datas),
}

/// What was read so far.
#[derive(Drop)]
pub struct Sofar {
    /// The kind of the last section that isn't custom, or Custom if there was none.
    last: SectionKind,
    /// The type indices of the functions.
    pub indices: Indices,
    /// What the sections put into the module.
    pub made: Module,
}

impl Sofar {
    /// Nothing.
    pub fn new(alloc: Global) -> Sofar
        ensures { result ≡ nothing }
    {
        Sofar {
            last: SectionKind::Custom,
            indices: Indices::of(Vec::new(alloc)),
            made: Module {
                types: FuncTypes::of(Vec::new(alloc)),
                funcs: Funcs::of(Vec::new(alloc)),
                tables: LimitsList::of(Vec::new(alloc)),
                memories: LimitsList::of(Vec::new(alloc)),
                globals: Globals::of(Vec::new(alloc)),
                exports: Exports::of(Vec::new(alloc)),
                start: None,
                elements: Elements::of(Vec::new(alloc)),
                datas: Datas::of(Vec::new(alloc)),
            },
        }
    }

    // The section counts as the last one, unless it is custom.
    fn pass(&mut self, part: &Part)
        ensures { self.new ≡ record self.old { last = (with_part part.now self.old).last } }
    {
        match part {
            Part::Custom => {}
            Part::Types(_) => self.last = SectionKind::Type,
            Part::Imports => self.last = SectionKind::Import,
            Part::Funcs(_) => self.last = SectionKind::Function,
            Part::Tables(_) => self.last = SectionKind::Table,
            Part::Memories(_) => self.last = SectionKind::Memory,
            Part::Globals(_) => self.last = SectionKind::Global,
            Part::Exports(_) => self.last = SectionKind::Export,
            Part::Start(_) => self.last = SectionKind::Start,
            Part::Elements(_) => self.last = SectionKind::Element,
            Part::Codes(_) => self.last = SectionKind::Code,
            Part::Datas(_) => self.last = SectionKind::Data,
        }
    }

    /// Puts a section in.
    pub fn put(&mut self, part: Part)
        ensures { self.new ≡ with_part part self.old }
    {
        self.pass(&part);
        match part {
            Part::Custom => {}
            Part::Types(types) => self.made.types = types,
            Part::Imports => {}
            Part::Funcs(indices) => self.indices = indices,
            Part::Tables(tables) => self.made.tables = tables,
            Part::Memories(memories) => self.made.memories = memories,
            Part::Globals(globals) => self.made.globals = globals,
            Part::Exports(exports) => self.made.exports = exports,
            Part::Start(func) => self.made.start = Some(func),
            Part::Elements(elements) => self.made.elements = elements,
            Part::Codes(funcs) => self.made.funcs = funcs,
            Part::Datas(datas) => self.made.datas = datas,
        }
    }
}

fn kind_of_id(id: u8) -> Option<SectionKind>
    ensures { result ≡ kind_of_id id }
{
    match id {
        0 => Some(SectionKind::Custom),
        1 => Some(SectionKind::Type),
        2 => Some(SectionKind::Import),
        3 => Some(SectionKind::Function),
        4 => Some(SectionKind::Table),
        5 => Some(SectionKind::Memory),
        6 => Some(SectionKind::Global),
        7 => Some(SectionKind::Export),
        8 => Some(SectionKind::Start),
        9 => Some(SectionKind::Element),
        10 => Some(SectionKind::Code),
        11 => Some(SectionKind::Data),
        _ => None,
    }
}

fn id_byte(kind: SectionKind) -> u8
    ensures { result ≡ id_byte kind }
{
    match kind {
        SectionKind::Custom => 0,
        SectionKind::Type => 1,
        SectionKind::Import => 2,
        SectionKind::Function => 3,
        SectionKind::Table => 4,
        SectionKind::Memory => 5,
        SectionKind::Global => 6,
        SectionKind::Export => 7,
        SectionKind::Start => 8,
        SectionKind::Element => 9,
        SectionKind::Code => 10,
        SectionKind::Data => 11,
    }
}

// Whether a section may not stand behind one of the last kind.
#[tactic(auto, using(crate::proofs::Rest::falls_is))]
fn falls(last: SectionKind, kind: SectionKind) -> bool
    ensures { result ≡ falls (id_byte last) kind }
{
    let id = id_byte(kind);
    0 < id && id <= id_byte(last)
}

#[tactic(auto, unfolding(module_specs::specs::ModuleReading::custom_at))]
fn custom(alloc: Global, bytes: &[u8], at: usize) -> Result<(Part, usize), Fault>
    requires { at ≤ length bytes.now }
    ensures next { IfOk result (λ p. p.1 ≤ length bytes.now) }
    ensures is { Gives (λ p. p) result (flat_part (custom_at bytes.now at)) }
{
    name(alloc, bytes, at)?;
    Ok((Part::Custom, bytes.len()))
}

#[tactic(auto, unfolding(module_specs::specs::ModuleReading::imports_at))]
fn imports(id: usize, bytes: &[u8], at: usize) -> Result<(Part, usize), Fault>
    requires { at ≤ length bytes.now }
    ensures next { IfOk result (λ p. p.1 ≤ length bytes.now) }
    ensures is { result ≡ flat_part (imports_at id bytes.now at) }
{
    let (count, next) = number(bytes, at)?;
    if count > 0 {
        return Err(Fault::Import(id));
    }
    Ok((Part::Imports, next))
}

// The content of a section from the exports on.
fn read_later(
    alloc: Global,
    sofar: &Sofar,
    id: usize,
    kind: SectionKind,
    bytes: &[u8],
    at: usize,
) -> Result<(Part, usize), Fault>
    requires within { at ≤ length bytes.now }
    requires later { id_byte Export ≤ id_byte kind }
    ensures next { IfOk result (λ p. p.1 ≤ length bytes.now) }
    ensures is { Gives (λ p. p) result (flat_part (section_content_at (before_of sofar.now) id kind bytes.now at)) }
{
    match kind {
        SectionKind::Export => {
            let (exports, next) = exports(alloc, bytes, at)?;
            Ok((Part::Exports(Exports::of(exports)), next))
        }
        SectionKind::Start => {
            let (func, next) = number(bytes, at)?;
            Ok((Part::Start(func), next))
        }
        SectionKind::Element => {
            let (elements, next) = elements(alloc, bytes, at)?;
            Ok((Part::Elements(Elements::of(elements)), next))
        }
        SectionKind::Code => {
            let (funcs, next) = read_codes(alloc, id, sofar.indices.as_slice(), bytes, at)?;
            Ok((Part::Codes(Funcs::of(funcs)), next))
        }
        SectionKind::Data => {
            let (datas, next) = datas(alloc, bytes, at)?;
            Ok((Part::Datas(Datas::of(datas)), next))
        }
        _ => unreachable!(),
    }
}

// The content of a section of this kind, whose id byte stands at `id`.
fn read_content(
    alloc: Global,
    sofar: &Sofar,
    id: usize,
    kind: SectionKind,
    bytes: &[u8],
    at: usize,
) -> Result<(Part, usize), Fault>
    requires { at ≤ length bytes.now }
    ensures next { IfOk result (λ p. p.1 ≤ length bytes.now) }
    ensures is { Gives (λ p. p) result (flat_part (section_content_at (before_of sofar.now) id kind bytes.now at)) }
{
    match kind {
        SectionKind::Custom => custom(alloc, bytes, at),
        SectionKind::Import => imports(id, bytes, at),
        SectionKind::Type => {
            let (types, next) = func_types(alloc, bytes, at)?;
            Ok((Part::Types(FuncTypes::of(types)), next))
        }
        SectionKind::Function => {
            let (indices, next) = indices(alloc, bytes, at)?;
            Ok((Part::Funcs(Indices::of(indices)), next))
        }
        SectionKind::Table => {
            let (tables, next) = tables(alloc, bytes, at)?;
            Ok((Part::Tables(LimitsList::of(tables)), next))
        }
        SectionKind::Memory => {
            let (memories, next) = memories(alloc, bytes, at)?;
            Ok((Part::Memories(LimitsList::of(memories)), next))
        }
        SectionKind::Global => {
            let (globals, next) = globals(alloc, bytes, at)?;
            Ok((Part::Globals(Globals::of(globals)), next))
        }
        _ => read_later(alloc, sofar, id, kind, bytes, at),
    }
}

// From its size on.
#[tactic(auto, unfolding(module_specs::specs::Reading::sized_at))]
fn read_sized(
    alloc: Global,
    sofar: &Sofar,
    id: usize,
    kind: SectionKind,
    bytes: &[u8],
    at: usize,
) -> Result<(Part, usize), Fault>
    requires { at ≤ length bytes.now }
    ensures next { IfOk result (λ p. p.1 ≤ length bytes.now) }
    ensures is { Gives (λ p. p) result
        (flat_part (sized_at (λ end. Short end) (Size id) (section_content_at (before_of sofar.now) id kind) bytes.now at)) }
{
    let (size, next) = number(bytes, at)?;
    let size = size as usize;
    if bytes.len() - next < size {
        return Err(Fault::Short(next + size));
    }
    let end = next + size;
    let (part, next) = read_content(alloc, sofar, id, kind, &bytes[..end], next)?;
    if next < end {
        return Err(Fault::Size(id));
    }
    Ok((part, next))
}

/// The section at a place, behind what was read so far.
#[tactic(auto, unfolding(module_specs::specs::ModuleReading::section_at))]
pub fn read_section(
    alloc: Global,
    sofar: &Sofar,
    bytes: &[u8],
    at: usize,
) -> Result<(Part, usize), Fault>
    requires { at ≤ length bytes.now }
    ensures next { IfOk result (λ p. p.1 ≤ length bytes.now) }
    ensures is { Gives (λ p. p) result (flat_part (section_at (before_of sofar.now) bytes.now at)) }
{
    let (id, next) = byte(bytes, at)?;
    let Some(kind) = kind_of_id(id) else {
        return Err(Fault::Section(at));
    };
    if falls(sofar.last, kind) {
        return Err(Fault::Order(at));
    }
    read_sized(alloc, sofar, at, kind, bytes, next)
}
