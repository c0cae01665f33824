//! Modules: header, sections and what they make.
ghost use Rattle.std.specs.Prelude.{◌≡◌, ◌≤◌, ◌<◌, length, true, false, IfOk, Ok};
ghost use Rattle.wasm_types.specs.Modules.{NestedModule, flat_module};
ghost use Rattle.module_specs.specs.ModuleSpelling.{SpellsModule, start, magic, version};
ghost use Rattle.module_specs.specs.Reading.{Gives};
ghost use Rattle.module_specs.specs.ModuleReading.{sections_at, rest_at, differs, module_read};
ghost use Rattle.wasm_reader.specs.Outcome.{outcome_of, Returns};
ghost use Rattle.wasm_reader.specs.Flat.{nothing, ends_in, finished, flat_whole};

use crate::content::{Sofar, read_section};
use crate::error::{ReadError, read_error};
use module_specs::Fault;
use std::alloc::Global;
use std::cmp::min;
use wasm_types::Module;

const MOST_BYTES: usize = 4194304;

const MAGIC: [u8; 4] = [0x00, 0x61, 0x73, 0x6D];

const VERSION: [u8; 4] = [0x01, 0x00, 0x00, 0x00];

// Sections up to the end.
fn read_sections(alloc: Global, bytes: &[u8], at: usize) -> Result<Sofar, Fault>
    requires { at ≤ length bytes.now }
    ensures { Gives (λ p. p) result (ends_in nothing (sections_at (length bytes.now) start bytes.now at)) }
{
    let mut sofar = Sofar::new(alloc);
    let mut place = at;
    for _ in 0..bytes.len() {
        if place >= bytes.len() {
            return Ok(sofar);
        }
        let (part, next) = read_section(alloc, &sofar, bytes, place)?;
        sofar.put(part);
        place = next;
    }
    Ok(sofar)
}

fn finish(sofar: Sofar, end: usize) -> Result<Module, Fault>
    ensures { result ≡ finished end sofar }
{
    if sofar.made.funcs.as_slice().len() != sofar.indices.as_slice().len() {
        return Err(Fault::Count(end));
    }
    Ok(sofar.made)
}

// What stands behind the header.
fn read_rest(alloc: Global, bytes: &[u8], at: usize) -> Result<Module, Fault>
    requires { at ≤ length bytes.now }
    ensures { Gives (λ m. m) result (flat_whole (rest_at bytes.now at)) }
{
    let sofar = read_sections(alloc, bytes, at)?;
    finish(sofar, bytes.len())
}

// Whether the four bytes at a place are others than these, or fewer.
fn differs(bytes: &[u8], at: usize, these: &[u8]) -> bool
    requires { at ≤ length bytes.now }
    ensures { result ≡ differs bytes.now at these.now }
{
    let rest = &bytes[at..];
    let four = &rest[..min(4, rest.len())];
    four != these
}

#[tactic(auto, unfolding(module_specs::specs::ModuleReading::module_read))]
fn read_file(alloc: Global, bytes: &[u8]) -> Result<Module, Fault>
    ensures is { Gives (λ m. m) result (flat_whole (module_read bytes.now)) }
    ensures sized { 4194304 < length bytes.now → result ≡ Err (Fault.Size 4194304) }
    ensures other_magic { length bytes.now ≤ 4194304 → differs bytes.now 0 magic ≡ true → result ≡ Err (Fault.Magic 0) }
    ensures other_version { length bytes.now ≤ 4194304 → differs bytes.now 0 magic ≡ false → differs bytes.now 4 version ≡ true
        → result ≡ Err (Fault.Version 4) }
{
    if bytes.len() > MOST_BYTES {
        return Err(Fault::Size(MOST_BYTES));
    }
    if differs(bytes, 0, &MAGIC) {
        return Err(Fault::Magic(0));
    }
    if differs(bytes, 4, &VERSION) {
        return Err(Fault::Version(4));
    }
    read_rest(alloc, bytes, 8)
}

/// Reads the bytes of a file as a module, from left to right: the module with the flat form of each function, or the
/// first item that can't be read. The binary format is that of WebAssembly Core 1.0, section 5, without floats and
/// imports; a file has at most 4 MiB. Whether the module is valid is not looked at.
pub fn read_module(alloc: Global, bytes: &[u8]) -> Result<Module, ReadError>
    // What is read is the flat form of a module that the bytes spell.
    ensures found { IfOk result (λ read. (m : NestedModule) × (read ≡ flat_module m) × SpellsModule m bytes.now) }
    // What the bytes spell is read, unless memory runs out.
    ensures only { (m : NestedModule) → SpellsModule m bytes.now → Returns result (Ok (flat_module m)) }
    // Which fault it is.
    ensures exact { Returns result (outcome_of (module_read bytes.now)) }
    // The header is read without memory: what is wrong with it is always named.
    ensures sized { 4194304 < length bytes.now → result ≡ Err (ReadError.Size 4194304) }
    ensures other_magic { length bytes.now ≤ 4194304 → differs bytes.now 0 magic ≡ true → result ≡ Err (ReadError.Magic 0) }
    ensures other_version { length bytes.now ≤ 4194304 → differs bytes.now 0 magic ≡ false → differs bytes.now 4 version ≡ true
        → result ≡ Err (ReadError.Version 4) }
{
    match read_file(alloc, bytes) {
        Ok(read) => Ok(read),
        Err(fault) => Err(read_error(fault)),
    }
}
