//! Modules that are built part by part.
ghost use Rattle.std.specs.Prelude.{◌≡◌, IfOk};
ghost use Rattle.wasm_types.specs.Modules.{flat_module};
ghost use Rattle.wasm_writer.specs.Worked.{load_module};

use crate::modules::told_parts;
use case_words::{Unanswered, told_bytes};
use std::alloc::{AllocError, Global};
use wasm_types::{Instr, Module, ValType};
use wasm_writer::{ModuleBuilder, shortest_len, write_module};

/// A function with an i32.load at its argument, exported as "f", and one page of memory.
fn load_module(alloc: Global) -> Result<Module, AllocError>
    ensures { IfOk result (λ m. m ≡ flat_module load_module) }
{
    let mut builder = ModuleBuilder::new(alloc);
    let ty = builder.ty(alloc, &[ValType::I32], &[ValType::I32])?;
    let body = vec![in alloc;
        Instr::Local { op: 0x20, index: 0 },
        Instr::Access {
            op: 0x28,
            align: 2,
            offset: 0
        },
        Instr::End,
    ]?;
    let func = builder.func(alloc, ty, &[], body)?;
    builder.memory(alloc, 1, None)?;
    builder.export(alloc, b"f", 0, func)?;
    Ok(builder.finish())
}

/// That module, measured and written.
fn load(alloc: Global) -> Result<String, Unanswered> {
    let parts = load_module(alloc)?;
    let len = shortest_len(&parts);
    let bytes = write_module(alloc, &parts)?;
    let text = told_bytes(alloc, &bytes)?;
    Ok(format!(in alloc; "{len} bytes {text}")?)
}

/// Two globals with their positions, and bytes at an address.
fn variables(alloc: Global) -> Result<String, Unanswered> {
    let mut builder = ModuleBuilder::new(alloc);
    let first = builder.global(alloc, ValType::I64, true, u64::MAX)?;
    let second = builder.global(alloc, ValType::I32, false, 7)?;
    builder.segment(alloc, 16, &[1, 2])?;
    let parts = told_parts(alloc, &builder.finish())?;
    Ok(format!(in alloc; "globals {first} and {second} of {parts}")?)
}

/// A module by its name.
pub fn build(alloc: Global, rest: &str) -> Result<String, Unanswered> {
    match rest {
        "load" => load(alloc),
        "variables" => variables(alloc),
        _ => Err(Unanswered::Unknown),
    }
}
