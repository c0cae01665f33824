//! Locals in the longest runs of one type, measured and written.
ghost use Rattle.std.specs.Prelude.{◌≡◌, ◌<◌, ◌≤◌, ◌^◌, ◌++◌, length, OnOk};
ghost use Rattle.wasm_writer.specs.Texts.{each_text};
ghost use Rattle.wasm_writer.specs.CodeTexts.{same_type, runs_of, run_text, locals_text};
ghost use Rattle.wasm_writer.specs.FlatTexts.{first_run};

use crate::code::type_byte;
use crate::numbers::{number_len, write_number};
use std::alloc::{AllocError, Global};
use wasm_types::ValType;

/// How many runs there are, and their bytes.
#[derive(Clone, Copy)]
pub struct Runs {
    count: usize,
    len: usize,
}

fn same_type(a: ValType, b: ValType) -> bool
    ensures { result ≡ same_type a b }
{
    a == b
}

// How many locals from a place on have one type.
fn first_run(locals: &[ValType]) -> usize
    ensures is { result ≡ first_run locals.now }
    ensures within { result ≤ length locals.now }
    ensures some { 0 < length locals.now → 0 < result }
{
    let mut n = 0;
    for local in locals {
        if !same_type(locals[0], *local) {
            return n;
        }
        n += 1;
    }
    n
}

/// The runs of locals.
pub fn count_runs(locals: &[ValType]) -> Runs
    requires { length (each_text run_text (runs_of locals.now)) < 2 ^ 32 }
    ensures count { result.count ≡ length (runs_of locals.now) }
    ensures len { result.len ≡ length (each_text run_text (runs_of locals.now)) }
{
    let mut count = 0;
    let mut len = 0;
    let mut at = 0;
    while at < locals.len() {
        let n = first_run(&locals[at..]);
        len += number_len(n) + 1;
        count += 1;
        at += n;
    }
    Runs { count, len }
}

/// The bytes of locals.
pub fn locals_len(locals: &[ValType]) -> usize
    requires { length (locals_text locals.now) < 2 ^ 32 }
    ensures { result ≡ length (locals_text locals.now) }
{
    let runs = count_runs(locals);
    number_len(runs.count) + runs.len
}

fn write_runs(alloc: Global, out: &mut Vec<u8>, locals: &[ValType]) -> Result<(), AllocError>
    requires { length locals.now < 2 ^ 32 }
    ensures { OnOk result (out.new.items ≡ out.old.items ++ each_text run_text (runs_of locals.now)) }
{
    let mut at = 0;
    while at < locals.len() {
        let n = first_run(&locals[at..]);
        write_number(alloc, out, n)?;
        out.push(type_byte(locals[at]))?;
        at += n;
    }
    Ok(())
}

/// Appends locals.
pub fn write_locals(alloc: Global, out: &mut Vec<u8>, locals: &[ValType]) -> Result<(), AllocError>
    requires small { length (locals_text locals.now) < 2 ^ 32 }
    requires few { length locals.now < 2 ^ 32 }
    ensures { OnOk result (out.new.items ≡ out.old.items ++ locals_text locals.now) }
{
    write_number(alloc, out, count_runs(locals).count)?;
    write_runs(alloc, out, locals)
}
