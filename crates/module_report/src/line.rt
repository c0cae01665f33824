//! The line on a module.
ghost use Rattle.std.specs.Prelude.{◌≡◌, ◌++◌, IfOk, OnOk, codes, decimal};
ghost use Rattle.wasm_types.specs.Modules.{NestedModule, flat_module};
ghost use Rattle.wasm_types.specs.Back.{nested_module};
ghost use Rattle.module_specs.specs.Spelled.{IsSpelled};
ghost use Rattle.module_report.specs.Line.{index_or_dash, module_line};

use itoa::Buffer;
use std::alloc::{AllocError, Global};
use wasm_types::Module;
use wasm_writer::shortest_len;

/// The line on a module, with its line feed.
pub(crate) fn line_of(alloc: Global, parts: &Module) -> Result<Vec<u8>, AllocError>
    requires { IsSpelled parts.now }
    ensures { IfOk result (λ line. line.items ≡ module_line (nested_module parts.now)) }
{
    let mut line = Vec::new(alloc);
    push_number(&mut line, b"types ", parts.types.as_slice().len())?;
    push_number(&mut line, b" funcs ", parts.funcs.as_slice().len())?;
    push_number(&mut line, b" tables ", parts.tables.as_slice().len())?;
    push_number(&mut line, b" memories ", parts.memories.as_slice().len())?;
    push_number(&mut line, b" globals ", parts.globals.as_slice().len())?;
    push_number(&mut line, b" exports ", parts.exports.as_slice().len())?;
    push_index(&mut line, b" start ", parts.start)?;
    push_number(&mut line, b" elems ", parts.elements.as_slice().len())?;
    push_number(&mut line, b" datas ", parts.datas.as_slice().len())?;
    push_number(&mut line, b" size ", shortest_len(parts))?;
    line.push(b'\n')?;
    Ok(line)
}

// A word and a number.
fn push_number(line: &mut Vec<u8>, word: &[u8], number: usize) -> Result<(), AllocError>
    ensures { OnOk result (line.new.items ≡ line.old.items ++ word.now ++ decimal number) }
{
    let mut digits = Buffer::new();
    line.extend_from_slice(word)?;
    line.extend_from_slice(digits.format(number).as_bytes())
}

// A word and an index, or a dash for none.
fn push_index(line: &mut Vec<u8>, word: &[u8], index: Option<u32>) -> Result<(), AllocError>
    ensures { OnOk result (line.new.items ≡ line.old.items ++ word.now ++ index_or_dash index) }
{
    match index {
        Some(index) => push_number(line, word, index as usize),
        None => {
            line.extend_from_slice(word)?;
            line.extend_from_slice(b"-")
        }
    }
}
