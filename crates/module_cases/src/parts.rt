//! Parts of modules as text.
use case_words::{Unanswered, told_bytes};
use std::alloc::Global;
use wasm_types::{Data, Element, Export, Func, FuncType, GlobalVar, Instr, Limits, ValType};

fn name_of(ty: ValType) -> &'static str {
    match ty {
        ValType::I32 => "i32",
        ValType::I64 => "i64",
    }
}

/// The types of a list, as `i32,i64`; a dash for none.
pub fn told_types(alloc: Global, types: &[ValType]) -> Result<String, Unanswered> {
    let mut text = String::new(alloc);
    for ty in types {
        if !text.is_empty() {
            text.push_str(",")?;
        }
        text.push_str(name_of(*ty))?;
    }
    if text.is_empty() {
        text.push_str("-")?;
    }
    Ok(text)
}

/// Numbers as `2,0,1`; a dash for none.
fn told_numbers(alloc: Global, numbers: &[u32]) -> Result<String, Unanswered> {
    let mut text = String::new(alloc);
    for number in numbers {
        if !text.is_empty() {
            text.push_str(",")?;
        }
        let digits = format!(in alloc; "{number}")?;
        text.push_str(&digits)?;
    }
    if text.is_empty() {
        text.push_str("-")?;
    }
    Ok(text)
}

/// The number, or a dash for none.
fn or_dash(alloc: Global, number: Option<u32>) -> Result<String, Unanswered> {
    match number {
        Some(number) => Ok(format!(in alloc; "{number}")?),
        None => Ok(String::from_str(alloc, "-")?),
    }
}

fn word(alloc: Global, word: &str) -> Result<String, Unanswered> {
    Ok(String::from_str(alloc, word)?)
}

/// What opens or closes a list: the type that it leaves, and the positions where it ends.
fn told_list(alloc: Global, instr: &Instr) -> Result<String, Unanswered> {
    match instr {
        Instr::Block { result, end } => {
            let leaves = result.map_or("-", name_of);
            Ok(format!(in alloc; "block:{leaves}:{end}")?)
        }
        Instr::Loop { result, end } => {
            let leaves = result.map_or("-", name_of);
            Ok(format!(in alloc; "loop:{leaves}:{end}")?)
        }
        Instr::If {
            result,
            else_at,
            end,
        } => {
            let leaves = result.map_or("-", name_of);
            let other = or_dash(alloc, *else_at)?;
            Ok(format!(in alloc; "if:{leaves}:{other}:{end}")?)
        }
        Instr::Else { end } => Ok(format!(in alloc; "else:{end}")?),
        _ => word(alloc, "end"),
    }
}

/// What leads elsewhere.
fn told_jump(alloc: Global, instr: &Instr) -> Result<String, Unanswered> {
    match instr {
        Instr::Br(label) => Ok(format!(in alloc; "br:{label}")?),
        Instr::BrIf(label) => Ok(format!(in alloc; "br_if:{label}")?),
        Instr::BrTable { labels, default } => {
            let labels = told_numbers(alloc, labels.as_slice())?;
            Ok(format!(in alloc; "br_table:{labels}:{default}")?)
        }
        Instr::Call(func) => Ok(format!(in alloc; "call:{func}")?),
        Instr::CallIndirect(ty) => Ok(format!(in alloc; "call_indirect:{ty}")?),
        Instr::Return => word(alloc, "return"),
        _ => word(alloc, "unreachable"),
    }
}

/// An instruction and its immediates; what goes by its opcode has it in hexadecimal.
fn told_instr(alloc: Global, instr: &Instr) -> Result<String, Unanswered> {
    match instr {
        Instr::Nop => word(alloc, "nop"),
        Instr::Drop => word(alloc, "drop"),
        Instr::Select => word(alloc, "select"),
        Instr::MemorySize => word(alloc, "memory.size"),
        Instr::MemoryGrow => word(alloc, "memory.grow"),
        Instr::Local { op, index } => Ok(format!(in alloc; "{op:x}:{index}")?),
        Instr::Globals { op, index } => Ok(format!(in alloc; "{op:x}:{index}")?),
        Instr::Access { op, align, offset } => Ok(format!(in alloc; "{op:x}:{align}:{offset}")?),
        Instr::I32Const(number) => Ok(format!(in alloc; "i32:{number}")?),
        Instr::I64Const(number) => Ok(format!(in alloc; "i64:{number}")?),
        Instr::Numeric(op) => Ok(format!(in alloc; "{op:x}")?),
        Instr::Block { .. }
        | Instr::Loop { .. }
        | Instr::If { .. }
        | Instr::Else { .. }
        | Instr::End => told_list(alloc, instr),
        _ => told_jump(alloc, instr),
    }
}

/// Flat code, an instruction a word.
pub fn told_code(alloc: Global, code: &[Instr]) -> Result<String, Unanswered> {
    let mut text = String::new(alloc);
    for instr in code {
        let part = told_instr(alloc, instr)?;
        text.push_str(" ")?;
        text.push_str(&part)?;
    }
    Ok(text)
}

/// The type of a function.
pub fn told_signature(alloc: Global, ty: &FuncType) -> Result<String, Unanswered> {
    let params = told_types(alloc, ty.params.as_slice())?;
    let results = told_types(alloc, ty.results.as_slice())?;
    Ok(format!(in alloc; "; type {params} to {results}")?)
}

/// A function: the index of its type, its locals and its code.
pub fn told_func(alloc: Global, func: &Func) -> Result<String, Unanswered> {
    let locals = told_types(alloc, func.locals.as_slice())?;
    let code = told_code(alloc, func.body.as_slice())?;
    let ty = func.ty;
    Ok(format!(in alloc; "; func {ty} locals {locals} code{code}")?)
}

/// The size of a table or a memory.
pub fn told_limits(alloc: Global, kind: &str, limits: &Limits) -> Result<String, Unanswered> {
    let min = limits.min;
    let max = or_dash(alloc, limits.max)?;
    Ok(format!(in alloc; "; {kind} {min} {max}")?)
}

/// A global variable.
pub fn told_global(alloc: Global, global: &GlobalVar) -> Result<String, Unanswered> {
    let kind = if global.mutable { "var" } else { "const" };
    let ty = name_of(global.ty);
    let value = global.init.value;
    Ok(format!(in alloc; "; global {kind} {ty} {value}")?)
}

/// An export, with its name in hexadecimal.
pub fn told_export(alloc: Global, export: &Export) -> Result<String, Unanswered> {
    let name = told_bytes(alloc, export.name.as_slice())?;
    let kind = export.kind;
    let index = export.index;
    Ok(format!(in alloc; "; export {name} {kind} {index}")?)
}

/// An element segment.
pub fn told_element(alloc: Global, element: &Element) -> Result<String, Unanswered> {
    let at = element.offset.value;
    let funcs = told_numbers(alloc, element.funcs.as_slice())?;
    Ok(format!(in alloc; "; elements {at} {funcs}")?)
}

/// A data segment.
pub fn told_data(alloc: Global, part: &Data) -> Result<String, Unanswered> {
    let at = part.offset.value;
    let bytes = told_bytes(alloc, part.bytes.as_slice())?;
    Ok(format!(in alloc; "; data {at} {bytes}")?)
}
