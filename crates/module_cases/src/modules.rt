//! Whole modules: read, checked, written, reported and called.
use crate::parts::{
    told_data, told_element, told_export, told_func, told_global, told_limits, told_signature,
};
use call_run::{CallError, call_report};
use call_specs::CallFault;
use case_words::{Unanswered, bytes_of, cut, long, told_bytes};
use code_specs::Misfit;
use module_report::{ReportError, module_report, read_checked};
use std::alloc::{AllocError, Global};
use wasm_reader::{ReadError, read_module};
use wasm_types::{Func, Limits, Module};
use wasm_validate::{Invalid, Rule};
use wasm_writer::{shortest_len, write_module};

/// The name of a fault, and its place.
fn fault(alloc: Global, error: ReadError) -> Result<String, Unanswered> {
    let (name, at) = match error {
        ReadError::Short(at) => ("Short", at),
        ReadError::Size(at) => ("Size", at),
        ReadError::Magic(at) => ("Magic", at),
        ReadError::Version(at) => ("Version", at),
        ReadError::Section(at) => ("Section", at),
        ReadError::Order(at) => ("Order", at),
        ReadError::Number(at) => ("Number", at),
        ReadError::Import(at) => ("Import", at),
        ReadError::Float(at) => ("Float", at),
        ReadError::Form(at) => ("Form", at),
        ReadError::Utf8(at) => ("Utf8", at),
        ReadError::Opcode(at) => ("Opcode", at),
        ReadError::Nesting(at) => ("Nesting", at),
        ReadError::Count(at) => ("Count", at),
        ReadError::Limit(at) => ("Limit", at),
        ReadError::Memory => return Err(Unanswered::Memory),
    };
    Ok(format!(in alloc; "{name} {at}")?)
}

fn push_count(
    alloc: Global,
    text: &mut String,
    name: &str,
    count: usize,
) -> Result<(), Unanswered> {
    if count > 0 {
        let part = format!(in alloc; " {name} {count}")?;
        text.push_str(&part)?;
    }
    Ok(())
}

/// How many there are of each kind, if there are any.
fn counts_of(alloc: Global, module: &Module) -> Result<String, Unanswered> {
    let mut text = String::new(alloc);
    let start = if module.start.is_some() { 1 } else { 0 };
    push_count(alloc, &mut text, "types", module.types.as_slice().len())?;
    push_count(alloc, &mut text, "functions", module.funcs.as_slice().len())?;
    push_count(alloc, &mut text, "tables", module.tables.as_slice().len())?;
    push_count(
        alloc,
        &mut text,
        "memories",
        module.memories.as_slice().len(),
    )?;
    push_count(alloc, &mut text, "globals", module.globals.as_slice().len())?;
    push_count(alloc, &mut text, "exports", module.exports.as_slice().len())?;
    push_count(alloc, &mut text, "start", start)?;
    push_count(
        alloc,
        &mut text,
        "elements",
        module.elements.as_slice().len(),
    )?;
    push_count(alloc, &mut text, "segments", module.datas.as_slice().len())?;
    Ok(text)
}

/// The locals and the instructions of each body.
fn push_bodies(alloc: Global, text: &mut String, funcs: &[Func]) -> Result<(), Unanswered> {
    if !funcs.is_empty() {
        text.push_str(" bodies")?;
    }
    for func in funcs {
        let locals = func.locals.as_slice().len();
        let instrs = func.body.as_slice().len();
        let part = format!(in alloc; " {locals}:{instrs}")?;
        text.push_str(&part)?;
    }
    Ok(())
}

/// How many parts a module has, and of each body how many locals and instructions; or the first fault and its place.
pub fn read(alloc: Global, rest: &str) -> Result<String, Unanswered> {
    let bytes = bytes_of(alloc, rest)?;
    match read_module(alloc, &bytes) {
        Err(error) => fault(alloc, error),
        Ok(module) => {
            let mut text = counts_of(alloc, &module)?;
            push_bodies(alloc, &mut text, module.funcs.as_slice())?;
            if text.is_empty() {
                return Ok(String::from_str(alloc, "nothing")?);
            }
            Ok(String::from_str(alloc, text.as_str().trim_start())?)
        }
    }
}

fn push_sizes(
    alloc: Global,
    text: &mut String,
    kind: &str,
    sizes: &[Limits],
) -> Result<(), Unanswered> {
    for limits in sizes {
        let part = told_limits(alloc, kind, limits)?;
        text.push_str(&part)?;
    }
    Ok(())
}

/// Functions, tables and memories.
fn push_code(alloc: Global, text: &mut String, module: &Module) -> Result<(), Unanswered> {
    for ty in module.types.as_slice() {
        let part = told_signature(alloc, ty)?;
        text.push_str(&part)?;
    }
    for func in module.funcs.as_slice() {
        let part = told_func(alloc, func)?;
        text.push_str(&part)?;
    }
    push_sizes(alloc, text, "table", module.tables.as_slice())?;
    push_sizes(alloc, text, "memory", module.memories.as_slice())
}

/// Variables, exports and the first function.
fn push_named(alloc: Global, text: &mut String, module: &Module) -> Result<(), Unanswered> {
    for global in module.globals.as_slice() {
        let part = told_global(alloc, global)?;
        text.push_str(&part)?;
    }
    for export in module.exports.as_slice() {
        let part = told_export(alloc, export)?;
        text.push_str(&part)?;
    }
    if let Some(func) = module.start {
        let part = format!(in alloc; "; start {func}")?;
        text.push_str(&part)?;
    }
    Ok(())
}

fn push_segments(alloc: Global, text: &mut String, module: &Module) -> Result<(), Unanswered> {
    for element in module.elements.as_slice() {
        let part = told_element(alloc, element)?;
        text.push_str(&part)?;
    }
    for part in module.datas.as_slice() {
        let part = told_data(alloc, part)?;
        text.push_str(&part)?;
    }
    Ok(())
}

/// All parts of a module.
pub fn told_parts(alloc: Global, module: &Module) -> Result<String, Unanswered> {
    let mut text = String::from_str(alloc, "module")?;
    push_code(alloc, &mut text, module)?;
    push_named(alloc, &mut text, module)?;
    push_segments(alloc, &mut text, module)?;
    Ok(text)
}

/// All parts of the module of these bytes.
pub fn parts(alloc: Global, rest: &str) -> Result<String, Unanswered> {
    let bytes = bytes_of(alloc, rest)?;
    match read_module(alloc, &bytes) {
        Ok(module) => told_parts(alloc, &module),
        Err(error) => fault(alloc, error),
    }
}

fn name_of(rule: Rule) -> &'static str {
    match rule {
        Rule::TypeResult => "TypeResult",
        Rule::FuncType => "FuncType",
        Rule::Limits => "Limits",
        Rule::Global => "Global",
        Rule::Export => "Export",
        Rule::Start => "Start",
        Rule::Element => "Element",
        Rule::Data => "Data",
        Rule::Index => "Index",
        Rule::Align => "Align",
        Rule::Operand => "Operand",
        Rule::Slots => "Slots",
    }
}

/// The first fault, or the first rule that fails.
fn refused(alloc: Global, error: ReportError) -> Result<String, Unanswered> {
    match error {
        ReportError::Read(error) => fault(alloc, error),
        ReportError::Invalid(Invalid::Rule { rule, place, at }) => {
            let name = name_of(rule);
            Ok(format!(in alloc; "{name} {place} {at}")?)
        }
        ReportError::Invalid(Invalid::Memory) => Err(Unanswered::Memory),
    }
}

/// Whether a module is valid; else the first rule that fails, its place and its instruction.
pub fn valid(alloc: Global, rest: &str) -> Result<String, Unanswered> {
    let bytes = bytes_of(alloc, rest)?;
    match read_checked(alloc, &bytes) {
        Ok(_) => Ok(String::from_str(alloc, "valid")?),
        Err(error) => refused(alloc, error),
    }
}

/// The shortest spelling of the module of these bytes, and its length.
pub fn written(alloc: Global, rest: &str) -> Result<String, Unanswered> {
    let bytes = bytes_of(alloc, rest)?;
    match read_module(alloc, &bytes) {
        Ok(module) => {
            let len = shortest_len(&module);
            let bytes = write_module(alloc, &module)?;
            let text = told_bytes(alloc, &bytes)?;
            Ok(format!(in alloc; "{len} bytes {text}")?)
        }
        Err(error) => fault(alloc, error),
    }
}

/// A line without its line feed.
fn told_line(line: Vec<u8>) -> Result<String, Unanswered> {
    let mut line = line;
    if line.pop() != Some(b'\n') {
        return Err(Unanswered::Unknown);
    }
    String::from_utf8(line).ok().ok_or(Unanswered::Unknown)
}

/// The line on a module.
pub fn report(alloc: Global, rest: &str) -> Result<String, Unanswered> {
    let bytes = bytes_of(alloc, rest)?;
    match module_report(alloc, &bytes) {
        Ok(line) => told_line(line),
        Err(error) => refused(alloc, error),
    }
}

/// Why no function is called.
fn not_called(alloc: Global, error: CallFault) -> Result<String, Unanswered> {
    match error {
        CallFault::Segment(Misfit::Element(at)) => Ok(format!(in alloc; "Segment Element {at}")?),
        CallFault::Segment(Misfit::Data(at)) => Ok(format!(in alloc; "Segment Data {at}")?),
        CallFault::Export => Ok(String::from_str(alloc, "Export")?),
        CallFault::Args(at) => Ok(format!(in alloc; "Args {at}")?),
    }
}

fn push_number(numbers: &mut Vec<u64>, number: u64) -> Result<(), AllocError> {
    numbers.push(number)?;
    Ok(())
}

fn numbers_of(alloc: Global, words: &str) -> Result<Vec<u64>, Unanswered> {
    let mut numbers = Vec::new(alloc);
    for word in words.split(' ') {
        if !word.is_empty() {
            push_number(&mut numbers, long(word)?)?;
        }
    }
    Ok(numbers)
}

/// The line on a call: `NAME FUEL ARGS in BYTES`.
pub fn call(alloc: Global, rest: &str) -> Result<String, Unanswered> {
    let (call, runs) = rest.split_once(" in ").ok_or(Unanswered::Unknown)?;
    let bytes = bytes_of(alloc, runs)?;
    let (name, rest) = cut(call);
    let (fuel, rest) = cut(rest);
    let arguments = numbers_of(alloc, rest)?;
    match call_report(alloc, &bytes, name.as_bytes(), long(fuel)?, &arguments) {
        Ok(line) => told_line(line),
        Err(CallError::Module(error)) => refused(alloc, error),
        Err(CallError::Call(error)) => not_called(alloc, error),
        Err(CallError::Memory) => Err(Unanswered::Memory),
    }
}
