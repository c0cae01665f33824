//! Bodies of functions.
use crate::parts::{told_code, told_types};
use case_words::{Unanswered, bytes_of, cut, short};
use std::alloc::Global;
use wasm_code::{CodeError, read_body};

fn fault(alloc: Global, error: CodeError) -> Result<String, Unanswered> {
    let (name, at) = match error {
        CodeError::Opcode(at, byte) => return Ok(format!(in alloc; "Opcode {at} {byte:x}")?),
        CodeError::Float(at) => ("Float", at),
        CodeError::Form(at) => ("Form", at),
        CodeError::Nesting(at) => ("Nesting", at),
        CodeError::Number(at) => ("Number", at),
        CodeError::Short(at) => ("Short", at),
        CodeError::Size(at) => ("Size", at),
        CodeError::Limit(at) => ("Limit", at),
        CodeError::Memory => return Err(Unanswered::Memory),
    };
    Ok(format!(in alloc; "{name} {at}")?)
}

/// The place behind a body, with how many locals and instructions it has.
pub fn body(alloc: Global, rest: &str) -> Result<String, Unanswered> {
    let bytes = bytes_of(alloc, rest)?;
    match read_body(alloc, &bytes, 0, bytes.len(), 0) {
        Ok((func, next)) => {
            let locals = func.locals.into_vec().len();
            let instrs = func.body.into_vec().len();
            Ok(format!(in alloc; "next {next}, {locals} locals, {instrs} instructions")?)
        }
        Err(error) => fault(alloc, error),
    }
}

/// The locals and the code of a body, for a function of a type, and the place behind it.
pub fn code(alloc: Global, rest: &str) -> Result<String, Unanswered> {
    let (ty, runs) = cut(rest);
    let bytes = bytes_of(alloc, runs)?;
    match read_body(alloc, &bytes, 0, bytes.len(), short(ty)?) {
        Ok((func, next)) => {
            let ty = func.ty;
            let locals = told_types(alloc, func.locals.as_slice())?;
            let code = told_code(alloc, func.body.as_slice())?;
            Ok(format!(in alloc; "type {ty} locals {locals} code{code} next {next}")?)
        }
        Err(error) => fault(alloc, error),
    }
}
