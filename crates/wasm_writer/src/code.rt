//! Instructions, measured and written.
ghost use Rattle.std.specs.Prelude.{◌≡◌, ◌<◌, ◌^◌, ◌++◌, length, OnOk};
ghost use Rattle.std.proofs.Common.{rules};
ghost use Rattle.module_specs.specs.Spelling.{type_byte, block_byte};
ghost use Rattle.wasm_writer.specs.CodeTexts.{op_of, immediates_text, instr_text};

use crate::numbers::{number_len, signed_len, write_number};
use crate::parts::Index;
use crate::shape::{Shape, vector_len, write_vector};
use leb_bytes::{write_s32, write_s64};
use std::alloc::{AllocError, Global};
use wasm_types::{Instr, ValType};

/// The byte of a value type.
pub fn type_byte(ty: ValType) -> u8
    ensures { result ≡ type_byte ty }
{
    match ty {
        ValType::I32 => 0x7F,
        ValType::I64 => 0x7E,
    }
}

fn block_byte(leaves: Option<ValType>) -> u8
    ensures { result ≡ block_byte leaves }
{
    match leaves {
        None => 0x40,
        Some(ty) => type_byte(ty),
    }
}

fn opcode(instr: &Instr) -> u8
    ensures { result ≡ op_of instr.now }
{
    match instr {
        Instr::Unreachable => 0x00,
        Instr::Nop => 0x01,
        Instr::Block { .. } => 0x02,
        Instr::Loop { .. } => 0x03,
        Instr::If { .. } => 0x04,
        Instr::Else { .. } => 0x05,
        Instr::End => 0x0B,
        Instr::Br(_) => 0x0C,
        Instr::BrIf(_) => 0x0D,
        Instr::BrTable { .. } => 0x0E,
        Instr::Return => 0x0F,
        Instr::Call(_) => 0x10,
        Instr::CallIndirect(_) => 0x11,
        Instr::Drop => 0x1A,
        Instr::Select => 0x1B,
        Instr::Local { op, .. } => *op,
        Instr::Globals { op, .. } => *op,
        Instr::Access { op, .. } => *op,
        Instr::MemorySize => 0x3F,
        Instr::MemoryGrow => 0x40,
        Instr::I32Const(_) => 0x41,
        Instr::I64Const(_) => 0x42,
        Instr::Numeric(op) => *op,
    }
}

fn immediates_len(instr: &Instr) -> usize
    requires { length (immediates_text instr.now) < 2 ^ 32 }
    ensures { result ≡ length (immediates_text instr.now) }
{
    match instr {
        Instr::Block { .. } | Instr::Loop { .. } | Instr::If { .. } => 1,
        Instr::Br(n) | Instr::BrIf(n) | Instr::Call(n) => number_len(*n as usize),
        Instr::BrTable { labels, default } => {
            vector_len::<Index>(labels.as_slice()) + number_len(*default as usize)
        }
        Instr::CallIndirect(n) => number_len(*n as usize) + 1,
        Instr::Local { index, .. } => number_len(*index as usize),
        Instr::Globals { index, .. } => number_len(*index as usize),
        Instr::Access { align, offset, .. } => {
            number_len(*align as usize) + number_len(*offset as usize)
        }
        Instr::MemorySize | Instr::MemoryGrow => 1,
        Instr::I32Const(v) => signed_len(*v as i64),
        Instr::I64Const(v) => signed_len(*v),
        _ => 0,
    }
}

fn write_immediates(alloc: Global, out: &mut Vec<u8>, instr: &Instr) -> Result<(), AllocError>
    requires { length (immediates_text instr.now) < 2 ^ 32 }
    ensures { OnOk result (out.new.items ≡ out.old.items ++ immediates_text instr.now) }
{
    match instr {
        Instr::Block { result: leaves, .. } => out.push(block_byte(*leaves))?,
        Instr::Loop { result: leaves, .. } => out.push(block_byte(*leaves))?,
        Instr::If { result: leaves, .. } => out.push(block_byte(*leaves))?,
        Instr::Br(n) | Instr::BrIf(n) | Instr::Call(n) => write_number(alloc, out, *n as usize)?,
        Instr::BrTable { labels, default } => {
            write_vector::<Index>(alloc, out, labels.as_slice())?;
            write_number(alloc, out, *default as usize)?;
        }
        Instr::CallIndirect(n) => {
            write_number(alloc, out, *n as usize)?;
            out.push(0)?;
        }
        Instr::Local { index, .. } => write_number(alloc, out, *index as usize)?,
        Instr::Globals { index, .. } => write_number(alloc, out, *index as usize)?,
        Instr::Access { align, offset, .. } => {
            write_number(alloc, out, *align as usize)?;
            write_number(alloc, out, *offset as usize)?;
        }
        Instr::MemorySize | Instr::MemoryGrow => out.push(0)?,
        Instr::I32Const(v) => write_s32(alloc, out, *v)?,
        Instr::I64Const(v) => write_s64(alloc, out, *v)?,
        _ => {}
    }
    Ok(())
}

/// Instructions, with the ends and elses between them.
pub struct Instruction;

impl Shape for Instruction {
    type Item = Instr;

    ghost text = { instr_text };

    ghost fits = { λ _. Unit {0} };

    fn len(item: &Instr) -> usize {
        1 + immediates_len(item)
    }

    fn write(alloc: Global, out: &mut Vec<u8>, item: &Instr) -> Result<(), AllocError> {
        out.push(opcode(item))?;
        write_immediates(alloc, out, item)
    }

    ghost takes_bytes = { Prim.search rules };
}
