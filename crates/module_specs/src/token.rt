//! What is read at one place of a body.

use crate::opcodes::Kind;
use wasm_types::Instr;

/// An instruction that holds no list, or the part of one that opens or closes a list.
#[derive(Drop)]
pub enum Token {
    /// An instruction with its immediates.
    Plain(Instr),
    /// What opens a list; its block type is still to be read.
    Opens(Kind),
    /// else
    Else,
    /// end
    End,
}
