//! The table of opcodes (WebAssembly Core 1.0, section 5.4).
ghost use Rattle.std.specs.Prelude.{◌≡◌};
ghost use Rattle.module_specs.specs.Opcodes.{row, look_up, control_table, data_table, numeric_table, plain_row, typed_row};

use wasm_types::ValType::{self, I32, I64};

/// What opens a list of instructions.
#[derive(Clone, Copy, PartialEq, Eq, Debug)]
pub enum Kind {
    /// block
    Block,
    /// loop
    Loop,
    /// if
    If,
}

/// An instruction without immediates of its own.
#[derive(Clone, Copy, PartialEq, Eq, Debug)]
pub enum Simple {
    /// unreachable
    Unreachable,
    /// nop
    Nop,
    /// return
    Return,
    /// drop
    Drop,
    /// select
    Select,
    /// memory.size
    MemorySize,
    /// memory.grow
    MemoryGrow,
    /// A numeric instruction, which keeps its opcode.
    Numeric,
}

/// An instruction with one index.
#[derive(Clone, Copy, PartialEq, Eq, Debug)]
pub enum Indexed {
    /// br
    Br,
    /// br_if
    BrIf,
    /// call
    Call,
    /// local.get, local.set and local.tee, which keep their opcode.
    Local,
    /// global.get and global.set, which keep their opcode.
    Globals,
}

/// What an opcode is, and the immediates that follow it.
#[derive(Clone, Copy, PartialEq, Eq, Debug)]
pub enum Group {
    /// It opens a list: a block type follows.
    Opens(Kind),
    /// else
    Else,
    /// end
    End,
    /// Nothing follows.
    Bare(Simple),
    /// A byte 00 follows.
    Zero(Simple),
    /// An index follows.
    Index(Indexed),
    /// A load or store of so many bytes: the alignment and the offset follow.
    Access(u8),
    /// A constant: a signed number of this type's width follows.
    Constant(ValType),
    /// call_indirect: a type index and a byte 00 follow.
    Indirect,
    /// br_table: the labels and the default follow.
    Table,
    /// An instruction on floats, which the profile refuses.
    Float,
    /// No instruction.
    Unknown,
}

/// Operands that an instruction takes, from the lowest to the one at the top.
#[derive(Clone, Copy, PartialEq, Eq, Debug)]
pub enum Operands {
    /// Nothing.
    None,
    /// One operand.
    One(ValType),
    /// Two operands.
    Two(ValType, ValType),
}

/// What an instruction takes from the operand stack, and what it leaves there.
#[derive(Clone, Copy, PartialEq, Eq, Debug)]
pub struct Types {
    /// The operands.
    pub takes: Operands,
    /// The result, if there is one.
    pub gives: Option<ValType>,
}

/// A row of the table: what an opcode is, and its types where the opcode alone settles them.
#[derive(Clone, Copy, PartialEq, Eq, Debug)]
pub struct Row {
    /// What it is.
    pub group: Group,
    /// Its operand and result types, where they hang on nothing else.
    pub types: Option<Types>,
}

// An opcode whose types hang on more than itself, or that has none.
fn plain(group: Group) -> Row
    ensures { result ≡ plain_row group }
{
    Row { group, types: None }
}

fn typed(group: Group, takes: Operands, gives: Option<ValType>) -> Row
    ensures { result ≡ typed_row group takes gives }
{
    Row {
        group,
        types: Some(Types { takes, gives }),
    }
}

fn control_row(op: u8) -> Row
    ensures { result ≡ look_up op control_table }
{
    match op {
        0x00 => plain(Group::Bare(Simple::Unreachable)),
        0x01 => typed(Group::Bare(Simple::Nop), Operands::None, None),
        0x02 => plain(Group::Opens(Kind::Block)),
        0x03 => plain(Group::Opens(Kind::Loop)),
        0x04 => plain(Group::Opens(Kind::If)),
        0x05 => plain(Group::Else),
        0x0B => plain(Group::End),
        0x0C => plain(Group::Index(Indexed::Br)),
        0x0D => plain(Group::Index(Indexed::BrIf)),
        0x0E => plain(Group::Table),
        0x0F => plain(Group::Bare(Simple::Return)),
        0x10 => plain(Group::Index(Indexed::Call)),
        0x11 => plain(Group::Indirect),
        0x1A => plain(Group::Bare(Simple::Drop)),
        0x1B => plain(Group::Bare(Simple::Select)),
        _ => plain(Group::Unknown),
    }
}

fn data_row(op: u8) -> Row
    ensures { result ≡ look_up op data_table }
{
    match op {
        0x20..=0x22 => plain(Group::Index(Indexed::Local)),
        0x23..=0x24 => plain(Group::Index(Indexed::Globals)),
        0x28 => typed(Group::Access(4), Operands::One(I32), Some(I32)),
        0x29 => typed(Group::Access(8), Operands::One(I32), Some(I64)),
        0x2A..=0x2B => plain(Group::Float),
        0x2C..=0x2D => typed(Group::Access(1), Operands::One(I32), Some(I32)),
        0x2E..=0x2F => typed(Group::Access(2), Operands::One(I32), Some(I32)),
        0x30..=0x31 => typed(Group::Access(1), Operands::One(I32), Some(I64)),
        0x32..=0x33 => typed(Group::Access(2), Operands::One(I32), Some(I64)),
        0x34..=0x35 => typed(Group::Access(4), Operands::One(I32), Some(I64)),
        0x36 => typed(Group::Access(4), Operands::Two(I32, I32), None),
        0x37 => typed(Group::Access(8), Operands::Two(I32, I64), None),
        0x38..=0x39 => plain(Group::Float),
        0x3A => typed(Group::Access(1), Operands::Two(I32, I32), None),
        0x3B => typed(Group::Access(2), Operands::Two(I32, I32), None),
        0x3C => typed(Group::Access(1), Operands::Two(I32, I64), None),
        0x3D => typed(Group::Access(2), Operands::Two(I32, I64), None),
        0x3E => typed(Group::Access(4), Operands::Two(I32, I64), None),
        0x3F => typed(Group::Zero(Simple::MemorySize), Operands::None, Some(I32)),
        0x40 => typed(
            Group::Zero(Simple::MemoryGrow),
            Operands::One(I32),
            Some(I32),
        ),
        0x41 => typed(Group::Constant(I32), Operands::None, Some(I32)),
        0x42 => typed(Group::Constant(I64), Operands::None, Some(I64)),
        0x43..=0x44 => plain(Group::Float),
        _ => plain(Group::Unknown),
    }
}

fn numeric_row(op: u8) -> Row
    ensures { result ≡ look_up op numeric_table }
{
    match op {
        0x45 => typed(Group::Bare(Simple::Numeric), Operands::One(I32), Some(I32)),
        0x46..=0x4F => typed(
            Group::Bare(Simple::Numeric),
            Operands::Two(I32, I32),
            Some(I32),
        ),
        0x50 => typed(Group::Bare(Simple::Numeric), Operands::One(I64), Some(I32)),
        0x51..=0x5A => typed(
            Group::Bare(Simple::Numeric),
            Operands::Two(I64, I64),
            Some(I32),
        ),
        0x5B..=0x66 => plain(Group::Float),
        0x67..=0x69 => typed(Group::Bare(Simple::Numeric), Operands::One(I32), Some(I32)),
        0x6A..=0x78 => typed(
            Group::Bare(Simple::Numeric),
            Operands::Two(I32, I32),
            Some(I32),
        ),
        0x79..=0x7B => typed(Group::Bare(Simple::Numeric), Operands::One(I64), Some(I64)),
        0x7C..=0x8A => typed(
            Group::Bare(Simple::Numeric),
            Operands::Two(I64, I64),
            Some(I64),
        ),
        0x8B..=0xA6 => plain(Group::Float),
        0xA7 => typed(Group::Bare(Simple::Numeric), Operands::One(I64), Some(I32)),
        0xA8..=0xAB => plain(Group::Float),
        0xAC..=0xAD => typed(Group::Bare(Simple::Numeric), Operands::One(I32), Some(I64)),
        0xAE..=0xBF => plain(Group::Float),
        _ => plain(Group::Unknown),
    }
}

/// The row of an opcode.
pub fn row_of(op: u8) -> Row
    ensures { result ≡ row op }
{
    if op < 0x20 {
        control_row(op)
    } else if op < 0x45 {
        data_row(op)
    } else {
        numeric_row(op)
    }
}
