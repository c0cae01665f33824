//! Whether an opcode is an operation on one operand, or on two.
ghost use Rattle.std.specs.Prelude.{◌≡◌};
ghost use Rattle.wasm_num.specs.Arity.{is_unary_op, is_binary_op};

/// Whether the opcode is an integer operation on one operand: the condition of `unary`.
pub fn is_unary(op: u8) -> bool
    ensures { result ≡ is_unary_op op }
{
    matches!(op, 0x45 | 0x50 | 0x67..=0x69 | 0x79..=0x7B | 0xA7 | 0xAC..=0xAD)
}

/// Whether the opcode is an integer operation on two operands: the condition of `binary`.
pub fn is_binary(op: u8) -> bool
    ensures { result ≡ is_binary_op op }
{
    matches!(op, 0x46..=0x4F | 0x51..=0x5A | 0x6A..=0x78 | 0x7C..=0x8A)
}
