//! Numeric instructions by their opcodes.
ghost use Rattle.std.specs.Prelude.{◌≡◌, true};
ghost use Rattle.code_specs.specs.Numerics as spec;
ghost use Rattle.wasm_num.specs.Arity.{is_unary_op, is_binary_op};

use crate::arithmetic::calculate;
use crate::bits::combine;
use crate::comparisons::compare;
use crate::counts::count;
use crate::words::{low, signed};
use code_specs::NumTrap;
use wasm_types::ValType::{I32, I64};

/// What the instruction with this opcode makes of its operand (WebAssembly Core 1.0, section 4.4.1.3): eqz, clz, ctz and
/// popcnt of each width, i32.wrap_i64, i64.extend_i32_s and i64.extend_i32_u.
///
/// An i32 is held in the low 32 bits; of an operand of type i32 the others are left unread, and in a result they are 0.
#[tactic(auto, unfolding(code_specs::specs::Numerics::unary))]
pub fn unary(op: u8, a: u64) -> u64
    requires { is_unary_op op ≡ true }
    ensures { result ≡ spec.unary op a }
{
    match op {
        0x45 => u64::from(low(I32, a) == 0),
        0x50 => u64::from(a == 0),
        0x67..=0x69 => count(I32, op - 0x67, a),
        0x79..=0x7B => count(I64, op - 0x79, a),
        0xAC => signed(I32, low(I32, a)).cast_unsigned(),
        _ => low(I32, a),
    }
}

/// What the instruction with this opcode makes of its two operands, the upper one last (WebAssembly Core 1.0, section
/// 4.4.1.4): the comparisons and the binary operators of each width.
///
/// An i32 is held in the low 32 bits; of an operand of type i32 the others are left unread, and in a result they are 0.
/// A division by zero is ZeroDivide, and div_s of the least number by -1 is Overflow.
#[tactic(auto, unfolding(code_specs::specs::Numerics::binary))]
pub fn binary(op: u8, a: u64, b: u64) -> Result<u64, NumTrap>
    requires { is_binary_op op ≡ true }
    ensures { result ≡ spec.binary op a b }
{
    match op {
        0x46..=0x4F => Ok(u64::from(compare(I32, op - 0x46, a, b))),
        0x51..=0x5A => Ok(u64::from(compare(I64, op - 0x51, a, b))),
        0x6A..=0x70 => calculate(I32, op - 0x6A, a, b),
        0x71..=0x78 => Ok(combine(I32, op - 0x6A, a, b)),
        0x7C..=0x82 => calculate(I64, op - 0x7C, a, b),
        _ => Ok(combine(I64, op - 0x7C, a, b)),
    }
}
