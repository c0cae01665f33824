//! Numeric instructions and constants.
ghost use Rattle.std.specs.Prelude.{◌≡◌, ◌≢◌, ◌≤◌, ◌<◌, ◌%◌, ◌^◌, ◌∷◌, List, ℕ, length, true};
ghost use Rattle.wasm_types.specs.declared.instr.Instr.TheVariants.{Numeric};
ghost use Rattle.wasm_types.specs.Spellable.{width, is_numeric_op};
ghost use Rattle.wasm_types.specs.Modules.{NestedModule};
ghost use Rattle.code_specs.specs.Stores.{Store};
ghost use Rattle.code_specs.specs.Effects.{Stuck, bare, effect_of, trap_of};
ghost use Rattle.wasm_num.specs.Arity.{is_unary_op};
ghost use Rattle.wasm_machine.specs.Opcodes.{operand_count, given_type, done};

use crate::stack::{Values, pop, push};
use code_specs::{NumTrap, TrapKind};
use wasm_num::{binary, is_unary, unary};

// The low bits of a result, as many as its type has.
#[inline(always)]
fn low_of(op: u8, n: u64) -> u64
    ensures { result ≡ n % 2 ^ width (given_type op) }
{
    if op < 0x79 || op == 0xA7 {
        n % 0x1_0000_0000
    } else {
        n
    }
}

#[inline(always)]
fn trap_of_number(trap: NumTrap) -> TrapKind
    ensures { result ≡ trap_of trap }
{
    match trap {
        NumTrap::ZeroDivide => TrapKind::ZeroDivide,
        NumTrap::Overflow => TrapKind::Overflow,
    }
}

/// A numeric instruction, or the reason for a trap.
#[inline(always)]
pub(crate) fn numeric(values: &mut Values, op: u8) -> Option<TrapKind>
    requires op { is_numeric_op op ≡ true }
    requires there { operand_count op ≤ length values.old }
    requires room { length values.old ≤ 1048576 }
    ensures { (m : NestedModule) (s : Store) → effect_of bare m (Numeric op) values.old s ≡ done result values.new s }
{
    if is_unary(op) {
        let operand = pop(values);
        push(values, low_of(op, unary(op, operand)));
        return None;
    }
    let upper = pop(values);
    let lower = pop(values);
    match binary(op, lower, upper) {
        Ok(n) => {
            push(values, low_of(op, n));
            None
        }
        Err(trap) => Some(trap_of_number(trap)),
    }
}
