//! Sums, differences, products, quotients and remainders.
ghost use Rattle.std.specs.Prelude.{◌≡◌, ◌<◌, slice_get};
ghost use Rattle.wasm_types.specs.Spellable.{width};
ghost use Rattle.code_specs.specs.Numerics.{ibinops, on_both_low};

use crate::division::{quotient, remainder};
use crate::words::low;
use code_specs::NumTrap;
use wasm_types::ValType;

/// What add, sub, mul, div_s, div_u, rem_s or rem_u gives, by its place among them.
pub(crate) fn calculate(ty: ValType, place: u8, a: u64, b: u64) -> Result<u64, NumTrap>
    requires { place < 7 }
    ensures { result ≡ on_both_low (width ty) (slice_get (ibinops (width ty)) place) a b }
{
    let (i, j) = (low(ty, a), low(ty, b));
    match place {
        0 => Ok(low(ty, i.wrapping_add(j))),
        1 => Ok(low(ty, i.wrapping_sub(j))),
        2 => Ok(low(ty, i.wrapping_mul(j))),
        3 => quotient(ty, i, j),
        5 => remainder(ty, i, j),
        _ if j == 0 => Err(NumTrap::ZeroDivide),
        4 => Ok(i / j),
        _ => Ok(i % j),
    }
}
