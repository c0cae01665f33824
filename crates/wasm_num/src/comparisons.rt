//! Comparisons of two numbers.
ghost use Rattle.std.specs.Prelude.{◌≡◌, ◌<◌, ◌^◌, Ok, slice_get};
ghost use Rattle.wasm_types.specs.Spellable.{width};
ghost use Rattle.code_specs.specs.Integers.{truth};
ghost use Rattle.code_specs.specs.Numerics.{irelops, on_both_low};

use crate::words::{low, signed};
use wasm_types::ValType;

/// Whether the comparison holds: eq, ne, lt_s, lt_u, gt_s, gt_u, le_s, le_u, ge_s or ge_u, by its place among them.
pub(crate) fn compare(ty: ValType, place: u8, a: u64, b: u64) -> bool
    requires { place < 10 }
    ensures { on_both_low (width ty) (slice_get (irelops (width ty)) place) a b ≡ Ok (truth result) }
{
    let (i, j) = (low(ty, a), low(ty, b));
    match place {
        0 => i == j,
        1 => i != j,
        2 => signed(ty, i) < signed(ty, j),
        3 => i < j,
        4 => signed(ty, i) > signed(ty, j),
        5 => i > j,
        6 => signed(ty, i) <= signed(ty, j),
        7 => i <= j,
        8 => signed(ty, i) >= signed(ty, j),
        _ => i >= j,
    }
}
