//! Bits of two numbers, shifts and rotations.
ghost use Rattle.std.specs.Prelude.{◌≡◌, ◌≤◌, ◌<◌, ◌%◌, ◌^◌, Ok, slice_get};
ghost use Rattle.wasm_types.specs.Spellable.{width};
ghost use Rattle.code_specs.specs.Integers.{ishl, ishr_s, ishr_u, irotl, irotr};
ghost use Rattle.code_specs.specs.Numerics.{ibinops, on_both_low};

use crate::words::{low, signed, unsigned};
use wasm_types::ValType;

// A count of places, modulo the width.
fn places(ty: ValType, j: u64) -> u32
    ensures value { result ≡ j % width ty }
    ensures least_width { result < width ty }
{
    match ty {
        ValType::I32 => (j % 32) as u32,
        ValType::I64 => (j % 64) as u32,
    }
}

// shl: the first bits fall off, and zeros follow.
#[tactic(auto, using(crate::proofs::Turns::shl_word))]
fn shifted_left(ty: ValType, i: u64, j: u64) -> u64
    requires { i < 2 ^ width ty }
    ensures { result ≡ ishl (width ty) i j }
{
    let count = places(ty, j);
    match ty {
        ValType::I32 => u64::from((i as u32) << count),
        ValType::I64 => i << count,
    }
}

// shr_u: the last bits fall off, and zeros stand before.
#[tactic(auto, using(crate::proofs::Turns::shr_u_word))]
fn shifted_right(ty: ValType, i: u64, j: u64) -> u64
    requires { i < 2 ^ width ty }
    ensures { result ≡ ishr_u (width ty) i j }
{
    i >> places(ty, j)
}

// shr_s: the last bits fall off, and the first bit stands before.
#[tactic(auto, using(crate::proofs::Signs::shr_s_passed, crate::proofs::Signs::shr_fits))]
fn shifted_right_signed(ty: ValType, i: u64, j: u64) -> u64
    requires { i < 2 ^ width ty }
    ensures { result ≡ ishr_s (width ty) i j }
{
    unsigned(ty, signed(ty, i) >> places(ty, j))
}

// rotl: the first bits go behind the others.
#[tactic(auto, using(crate::proofs::Turns::rotl_word))]
fn rotated_left(ty: ValType, i: u64, j: u64) -> u64
    requires { i < 2 ^ width ty }
    ensures { result ≡ irotl (width ty) i j }
{
    let count = places(ty, j);
    match ty {
        ValType::I32 => u64::from((i as u32).rotate_left(count)),
        ValType::I64 => i.rotate_left(count),
    }
}

// rotr: the last bits go before the others.
#[tactic(auto, using(crate::proofs::Turns::rotr_word))]
fn rotated_right(ty: ValType, i: u64, j: u64) -> u64
    requires { i < 2 ^ width ty }
    ensures { result ≡ irotr (width ty) i j }
{
    let count = places(ty, j);
    match ty {
        ValType::I32 => u64::from((i as u32).rotate_right(count)),
        ValType::I64 => i.rotate_right(count),
    }
}

/// What and, or, xor, shl, shr_s, shr_u, rotl or rotr gives, by its place from 7 on.
pub(crate) fn combine(ty: ValType, place: u8, a: u64, b: u64) -> u64
    requires least { 7 ≤ place }
    requires most { place < 15 }
    ensures { on_both_low (width ty) (slice_get (ibinops (width ty)) place) a b ≡ Ok result }
{
    let (i, j) = (low(ty, a), low(ty, b));
    match place {
        7 => i & j,
        8 => i | j,
        9 => i ^ j,
        10 => shifted_left(ty, i, j),
        11 => shifted_right_signed(ty, i, j),
        12 => shifted_right(ty, i, j),
        13 => rotated_left(ty, i, j),
        _ => rotated_right(ty, i, j),
    }
}
