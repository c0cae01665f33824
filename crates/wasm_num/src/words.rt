//! The numbers of a type in words of 64 bits, and their signed interpretation.
ghost use Rattle.std.specs.Prelude.{◌≡◌, ◌<◌, ◌%◌, ◌^◌};
ghost use Rattle.wasm_types.specs.Spellable.{width};
ghost use Rattle.code_specs.specs.Integers as spec;
ghost use Rattle.wasm_num.specs.Ranges.{HasSigned};

use wasm_types::ValType;

/// How many bits the type has.
pub(crate) fn bits_of(ty: ValType) -> u32
    ensures { result ≡ width ty }
{
    match ty {
        ValType::I32 => 32,
        ValType::I64 => 64,
    }
}

/// The low bits of a word, as many as the type has.
pub(crate) fn low(ty: ValType, word: u64) -> u64
    ensures { result ≡ word % 2 ^ width ty }
{
    match ty {
        ValType::I32 => word % (1 << 32),
        ValType::I64 => word,
    }
}

/// The signed interpretation of a number of the type.
pub(crate) fn signed(ty: ValType, number: u64) -> i64
    requires { number < 2 ^ width ty }
    ensures value { result ≡ spec.signed (width ty) number }
    ensures fits { HasSigned ty result }
{
    match ty {
        ValType::I32 => i64::from((number as u32).cast_signed()),
        ValType::I64 => number.cast_signed(),
    }
}

/// The number of the type with this signed interpretation.
pub(crate) fn unsigned(ty: ValType, value: i64) -> u64
    requires { HasSigned ty value }
    ensures { result ≡ spec.unsigned (width ty) value }
{
    match ty {
        ValType::I32 => u64::from((value as i32).cast_unsigned()),
        ValType::I64 => value.cast_unsigned(),
    }
}
