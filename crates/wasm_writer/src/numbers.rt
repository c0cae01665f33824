//! Numbers in their shortest spelling, measured and written.
ghost use Rattle.std.specs.Prelude.{◌≡◌, ◌<◌, ◌≤◌, ◌^◌, ◌++◌, length, OnOk};
ghost use Rattle.leb_bytes.specs.Writing.{unsigned_text, is_narrow_signed, signed_text};

use leb_bytes::write_u32;
use std::alloc::{AllocError, Global};

/// The bytes of an unsigned number.
pub fn number_len(n: usize) -> usize
    ensures is { result ≡ length (unsigned_text n) }
    ensures few { result ≤ 10 }
{
    if n < 128 {
        return 1;
    }
    1 + number_len(n / 128)
}

// One byte is enough.
fn is_narrow(v: i64) -> bool
    ensures { result ≡ is_narrow_signed v }
{
    -64 <= v && v < 64
}

/// The bytes of a signed number.
pub fn signed_len(v: i64) -> usize
    ensures is { result ≡ length (signed_text v) }
    ensures few { result ≤ 10 }
{
    if is_narrow(v) {
        return 1;
    }
    1 + signed_len(v >> 7)
}

/// Appends a count, a size or an index.
pub fn write_number(alloc: Global, out: &mut Vec<u8>, n: usize) -> Result<(), AllocError>
    requires { n < 2 ^ 32 }
    ensures { OnOk result (out.new.items ≡ out.old.items ++ unsigned_text n) }
{
    write_u32(alloc, out, n as u32)
}
