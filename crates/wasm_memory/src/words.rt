//! Numbers of 1, 2, 4 and 8 bytes in a row of bytes, the lowest byte first.
ghost use Rattle.std.specs.Prelude.{◌≡◌, ◌≤◌, ◌<◌, ◌+◌, ◌*◌, ◌^◌, true, length};
ghost use Rattle.code_specs.specs.Stores.{bytes_of, replaced_at};
ghost use Rattle.wasm_memory.specs.Pools.{is_width};
ghost use Rattle.wasm_memory.specs.Words.{number_at};

// The number that a byte is.
#[inline]
fn number_1(bytes: &[u8], at: usize) -> u64
    requires { at + 1 ≤ length bytes.now }
    ensures value { result ≡ number_at bytes.now at 1 }
    ensures fits { result < 2 ^ 8 }
{
    u64::from(bytes[at])
}

#[inline]
fn number_2(bytes: &[u8], at: usize) -> u64
    requires { at + 2 ≤ length bytes.now }
    ensures value { result ≡ number_at bytes.now at 2 }
    ensures fits { result < 2 ^ 16 }
{
    number_1(bytes, at) + 256 * number_1(bytes, at + 1)
}

#[inline]
fn number_4(bytes: &[u8], at: usize) -> u64
    requires { at + 4 ≤ length bytes.now }
    ensures value { result ≡ number_at bytes.now at 4 }
    ensures fits { result < 2 ^ 32 }
{
    number_2(bytes, at) + 65_536 * number_2(bytes, at + 2)
}

#[inline]
fn number_8(bytes: &[u8], at: usize) -> u64
    requires { at + 8 ≤ length bytes.now }
    ensures { result ≡ number_at bytes.now at 8 }
{
    number_4(bytes, at) + 4_294_967_296 * number_4(bytes, at + 4)
}

/// The number in the bytes from a place on, as many as its width.
#[inline]
pub(crate) fn number(bytes: &[u8], at: usize, width: u8) -> u64
    requires width { is_width width ≡ true }
    requires within { at + width ≤ length bytes.now }
    ensures value { result ≡ number_at bytes.now at width }
    ensures fits { result < 2 ^ (8 * width) }
{
    match width {
        1 => number_1(bytes, at),
        2 => number_2(bytes, at),
        4 => number_4(bytes, at),
        _ => number_8(bytes, at),
    }
}

#[inline]
fn put_1(bytes: &mut [u8], at: usize, n: u64)
    requires { at + 1 ≤ length bytes.old }
    ensures { bytes.new ≡ replaced_at bytes.old at (bytes_of 1 n) }
{
    bytes[at] = (n % 256) as u8;
}

#[inline]
fn put_2(bytes: &mut [u8], at: usize, n: u64)
    requires { at + 2 ≤ length bytes.old }
    ensures { bytes.new ≡ replaced_at bytes.old at (bytes_of 2 n) }
{
    put_1(bytes, at, n);
    put_1(bytes, at + 1, n / 256);
}

#[inline]
fn put_4(bytes: &mut [u8], at: usize, n: u64)
    requires { at + 4 ≤ length bytes.old }
    ensures { bytes.new ≡ replaced_at bytes.old at (bytes_of 4 n) }
{
    put_2(bytes, at, n);
    put_2(bytes, at + 2, n / 65_536);
}

#[inline]
fn put_8(bytes: &mut [u8], at: usize, n: u64)
    requires { at + 8 ≤ length bytes.old }
    ensures { bytes.new ≡ replaced_at bytes.old at (bytes_of 8 n) }
{
    put_4(bytes, at, n);
    put_4(bytes, at + 4, n / 4_294_967_296);
}

/// Puts the lowest bytes of a number, as many as the width, in the place of those from a place on.
#[inline]
pub(crate) fn put(bytes: &mut [u8], at: usize, width: u8, n: u64)
    requires width { is_width width ≡ true }
    requires within { at + width ≤ length bytes.old }
    ensures bytes { bytes.new ≡ replaced_at bytes.old at (bytes_of width n) }
    ensures len { length bytes.new ≡ length bytes.old }
{
    match width {
        1 => put_1(bytes, at, n),
        2 => put_2(bytes, at, n),
        4 => put_4(bytes, at, n),
        _ => put_8(bytes, at, n),
    }
}
