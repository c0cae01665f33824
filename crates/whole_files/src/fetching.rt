//! Reading a whole file, up to a greatest length.
ghost use Rattle.std.specs.Prelude.{◌≡◌, ◌<◌, ◌≤◌, ◌^◌, ◌⊎◌, Some, Ok, Err, IfOk, length, nat_lt, if◌then◌else◌};
ghost use Rattle.bench_outside.specs.Causes.{Rose};
ghost use Rattle.bench_outside.specs.Shelf.{Contents};

use bench_outside::{Shelf, ShelfError};
use std::alloc::Global;

/// Why a file wasn't fetched.
pub enum FetchError {
    /// The read failed.
    Unread,
    /// The file is longer than the limit.
    Size,
    /// Memory ran out.
    Memory,
}

/// All bytes of a file that is no longer than the limit.
pub fn fetch<H: Shelf>(
    alloc: Global,
    shelf: &mut H,
    name: &str,
    limit: u64,
) -> Result<Vec<u8>, FetchError>
    requires { limit < 2 ^ 32 }
    ensures bytes { IfOk result (λ v.
        (held : Contents) → H.holds shelf.old ≡ Some held → v.items ≡ held name.now) }
    ensures within { IfOk result (λ v. length v.items ≤ limit) }
    ensures size { result ≡ Err FetchError.Size → (held : Contents)
        → H.holds shelf.old ≡ Some held → limit < length (held name.now) }

    // Only a read of this file is blamed, and what it holds stays.
    ensures unread { result ≡ Err FetchError.Unread
        → Rose (H.read_faults shelf.old).count (H.read_faults shelf.new).count }
    ensures named { result ≡ Err FetchError.Unread → (H.read_faults shelf.new).last ≡ name.now }
    ensures unblamed { (result ≡ Err FetchError.Unread)
        ⊎ (H.read_faults shelf.new ≡ H.read_faults shelf.old) }
    ensures holds { H.holds shelf.new ≡ H.holds shelf.old }
    ensures others { H.write_faults shelf.new ≡ H.write_faults shelf.old }
{
    match shelf.read(alloc, name, limit + 1) {
        Ok(bytes) => within(bytes, limit),
        Err(ShelfError::Failed) => Err(FetchError::Unread),
        Err(ShelfError::Memory) => Err(FetchError::Memory),
    }
}

/// The bytes, where there are no more than the limit.
fn within(bytes: Vec<u8>, limit: u64) -> Result<Vec<u8>, FetchError>
    ensures { result ≡ (if nat_lt limit (length bytes.items) then Err FetchError.Size else Ok bytes) }
{
    if bytes.len() as u64 > limit {
        Err(FetchError::Size)
    } else {
        Ok(bytes)
    }
}
