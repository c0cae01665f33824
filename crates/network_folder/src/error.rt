//! Why there is no network.
use bench_outside::{FileId, Refusal};
use std::alloc::{AllocError, AllocFailed};

/// Why there is no network.
#[derive(Clone, Copy, Debug, PartialEq, Eq)]
pub enum NetError {
    /// A file breaks a rule: the first in the order of the files, each checked whole before the next is read.
    Refused(Refusal),
    /// A file couldn't be read; those before it break no rule.
    Unread(FileId),
    /// Memory ran out.
    Memory,
}

impl From<AllocError> for NetError {
    ghost use Rattle.std.specs.Prelude.{◌≡◌};
    ghost use Rattle.network_folder.specs.declared.error.NetError.TheVariants.{Memory};

    ghost from_gives = { λ _ e. e ≡ Memory };

    fn from(_: AllocError) -> NetError {
        NetError::Memory
    }
}

impl<T: Drop> From<AllocFailed<T>> for NetError {
    ghost use Rattle.std.specs.Prelude.{◌≡◌};
    ghost use Rattle.network_folder.specs.declared.error.NetError.TheVariants.{Memory};

    ghost from_gives = { λ _ e. e ≡ Memory };

    fn from(_: AllocFailed<T>) -> NetError {
        NetError::Memory
    }
}
