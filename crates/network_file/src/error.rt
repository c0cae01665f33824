//! Why a network file isn't accepted.
use network_specs::NetworkField;
use std::alloc::{AllocError, AllocFailed};

/// Why a network file isn't accepted.
#[derive(Debug, Drop)]
pub enum NetworkFileError {
    /// The first check that fails: its field, and its place, which is the position of its table in its array from 0.
    /// The place is 0 for what stands in no array of tables, and for an array of tables itself; it is 1,048,576,
    /// the limit, for `Size`.
    Field(NetworkField, u64),
    /// Memory ran out.
    Memory,
}

impl From<AllocError> for NetworkFileError {
    ghost use Rattle.std.specs.Prelude.{◌≡◌};
    ghost use Rattle.network_file.specs.declared.error.NetworkFileError.TheVariants.{Memory};

    ghost from_gives = { λ _ e. e ≡ Memory };

    fn from(_: AllocError) -> NetworkFileError {
        NetworkFileError::Memory
    }
}

impl<T: Drop> From<AllocFailed<T>> for NetworkFileError {
    ghost use Rattle.std.specs.Prelude.{◌≡◌};
    ghost use Rattle.network_file.specs.declared.error.NetworkFileError.TheVariants.{Memory};

    ghost from_gives = { λ _ e. e ≡ Memory };

    fn from(_: AllocFailed<T>) -> NetworkFileError {
        NetworkFileError::Memory
    }
}
