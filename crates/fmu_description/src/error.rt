//! Why there is no description.
use description_specs::Field;
use std::alloc::{AllocError, AllocFailed};

/// Why there is no description.
#[derive(Debug, Drop)]
pub enum DescError {
    /// The first check that fails: its field, and its place, which is the position of its table in its array from 0.
    /// The place is 0 for what stands in no array of tables, and for an array of tables itself; it is 1,048,576,
    /// the limit, for `Size`.
    Field(Field, u64),
    /// Memory ran out.
    Memory,
}

impl From<AllocError> for DescError {
    ghost use Rattle.std.specs.Prelude.{◌≡◌};
    ghost use Rattle.fmu_description.specs.declared.error.DescError.TheVariants.{Memory};

    ghost from_gives = { λ _ e. e ≡ Memory };

    fn from(_: AllocError) -> DescError {
        DescError::Memory
    }
}

impl<T: Drop> From<AllocFailed<T>> for DescError {
    ghost use Rattle.std.specs.Prelude.{◌≡◌};
    ghost use Rattle.fmu_description.specs.declared.error.DescError.TheVariants.{Memory};

    ghost from_gives = { λ _ e. e ≡ Memory };

    fn from(_: AllocFailed<T>) -> DescError {
        DescError::Memory
    }
}
