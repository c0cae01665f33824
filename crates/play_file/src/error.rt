//! Why a play file isn't read.

use std::alloc::AllocError;

/// Why a play file isn't read.
#[derive(Clone, Copy, Debug, PartialEq, Eq)]
pub enum PlayError {
    /// The first line that breaks a rule, counted from 1.
    Line { number: u64 },
    /// Memory ran out.
    Memory,
}

impl From<AllocError> for PlayError {
    ghost use Rattle.std.specs.Prelude.{◌≡◌};
    ghost use Rattle.play_file.specs.declared.error.PlayError.TheVariants.{Memory};

    ghost from_gives = { λ _ e. e ≡ Memory };

    fn from(_: AllocError) -> PlayError {
        PlayError::Memory
    }
}
