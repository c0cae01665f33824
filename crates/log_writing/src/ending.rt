//! How a run ends.
ghost use Rattle.std.specs.Prelude.{◌≡◌};
ghost use Rattle.log_writing.specs.Endings.{code_of};

use bench_outside::Failed;
use std::alloc::AllocError;

/// How a run ended.
#[derive(Clone, Copy, Debug, PartialEq, Eq)]
pub enum Ending {
    /// No event was left up to the stop.
    Done,
    /// The budget of events was used, and an event was left.
    Spent,
}

impl Ending {
    /// The status that the last line of the log states.
    pub fn code(self) -> u8
        ensures { result ≡ code_of self }
    {
        match self {
            Ending::Done => 0,
            Ending::Spent => 8,
        }
    }
}

/// Why a run wasn't run to its end.
#[derive(Clone, Copy, Debug, PartialEq, Eq)]
pub enum RunError {
    /// The log couldn't be written: the sink has counted it.
    Unwritten,
    /// Want of memory.
    Memory,
}

impl From<AllocError> for RunError {
    ghost use Rattle.log_writing.specs.declared.ending.RunError.TheVariants.{Memory};

    ghost from_gives = { λ _ e. e ≡ Memory };

    fn from(_: AllocError) -> RunError {
        RunError::Memory
    }
}

impl From<Failed> for RunError {
    ghost use Rattle.log_writing.specs.declared.ending.RunError.TheVariants.{Unwritten};

    ghost from_gives = { λ _ e. e ≡ Unwritten };

    fn from(_: Failed) -> RunError {
        RunError::Unwritten
    }
}
