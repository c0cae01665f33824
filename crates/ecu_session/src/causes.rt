//! Why a piece of a session stops.
use log_lines::Cause;
use std::alloc::AllocError;

/// Why a piece of a session stops.
#[derive(Debug, Drop)]
pub(crate) enum Stop {
    /// The unit is down.
    Down(Cause),
    /// Want of memory.
    Memory,
}

impl From<AllocError> for Stop {
    ghost use Rattle.std.specs.Prelude.{◌≡◌};
    ghost use Rattle.ecu_session.specs.declared.causes.Stop.TheVariants.{Memory};

    ghost from_gives = { λ _ e. e ≡ Memory };

    fn from(_error: AllocError) -> Stop {
        Stop::Memory
    }
}
