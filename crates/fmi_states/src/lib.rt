//! Virtual ECUs as units of FMI 3.0: their phases, calls and replies, and the trait of a unit.
#![tactic(auto)]

mod call;
mod ecu;
mod in_turn;
mod laws;
mod list_ecu;
mod phase;
mod replies;
mod reply;
mod status;

pub use call::Call;
pub use ecu::Ecu;
pub use in_turn::{RepliesInTurn, call_in_turn};
pub use laws::{
    a_broken_unit_is_gone, a_failed_unit_is_only_freed, a_freed_unit_is_gone,
    a_gone_unit_takes_no_call, new_parts_are_apart, other_units_stay,
};
pub use list_ecu::ListEcu;
pub use phase::{Phase, next, permitted};
pub use replies::Replies;
pub use reply::{Broken, Qualifier, Reply, suits};
pub use status::FmiStatus;
