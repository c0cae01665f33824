//! A module bound as a unit: whether it exports what a unit has, and its calls.
#![tactic(auto)]

mod arguments;
mod asking;
mod bound;
mod bound_unit;
mod copies;
mod exchanging;
mod exports;
mod guests;
mod image;
mod instantiating;
mod laws;
mod preparing;
mod reading;
mod replies;
mod running;
mod sizes;
mod state;
mod types;
mod wasm_ecu;

pub use binding_specs::{BindError, Function};
pub use bound::{check, check_module};
pub use bound_unit::BoundUnit;
pub use guests::Guests;
pub use image::Image;
pub use laws::{states_of_guests_are_those_of_units, what_was_saved_of_a_guest_is_made_again};
pub use state::GuestState;
pub use wasm_ecu::WasmEcu;
