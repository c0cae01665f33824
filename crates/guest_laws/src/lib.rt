//! Laws of what calls keep of a guest, whatever its code does: each is the contract of a function with an empty body.
#![tactic(auto)]

mod calls;

pub use calls::{calls_keep_areas, calls_keep_stores, fresh_guests_begin};
