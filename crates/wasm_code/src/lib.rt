//! Bodies of functions, read in one pass into flat code (WebAssembly Core 1.0, sections 5.4 and 5.5.13).
#![tactic(auto)]

mod body;
mod error;
mod flat;
mod items;
mod laws;

pub use body::{read_body, read_function};
pub use error::CodeError;
pub use items::{byte, long_signed, number, signed, value_type};
pub use laws::{a_body_spells_one_function, faults_lie_in_their_section};
