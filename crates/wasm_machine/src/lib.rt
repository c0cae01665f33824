//! The machine: code of checked modules runs as WebAssembly Core 1.0 says, each instruction for a unit of fuel, in room
//! that is taken beforehand.
#![tactic(auto)]

mod access;
mod call;
mod instance;
mod making;
mod misfit;
mod numeric;
mod outcome;
mod plain;
mod room;
mod stack;
mod state;
mod step;
mod types;

pub use code_specs::Misfit;
pub use instance::Instance;
pub use misfit::fits;
pub use outcome::Outcome;
pub use stack::Stack;
pub use state::suits;
