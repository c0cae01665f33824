//! Modules in their shortest spelling (WebAssembly Core 1.0, section 5): written, measured, and built part by part.
#![tactic(auto)]

mod builder;
mod code;
mod functions;
mod laws;
mod locals;
mod numbers;
mod parts;
mod shape;
mod writing;

pub use builder::ModuleBuilder;
pub use laws::{no_spelling_is_shorter, written_modules_are_read_back};
pub use writing::{shortest_len, write_module};
