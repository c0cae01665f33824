//! Modules, read (WebAssembly Core 1.0, section 5.5).
#![tactic(auto)]

mod bodies;
mod content;
mod error;
mod items;
mod module;
mod segments;
mod types;

pub use error::ReadError;
pub use module::read_module;
