//! What code means and when it is typed (WebAssembly Core 1.0, sections 3 and 4), as definitions that other crates
//! cite. There is no code here but the names of traps, rules and segments.
#![tactic(auto)]

mod rule;
mod segment;
mod trap;

pub use rule::Rule;
pub use segment::Misfit;
pub use trap::{NumTrap, TrapKind};
