//! Memories of WebAssembly Core 1.0 (section 4.2.8), each seen as its list of bytes in a pool.
#![tactic(auto)]

mod memory;
mod pool;
mod table;
mod words;

pub use memory::Memory;
pub use pool::Pool;
