//! Pages of 4,096 bytes that tables share until one of them is written, with a count of owners for each page.
#![tactic(auto)]

mod owners;
mod pages;
mod pool;
mod table;
mod tables;
mod writing;

pub use pool::Pool;
