//! The operations that a node and a bus exchange, and their bytes (after the CAN part of FMI-LS-BUS).
#![tactic(auto)]

mod fields;
mod items;
mod laws;
mod op;
mod reading;
mod writing;

pub use items::Items;
pub use laws::{
    bytes_have_a_reading, cut_is_bad, one_reading, read_is_whole, read_is_written,
    spellings_differ, written_is_read,
};
pub use op::{Declared, Item, Op, Parameter};
pub use reading::read_ops;
pub use writing::write_op;
