//! The description of a unit, read from TOML (FMI 3.0, section 2.4, with its attribute names).
#![tactic(auto)]

mod binaries;
mod clocks;
mod description;
mod error;
mod head;
mod names;
mod reading;
mod terminals;
mod words;

pub use description::{Description, Terminal};
pub use description_specs::Field;
pub use error::DescError;
pub use reading::read_description;
