//! The network file, read: what it says, or the first check that fails.
#![tactic(auto)]

mod attachments;
mod buses;
mod error;
mod names;
mod nodes;
mod parts;
mod reading;
mod rows;
mod script;
mod settings;

pub use error::NetworkFileError;
pub use network_specs::NetworkField;
pub use parts::{Attachment, Bus, NetworkFile, Node, Rate, ScriptEntry, Settings};
pub use reading::read_network_file;
