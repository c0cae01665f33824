//! TOML documents, read: a document from its bytes, and what stands at a key of a table.
#![tactic(auto)]

mod document;
mod numbers;
mod rows;
mod texts;

pub use document::{DocumentError, read_document};
pub use numbers::{number_at, number_of};
pub use rows::{only, optional_tables, row, table_at, tables};
pub use texts::{at, flag_at, identifier_at, text_at};
