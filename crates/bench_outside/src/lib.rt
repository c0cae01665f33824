//! The outside of the bench: a shelf of files and a sink of bytes, which count their faults.
#![tactic(auto)]

mod calls;
mod file_shelf;
mod file_system;
mod in_stream;
mod mem_shelf;
mod mem_sink;
mod out_sink;
mod refusal;
mod shelf;
mod sink;

pub use file_shelf::FileShelf;
pub use file_system::{FileSystem, SystemFiles};
pub use mem_shelf::{MemShelf, a_put_file_is_found, a_put_file_spares_others};
pub use mem_sink::MemSink;
pub use out_sink::OutSink;
pub use refusal::{FileId, Refusal, Why};
pub use shelf::{Shelf, ShelfError, a_stored_file_reads_back, a_stored_file_spares_others};
pub use sink::{Failed, Sink};
