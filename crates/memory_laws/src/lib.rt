//! Laws of the bytes of a memory (WebAssembly Core 1.0, sections 4.3.1 and 4.4.4): each is the contract of a function
//! with an empty body.
#![tactic(auto)]

mod laws;

pub use laws::{
    a_store_changes_its_own_bytes_alone, numbers_are_their_bytes, what_is_stored_is_loaded,
};
