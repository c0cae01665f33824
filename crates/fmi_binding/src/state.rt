//! What a guest is.
use fmi_states::Phase;
use fmu_description::Description;
use wasm_types::{Bytes, Items, Module};

/// The state of a guest, its memory included. Contracts name it, and no code makes one.
#[derive(Drop)]
pub struct GuestState {
    /// Its module.
    pub code: Module,
    /// What the bench knows of it.
    pub description: Description,
    /// How much each function may use.
    pub budget: u64,
    /// Its phase.
    pub phase: Phase,
    /// The address of its area.
    pub area: u32,
    /// Its memory.
    pub bytes: Bytes,
    /// The numbers in its globals.
    pub globals: Items<u64>,
}
