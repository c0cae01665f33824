//! What no call of a guest changes.
use fmu_description::Description;
use wasm_validate::Checked;

/// A module bound as a unit.
#[derive(Drop)]
pub struct BoundUnit {
    /// Its module.
    pub(crate) code: Checked,
    /// What the bench knows of it.
    pub(crate) description: Description,
    /// How much fuel each function may use.
    pub(crate) budget: u64,
}
