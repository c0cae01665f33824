//! Why a module isn't that of a unit.

/// The first export that is missing or of another type. The number is its row, from 0: the memory, and behind it the
/// functions in the order of `Function`.
#[derive(Clone, Copy, PartialEq, Eq, Debug)]
pub enum BindError {
    /// Nothing has the name.
    Missing(u32),
    /// What has the name is of another kind or type.
    Signature(u32),
}
