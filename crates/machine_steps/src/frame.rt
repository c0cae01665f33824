//! What a machine keeps of the lists and calls that aren't done.
use wasm_types::ValType;

/// An open list of instructions: where a branch to it leads.
#[derive(Clone, Copy)]
pub struct Label {
    /// The position of the instruction that comes next.
    pub target: usize,
    /// How many values stay below those that the branch carries.
    pub height: usize,
    /// The type of the value that the branch carries, if it carries one.
    pub carries: Option<ValType>,
    /// Whether the list is open again behind the branch, as that of a loop is.
    pub again: bool,
}

/// A function that waits for one that it called: what it goes on with.
#[derive(Clone, Copy)]
pub struct Frame {
    /// The index of the function.
    pub func: u32,
    /// The position of the instruction behind the call.
    pub position: usize,
    /// The place of its first local among the values, counted from below.
    pub base: usize,
    /// How many of its lists are open.
    pub depth: usize,
}
