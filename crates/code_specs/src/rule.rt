//! Why a module is invalid.

/// A rule of validity (WebAssembly Core 1.0, section 3), in the order in which they are looked at: module first, then
/// bodies.
#[derive(Clone, Copy, PartialEq, Eq, Debug)]
pub enum Rule {
    /// A function type has one result at most.
    TypeResult,
    /// The type of a function is there.
    FuncType,
    /// There is one table at most and one memory at most, no least size is over its greatest, and no memory may grow
    /// over 65,536 pages.
    Limits,
    /// The constant of a global has the global's type.
    Global,
    /// What is exported is there, under a name of its own.
    Export,
    /// The function that runs first is there, without parameters and result.
    Start,
    /// An element segment has a table, an offset of type i32, and functions that are there.
    Element,
    /// A data segment has a memory and an offset of type i32.
    Data,
    /// What an instruction names is there: a local, global, function, type, label, table or memory; and a global that
    /// is set is mutable.
    Index,
    /// The alignment of a load or store isn't over its width.
    Align,
    /// An instruction finds its operands, and the end of a list finds exactly the list's result.
    Operand,
    /// A frame has room for its locals and operands.
    Slots,
}
