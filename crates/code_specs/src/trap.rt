//! Why execution is aborted.

/// A trap (WebAssembly Core 1.0, section 4.2.2).
#[derive(Clone, Copy, PartialEq, Eq, Debug)]
pub enum TrapKind {
    /// unreachable was executed.
    Unreachable,
    /// A load or store leads out of the memory.
    Memory,
    /// An integer was divided by zero.
    ZeroDivide,
    /// The quotient of two signed integers is none of their width.
    Overflow,
    /// call_indirect: the index lies outside the table.
    Table,
    /// call_indirect: the table has no function there.
    Null,
    /// call_indirect: the function has another type.
    Signature,
    /// A call from the last frame that there may be.
    Depth,
}

/// Where an integer operator is undefined (WebAssembly Core 1.0, section 4.3.2).
#[derive(Clone, Copy, PartialEq, Eq, Debug)]
pub enum NumTrap {
    /// Division by zero.
    ZeroDivide,
    /// The quotient of two signed integers is none of their width.
    Overflow,
}
