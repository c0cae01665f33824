//! Segments that lead out of the table or the memory.

/// The first segment that doesn't fit, elements before data, by its position (WebAssembly Core 1.0, section 4.5.4).
#[derive(Clone, Copy, PartialEq, Eq, Debug)]
pub enum Misfit {
    /// An element segment leads out of the table.
    Element(u32),
    /// A data segment leads out of the memory.
    Data(u32),
}
