//! The kinds of sections.

/// The kind of a section, by rising id from 0 (WebAssembly Core 1.0, section 5.5.2).
#[derive(Clone, Copy, PartialEq, Eq, Debug)]
pub enum SectionKind {
    /// A name, and bytes that are left unread.
    Custom,
    /// Function types.
    Type,
    /// Imports.
    Import,
    /// The functions' type indices.
    Function,
    /// Tables.
    Table,
    /// Memories.
    Memory,
    /// Globals.
    Global,
    /// Exports.
    Export,
    /// The function that runs first.
    Start,
    /// Element segments.
    Element,
    /// The functions' bodies.
    Code,
    /// Data segments.
    Data,
}
