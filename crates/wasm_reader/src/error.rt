//! Why bytes are no module.
ghost use Rattle.std.specs.Prelude.{◌≡◌};
ghost use Rattle.wasm_reader.specs.Outcome.{error_of};

use module_specs::Fault;

/// The first item from the left that can't be read. The number is its place: the offset of the item's first byte from
/// the beginning of the file, where no other place is named.
#[derive(Clone, Copy, PartialEq, Eq, Debug)]
pub enum ReadError {
    /// An item doesn't fit before the end of the file, or of its section or body. The place is that end; for a section
    /// whose size leads past the file it is the end that the size states.
    Short(usize),
    /// The file is over 4 MiB, and the place is 4,194,304; or the content of a section or body ends before its stated
    /// size, and the place is the section's id byte or the body's size.
    Size(usize),
    /// The first four bytes aren't `00 61 73 6D`, or there are fewer. The place is 0.
    Magic(usize),
    /// The next four bytes aren't `01 00 00 00`, or there are fewer. The place is 4.
    Version(usize),
    /// An unknown section id.
    Section(usize),
    /// A section id that doesn't rise.
    Order(usize),
    /// A LEB128 number with a fault other than that its bytes end.
    Number(usize),
    /// An import section with imports. The place is its id byte.
    Import(usize),
    /// A float type, opcode or constant.
    Float(usize),
    /// Another byte than those allowed for a type, a limit, a kind, mutability or a constant expression, or a segment's
    /// index other than 0.
    Form(usize),
    /// A name that isn't UTF-8. The place is that of its length.
    Utf8(usize),
    /// An unknown opcode, or another byte than 00 where 00 stands.
    Opcode(usize),
    /// An else outside an if, or a second one.
    Nesting(usize),
    /// The numbers of functions and bodies differ. The place is the code section's id byte, else the file's length.
    Count(usize),
    /// A least size over its limit, 256 pages or 65,536 table entries; nesting over 1,024, at the opcode; or over 4,096
    /// locals, at the body's size.
    Limit(usize),
    /// Want of memory.
    Memory,
}

// The error that names a fault.
pub fn read_error(fault: Fault) -> ReadError
    ensures { result ≡ error_of fault }
{
    match fault {
        Fault::Short(at) => ReadError::Short(at),
        Fault::Size(at) => ReadError::Size(at),
        Fault::Magic(at) => ReadError::Magic(at),
        Fault::Version(at) => ReadError::Version(at),
        Fault::Section(at) => ReadError::Section(at),
        Fault::Order(at) => ReadError::Order(at),
        Fault::Number(at) => ReadError::Number(at),
        Fault::Import(at) => ReadError::Import(at),
        Fault::Float(at) => ReadError::Float(at),
        Fault::Form(at) => ReadError::Form(at),
        Fault::Utf8(at) => ReadError::Utf8(at),
        Fault::Opcode(at, _) => ReadError::Opcode(at),
        Fault::Nesting(at) => ReadError::Nesting(at),
        Fault::Count(at) => ReadError::Count(at),
        Fault::Limit(at) => ReadError::Limit(at),
        Fault::Memory => ReadError::Memory,
    }
}
