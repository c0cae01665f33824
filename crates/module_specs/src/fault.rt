//! Why bytes are no module.

ghost use Rattle.std.specs.Prelude.{◌≡◌};
ghost use Rattle.module_specs.specs.declared.fault.Fault.TheVariants.{Memory};

use std::alloc::{AllocError, AllocFailed};

/// The first item from the left that can't be read. The number is its place: the offset of the item's first byte from
/// the beginning of the file, where no other place is named.
#[derive(Clone, Copy, PartialEq, Eq, Debug)]
pub enum Fault {
    /// An item doesn't fit before the end of the file, or of its section or body. The place is that end; for a section
    /// whose size leads past the file it is the end that the size states.
    Short(usize),
    /// The file is over its limit, which is the place; or the content of a section or body ends before its stated size,
    /// and the place is the section's id byte or the body's size.
    Size(usize),
    /// The first four bytes aren't those of a module.
    Magic(usize),
    /// The next four bytes aren't those of version 1.
    Version(usize),
    /// An unknown section id.
    Section(usize),
    /// A section id that doesn't rise.
    Order(usize),
    /// A LEB number with a fault other than that its bytes end.
    Number(usize),
    /// An import section with imports. The place is its id byte.
    Import(usize),
    /// A float type, opcode or constant.
    Float(usize),
    /// Another byte than those allowed for a type, a limit, a kind, mutability or a constant expression, or a segment's
    /// index other than 0.
    Form(usize),
    /// A name that isn't UTF-8. The place is that of its length.
    Utf8(usize),
    /// An unknown opcode, or another byte than 00 where 00 stands; the byte.
    Opcode(usize, u8),
    /// An else outside an if, or a second one.
    Nesting(usize),
    /// The numbers of functions and bodies differ. The place is the code section's id byte, else the file's length.
    Count(usize),
    /// A least size over its limit; nesting over its limit, at the opcode; or locals over their limit, at the body's
    /// size.
    Limit(usize),
    /// Want of memory. No definition gives it.
    Memory,
}

impl From<AllocError> for Fault {
    ghost from_gives = { λ _ e. e ≡ Memory };

    fn from(_e: AllocError) -> Fault {
        Fault::Memory
    }
}

impl<T: Drop> From<AllocFailed<T>> for Fault {
    ghost from_gives = { λ _ e. e ≡ Memory };

    fn from(_e: AllocFailed<T>) -> Fault {
        Fault::Memory
    }
}
