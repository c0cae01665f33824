//! Why bytes are no body.
ghost use Rattle.std.specs.Prelude.{◌≡◌};
ghost use Rattle.wasm_code.specs.Faults.{fault_of, HasError};

use module_specs::Fault;

/// The first item from the left that can't be read. The number is its place: the offset of the item's first byte, where
/// no other place is named.
#[derive(Clone, Copy, PartialEq, Eq, Debug)]
pub enum CodeError {
    /// An unknown opcode, or another byte than 00 where 00 stands; the byte.
    Opcode(usize, u8),
    /// A float type, opcode or constant.
    Float(usize),
    /// Another byte than those allowed for a type.
    Form(usize),
    /// An else outside an if, or a second one.
    Nesting(usize),
    /// A LEB number with a fault other than that its bytes end.
    Number(usize),
    /// An item doesn't fit before the end of the body, or the body before the end of its section. The place is that end.
    Short(usize),
    /// The code ends before the body's stated size, which is the place.
    Size(usize),
    /// Nesting over 1,024, at the opcode; or over 4,096 locals, at the body's size.
    Limit(usize),
    /// Want of memory.
    Memory,
}

// A fault of a body as the error that names it.
pub fn code_error(fault: Fault) -> CodeError
    requires { HasError fault }
    ensures { fault_of result ≡ fault }
{
    match fault {
        Fault::Opcode(at, byte) => CodeError::Opcode(at, byte),
        Fault::Float(at) => CodeError::Float(at),
        Fault::Form(at) => CodeError::Form(at),
        Fault::Nesting(at) => CodeError::Nesting(at),
        Fault::Number(at) => CodeError::Number(at),
        Fault::Short(at) => CodeError::Short(at),
        Fault::Size(at) => CodeError::Size(at),
        Fault::Limit(at) => CodeError::Limit(at),
        _ => CodeError::Memory,
    }
}
