//! Functions: their types, and their bodies.
ghost use Rattle.std.specs.Prelude.{◌≡◌, ◌<◌, ◌^◌, ◌++◌, length, OnOk};
ghost use Rattle.wasm_writer.specs.Sizes.{index_some, body_some};
ghost use Rattle.wasm_writer.specs.FlatTexts.{index_text, flat_content_text, flat_body_text};

use crate::code::Instruction;
use crate::locals::{locals_len, write_locals};
use crate::numbers::{number_len, write_number};
use crate::shape::{Shape, items_len, write_items};
use std::alloc::{AllocError, Global};
use wasm_types::Func;

/// Functions by their types.
pub struct Declared;

impl Shape for Declared {
    type Item = Func;

    ghost text = { index_text };

    ghost fits = { λ _. Unit {0} };

    fn len(item: &Func) -> usize {
        number_len(item.ty as usize)
    }

    fn write(alloc: Global, out: &mut Vec<u8>, item: &Func) -> Result<(), AllocError> {
        write_number(alloc, out, item.ty as usize)
    }

    ghost takes_bytes = { index_some };
}

// The bytes of a body behind its size.
fn content_len(func: &Func) -> usize
    requires { length (flat_content_text func.now) < 2 ^ 32 }
    ensures { result ≡ length (flat_content_text func.now) }
{
    locals_len(func.locals.as_slice()) + items_len::<Instruction>(func.body.as_slice())
}

/// Functions by their bodies.
pub struct Body;

impl Shape for Body {
    type Item = Func;

    ghost text = { flat_body_text };

    ghost fits = { λ f. length f.locals < 2 ^ 32 };

    fn len(item: &Func) -> usize {
        let size = content_len(item);
        number_len(size) + size
    }

    fn write(alloc: Global, out: &mut Vec<u8>, item: &Func) -> Result<(), AllocError> {
        write_number(alloc, out, content_len(item))?;
        write_locals(alloc, out, item.locals.as_slice())?;
        write_items::<Instruction>(alloc, out, item.body.as_slice())
    }

    ghost takes_bytes = { body_some };
}
