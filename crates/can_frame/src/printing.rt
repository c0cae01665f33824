//! Printing a frame: `123#0a0b`, `1fffffff#R`, `123##1112233`.
ghost use Rattle.std.specs.Prelude.{◌≡◌, ◌<◌, ◌≤◌, ◌++◌, IfOk, OnOk};
ghost use Rattle.frame_specs.specs.FrameText.{frame_text, flag, hex, hex_digit as digit_of};

use crate::{Frame, Kind};
use std::alloc::{AllocError, Global};

impl Frame {
    /// The text of the frame: the identifier in three or eight hexadecimal digits, `#`, and two digits for each byte.
    /// A remote frame has `R` there. An FD frame has another `#` and one digit before its data: 1 for BRS plus 2 for ESI.
    pub fn print(&self, alloc: Global) -> Result<Vec<u8>, AllocError>
        ensures { IfOk result (λ v. v.items ≡ frame_text self.now) }
    {
        let mut text = Vec::new(alloc);
        push_number(&mut text, self.id(), if self.ext() { 8 } else { 3 })?;
        text.push(b'#')?;
        match self.kind() {
            Kind::Data => text.extend_from_slice(&self.bytes().print(alloc)?)?,
            Kind::Remote => text.push(b'R')?,
            Kind::Fd { brs, esi } => {
                text.push(b'#')?;
                text.push(hex_digit(u8::from(brs) + 2 * u8::from(esi)))?;
                text.extend_from_slice(&self.bytes().print(alloc)?)?;
            }
        }
        Ok(text)
    }
}

fn hex_digit(value: u8) -> u8
    requires { value < 16 }
    ensures { result ≡ digit_of value }
{
    if value < 10 {
        b'0' + value
    } else {
        b'a' - 10 + value
    }
}

/// Adds the last digits of a number, the highest first.
fn push_number(text: &mut Vec<u8>, number: u32, width: u32) -> Result<(), AllocError>
    requires { width ≤ 8 }
    ensures { OnOk result (text.new.items ≡ text.old.items ++ hex width number) }
{
    let mut left = width;
    while left > 0 {
        left -= 1;
        text.push(hex_digit((number >> (4 * left) & 0xf) as u8))?;
    }
    Ok(())
}
