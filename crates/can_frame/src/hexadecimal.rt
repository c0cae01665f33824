//! Bytes in hexadecimal, two digits a byte, in lower case.
ghost use Rattle.std.specs.Prelude.{◌≡◌, IfOk, option_map};
ghost use Rattle.std.specs.List.{list_any};
ghost use Rattle.frame_specs.specs.FrameText.{hex_bytes};
ghost use Rattle.frame_specs.specs.FrameReading.{bytes_of};
ghost use Rattle.can_frame.specs.UpperCase.{is_upper as is_upper_of};

use crate::Bytes;
use hex::FromHexError;
use std::alloc::{AllocError, Global};

impl Bytes {
    /// The bytes in hexadecimal, two digits a byte, in lower case.
    pub fn print(&self, alloc: Global) -> Result<Vec<u8>, AllocError>
        ensures { IfOk result (λ v. v.items ≡ hex_bytes self.now) }
    {
        digits(alloc, self.as_slice())
    }

    /// The bytes that pairs of digits in lower case spell; None where a text is no such pairs.
    pub fn read(alloc: Global, text: &[u8]) -> Result<Option<Bytes>, AllocError>
        ensures { IfOk result (λ o. o ≡ bytes_of text.now) }
    {
        if has_upper(text) {
            return Ok(None);
        }
        match hex::decode(alloc, text) {
            Ok(bytes) => Ok(Some(Bytes::of(bytes))),
            Err(error) => match error {
                FromHexError::OutOfMemory => Err(AllocError),
                _ => Ok(None),
            },
        }
    }
}

fn digits(alloc: Global, bytes: &[u8]) -> Result<Vec<u8>, AllocError>
    ensures { IfOk result (λ v. v.items ≡ hex_bytes bytes.now) }
{
    let digits = hex::encode(alloc, bytes)?;
    digits.as_bytes().to_vec(alloc)
}

fn has_upper(text: &[u8]) -> bool
    ensures { result ≡ list_any is_upper_of text.now }
{
    text.iter().any(|byte| is_upper(*byte))
}

/// Whether a byte is one of the digits A to F.
fn is_upper(byte: u8) -> bool
    ensures { result ≡ is_upper_of byte }
{
    matches!(byte, b'A'..=b'F')
}
