//! Reading a frame from its text.
ghost use Rattle.std.specs.Prelude.{◌≡◌, ◌<◌, ◌≤◌, IfOk, IfSome, Some, length, option_map};
ghost use Rattle.frame_specs.specs.Frame.{Frame as frame};
ghost use Rattle.frame_specs.specs.FrameReading.{Spells, frame_of, digit_of, number_from, cut as cut_of, format_of, fd_kind_of, with_kind as with_kind_of, content_of};
ghost use Rattle.can_frame.specs.Kinds.{kind_of};

use crate::{Bytes, Frame, Kind};
use std::alloc::{AllocError, Global};

impl Frame {
    /// The frame with this text; None exactly where no frame has it. Digits are in lower case.
    ///
    /// - `123#0a0b`: a data frame in base format, of two bytes
    /// - `1fffffff#`: a data frame in extended format, of no byte
    /// - `123#R`: a remote frame
    /// - `123##1112233`: an FD frame with BRS, of three bytes
    pub fn read(alloc: Global, text: &[u8]) -> Result<Option<Frame>, AllocError>
        // What is read has this text.
        ensures found { IfOk result (λ o. IfSome o (λ f. Spells text.now f)) }

        // Each frame with this text is read, unless memory runs out.
        ensures only { (f : frame) → Spells text.now f → IfOk result (λ o. o ≡ Some f) }
        ensures exact { IfOk result (λ o. o ≡ frame_of text.now) }
    {
        Ok(frame_in(alloc, text)?)
    }
}

/// The frame that a text spells, part by part.
#[tactic(auto, unfolding(frame_specs::specs::FrameReading::frame_of))]
fn frame_in(alloc: Global, text: &[u8]) -> Result<Option<Frame>, AllocError>
    ensures { IfOk result (λ o. o ≡ frame_of text.now) }
{
    let Some((digits, rest)) = cut(text) else {
        return Ok(None);
    };
    let Some(ext) = format(digits.len()) else {
        return Ok(None);
    };
    let Some(id) = number(digits) else {
        return Ok(None);
    };
    let Some((kind, bytes)) = content(alloc, rest)? else {
        return Ok(None);
    };
    match Frame::new(id, ext, kind, bytes) {
        Ok(frame) => Ok(Some(frame)),
        Err(_) => Ok(None),
    }
}

/// What stands before the first `#`, and what behind it.
fn cut(text: &[u8]) -> Option<(&[u8], &[u8])>
    ensures { option_map (λ p. (p.0.now, p.1.now)) result ≡ cut_of 35 text.now }
{
    for (i, byte) in text.iter().enumerate() {
        if *byte == b'#' {
            return Some((&text[..i], &text[i + 1..]));
        }
    }
    None
}

/// Whether an identifier of so many digits has extended format.
fn format(digits: usize) -> Option<bool>
    ensures { result ≡ format_of digits }
{
    match digits {
        3 => Some(false),
        8 => Some(true),
        _ => None,
    }
}

fn digit(byte: u8) -> Option<u8>
    ensures value { result ≡ digit_of byte }
    ensures small { IfSome result (λ d. d < 16) }
{
    match byte {
        b'0'..=b'9' => Some(byte - b'0'),
        b'a'..=b'f' => Some(byte - b'a' + 10),
        _ => None,
    }
}

fn number(digits: &[u8]) -> Option<u32>
    requires { length digits.now ≤ 8 }
    ensures { result ≡ number_from 0 digits.now }
{
    let mut value = 0u32;
    for byte in digits {
        value = 16 * value + u32::from(digit(*byte)?);
    }
    Some(value)
}

/// The kind and the data that stand behind the identifier and its `#`.
fn content(alloc: Global, text: &[u8]) -> Result<Option<(Kind, Bytes)>, AllocError>
    ensures { IfOk result (λ o. option_map (λ c. (kind_of c.0, c.1)) o ≡ content_of text.now) }
{
    match text {
        [b'R'] => Ok(Some((Kind::Remote, Bytes::of(Vec::new(alloc))))),
        [b'#', flags, pairs @ ..] => match fd_kind(*flags) {
            Some(kind) => with_kind(alloc, kind, pairs),
            None => Ok(None),
        },
        _ => with_kind(alloc, Kind::Data, text),
    }
}

/// The kind of an FD frame by its digit, 1 for BRS plus 2 for ESI.
fn fd_kind(byte: u8) -> Option<Kind>
    ensures { option_map kind_of result ≡ fd_kind_of byte }
{
    let flags = digit(byte)?;
    if flags < 4 {
        Some(Kind::Fd {
            brs: flags % 2 == 1,
            esi: flags >= 2,
        })
    } else {
        None
    }
}

fn with_kind(alloc: Global, kind: Kind, text: &[u8]) -> Result<Option<(Kind, Bytes)>, AllocError>
    ensures { IfOk result (λ o. option_map (λ c. (kind_of c.0, c.1)) o ≡ with_kind_of (kind_of kind) text.now) }
{
    match Bytes::read(alloc, text)? {
        Some(bytes) => Ok(Some((kind, bytes))),
        None => Ok(None),
    }
}
