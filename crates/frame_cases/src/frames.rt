//! Frames: read, made from their parts, and copied.
use can_frame::{Bytes, Frame, FrameError, Kind};
use case_words::{Unanswered, bytes_of, cut, told_bytes};
use std::alloc::Global;

/// An identifier, in hexadecimal.
pub fn identifier(word: &str) -> Result<u32, Unanswered> {
    u32::from_str_radix(word, 16)
        .ok()
        .ok_or(Unanswered::Unknown)
}

/// The frame with this text.
pub fn frame_of(alloc: Global, text: &str) -> Result<Frame, Unanswered> {
    Frame::read(alloc, text.as_bytes())?.ok_or(Unanswered::Unknown)
}

/// The text of ASCII bytes.
pub fn text_of(bytes: Vec<u8>) -> Result<String, Unanswered> {
    String::from_utf8(bytes).ok().ok_or(Unanswered::Unknown)
}

/// The text of a frame.
pub fn told_frame(alloc: Global, frame: &Frame) -> Result<String, Unanswered> {
    text_of(frame.print(alloc)?)
}

/// The bytes in hexadecimal; a dash for none.
pub fn told_or_dash(alloc: Global, bytes: &[u8]) -> Result<String, Unanswered> {
    if bytes.is_empty() {
        return Ok(String::from_str(alloc, "-")?);
    }
    told_bytes(alloc, bytes)
}

fn name_of(kind: Kind) -> &'static str {
    match kind {
        Kind::Data => "data",
        Kind::Remote => "remote",
        Kind::Fd { brs, esi } => match (brs, esi) {
            (false, false) => "fd",
            (true, false) => "fd-brs",
            (false, true) => "fd-esi",
            (true, true) => "fd-brs-esi",
        },
    }
}

fn kind_of(word: &str) -> Result<Kind, Unanswered> {
    let (brs, esi) = match word {
        "data" => return Ok(Kind::Data),
        "remote" => return Ok(Kind::Remote),
        "fd" => (false, false),
        "fd-brs" => (true, false),
        "fd-esi" => (false, true),
        "fd-brs-esi" => (true, true),
        _ => return Err(Unanswered::Unknown),
    };
    Ok(Kind::Fd { brs, esi })
}

fn is_extended(word: &str) -> Result<bool, Unanswered> {
    match word {
        "base" => Ok(false),
        "extended" => Ok(true),
        _ => Err(Unanswered::Unknown),
    }
}

/// Its identifier, its format, its kind and its data.
fn told_parts(alloc: Global, frame: &Frame) -> Result<String, Unanswered> {
    let id = frame.id();
    let format = if frame.ext() { "extended" } else { "base" };
    let kind = name_of(frame.kind());
    let bytes = told_or_dash(alloc, frame.bytes().as_slice())?;
    Ok(format!(in alloc; "{id:x} {format} {kind} {bytes}")?)
}

fn parts_in(alloc: Global, text: &[u8]) -> Result<String, Unanswered> {
    match Frame::read(alloc, text)? {
        Some(frame) => told_parts(alloc, &frame),
        None => Ok(String::from_str(alloc, "none")?),
    }
}

/// The parts of the frame with a text, or none.
pub fn frame(alloc: Global, rest: &str) -> Result<String, Unanswered> {
    parts_in(alloc, rest.as_bytes())
}

/// The same of a text that is given as bytes in hexadecimal.
pub fn frame_in(alloc: Global, rest: &str) -> Result<String, Unanswered> {
    let text = bytes_of(alloc, rest)?;
    parts_in(alloc, &text)
}

fn fault(alloc: Global, error: FrameError) -> Result<String, Unanswered> {
    let name = match error {
        FrameError::Id => "Id",
        FrameError::Length => "Length",
        FrameError::RemoteData => "RemoteData",
    };
    Ok(String::from_str(alloc, name)?)
}

/// The text of the frame with these parts, or their first fault: `123 base data 0a0b`.
pub fn make(alloc: Global, rest: &str) -> Result<String, Unanswered> {
    let (id, rest) = cut(rest);
    let (format, rest) = cut(rest);
    let (kind, runs) = cut(rest);
    let id = identifier(id)?;
    let ext = is_extended(format)?;
    let kind = kind_of(kind)?;
    let bytes = Bytes::of(bytes_of(alloc, runs)?);
    match Frame::new(id, ext, kind, bytes) {
        Ok(frame) => told_frame(alloc, &frame),
        Err(error) => fault(alloc, error),
    }
}

/// The text of the copy of a frame.
pub fn copy(alloc: Global, rest: &str) -> Result<String, Unanswered> {
    let frame = frame_of(alloc, rest)?;
    told_frame(alloc, &frame.copy(alloc)?)
}
