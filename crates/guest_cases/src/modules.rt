//! The module that is kept, and its changes.
use case_words::{Unanswered, bytes_of, cut, short};
use std::alloc::Global;
use wasm_reader::read_module;
use wasm_types::Module;

/// Keeps the module of these bytes: how many there are.
pub fn keep(alloc: Global, module: &mut Vec<u8>, rest: &str) -> Result<String, Unanswered> {
    *module = bytes_of(alloc, rest)?;
    let len = module.len();
    Ok(format!(in alloc; "{len} bytes")?)
}

/// Where bytes stand in others, for the first time.
fn place_of(bytes: &[u8], part: &[u8]) -> Option<usize> {
    for place in 0..bytes.len() {
        if bytes[place..].starts_with(part) {
            return Some(place);
        }
    }
    None
}

/// The bytes of a text, or behind `0x` those of the digits.
fn part_of(alloc: Global, word: &str) -> Result<Vec<u8>, Unanswered> {
    match word.strip_prefix("0x") {
        Some(digits) => bytes_of(alloc, digits),
        None => Ok(Vec::from_slice(alloc, word.as_bytes())?),
    }
}

/// The module with another byte: `BYTE OFFSET PART`, where the offset is from the first place of the part. Nothing
/// leaves it as it is.
pub fn changed(alloc: Global, module: &[u8], change: &str) -> Result<Vec<u8>, Unanswered> {
    let mut bytes = Vec::from_slice(alloc, module)?;
    if change.is_empty() {
        return Ok(bytes);
    }
    let (byte, rest) = cut(change);
    let (offset, part) = cut(rest);
    let byte = u8::from_str_radix(byte, 16)
        .ok()
        .ok_or(Unanswered::Unknown)?;
    let offset = short(offset)? as usize;
    let part = part_of(alloc, part)?;
    let place = place_of(&bytes, &part).ok_or(Unanswered::Unknown)?;
    match bytes.get_mut(place.saturating_add(offset)) {
        Some(old) => *old = byte,
        None => return Err(Unanswered::Unknown),
    }
    Ok(bytes)
}

/// The module of these bytes.
pub fn read(alloc: Global, bytes: &[u8]) -> Result<Module, Unanswered> {
    read_module(alloc, bytes).ok().ok_or(Unanswered::Unknown)
}
