//! The words of a question.
use crate::unanswered::Unanswered;
use std::alloc::Global;

/// The first word and what stands behind it.
pub fn cut(text: &str) -> (&str, &str) {
    text.split_once(' ').unwrap_or((text, ""))
}

/// A number of 64 bits, in decimal.
pub fn long(word: &str) -> Result<u64, Unanswered> {
    word.parse::<u64>().ok().ok_or(Unanswered::Unknown)
}

/// A number of 32 bits, in decimal.
pub fn short(word: &str) -> Result<u32, Unanswered> {
    word.parse::<u32>().ok().ok_or(Unanswered::Unknown)
}

/// A number of 64 bits, in hexadecimal.
pub fn hexadecimal(word: &str) -> Result<u64, Unanswered> {
    u64::from_str_radix(word, 16)
        .ok()
        .ok_or(Unanswered::Unknown)
}

/// A unit of bytes in hexadecimal, and how many times it stands there: `0240*1024`, or a unit by itself.
fn add_run(alloc: Global, bytes: &mut Vec<u8>, run: &str) -> Result<(), Unanswered> {
    let (unit, times) = match run.split_once('*') {
        Some((unit, times)) => (unit, short(times)?),
        None => (run, 1),
    };
    let unit = hex::decode(alloc, unit).ok().ok_or(Unanswered::Unknown)?;
    for _ in 0..times {
        bytes.extend_from_slice(&unit)?;
    }
    Ok(())
}

/// Bytes in runs.
pub fn bytes_of(alloc: Global, runs: &str) -> Result<Vec<u8>, Unanswered> {
    let mut bytes = Vec::new(alloc);
    for run in runs.split(' ') {
        add_run(alloc, &mut bytes, run)?;
    }
    Ok(bytes)
}

/// Bytes in hexadecimal.
pub fn told_bytes(alloc: Global, bytes: &[u8]) -> Result<String, Unanswered> {
    Ok(hex::encode(alloc, bytes)?)
}
