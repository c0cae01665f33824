//! Texts of many lines, as a question writes them in one.
use case_words::{Unanswered, short};
use std::alloc::Global;

/// A text in which `\n` is a line end, and how many times it stands there: `name = 1\n*3`, or a text by itself.
fn add_piece(alloc: Global, text: &mut String, piece: &str) -> Result<(), Unanswered> {
    let (unit, times) = match piece.split_once('*') {
        Some((unit, times)) => (unit, short(times)?),
        None => (piece, 1),
    };
    let unit = unit.replace(alloc, "\\n", "\n")?;
    for _ in 0..times {
        text.push_str(&unit)?;
    }
    Ok(())
}

/// A text in pieces, a bar between two.
pub fn text_of(alloc: Global, pieces: &str) -> Result<String, Unanswered> {
    let mut text = String::new(alloc);
    for piece in pieces.split('|') {
        add_piece(alloc, &mut text, piece)?;
    }
    Ok(text)
}

fn changed(alloc: Global, kept: &str, old: &str, new: &str) -> Result<String, Unanswered> {
    let old = text_of(alloc, old)?;
    let new = text_of(alloc, new)?;
    Ok(kept.replacen(alloc, old.as_str(), &new, 1)?)
}

/// The text that a question is about: the kept one with its first OLD changed, another one, or the kept one itself.
pub fn asked(alloc: Global, kept: &str, rest: &str) -> Result<String, Unanswered> {
    match rest.split_once(" -> ") {
        Some((old, new)) => changed(alloc, kept, old, new),
        None if rest.is_empty() => Ok(String::from_str(alloc, kept)?),
        None => text_of(alloc, rest),
    }
}

/// A text of these bytes.
pub fn told(alloc: Global, bytes: &[u8]) -> Result<String, Unanswered> {
    let text = std::str::from_utf8(bytes).ok().ok_or(Unanswered::Unknown)?;
    Ok(String::from_str(alloc, text)?)
}

/// A word by itself.
pub fn word(alloc: Global, word: &str) -> Result<String, Unanswered> {
    Ok(String::from_str(alloc, word)?)
}
