//! Texts of several lines in one: a line feed is spelled `\n`.
use case_words::Unanswered;
use std::alloc::Global;

/// The text that is spelled.
pub fn text_of(alloc: Global, spelled: &str) -> Result<String, Unanswered> {
    Ok(spelled.replace(alloc, "\\n", "\n")?)
}

/// The spelling of a text.
pub fn spelled(alloc: Global, text: &[u8]) -> Result<String, Unanswered> {
    let text = str::from_utf8(text).ok().ok_or(Unanswered::Unknown)?;
    Ok(text.replace(alloc, "\n", "\\n")?)
}

/// The number, or a dash for none.
pub fn or_dash(alloc: Global, number: Option<u64>) -> Result<String, Unanswered> {
    match number {
        Some(number) => Ok(format!(in alloc; "{number}")?),
        None => Ok(String::from_str(alloc, "-")?),
    }
}

/// A text of its own.
pub fn word(alloc: Global, word: &str) -> Result<String, Unanswered> {
    Ok(String::from_str(alloc, word)?)
}

/// Puts a part behind the others, if there are others.
pub fn push_part(text: &mut String, part: &str) -> Result<(), Unanswered> {
    if !text.is_empty() {
        text.push_str("; ")?;
    }
    text.push_str(part)?;
    Ok(())
}
