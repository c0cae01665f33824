//! The lists that public types hold.
use crate::frames::{text_of, told_or_dash};
use can_frame::{Bytes, Name, Numbers};
use case_words::{Unanswered, bytes_of, short, told_bytes};
use std::alloc::Global;

/// How many bytes a text spells, their text, and they themselves.
fn told_read(alloc: Global, text: &[u8]) -> Result<String, Unanswered> {
    let Some(bytes) = Bytes::read(alloc, text)? else {
        return Ok(String::from_str(alloc, "none")?);
    };
    let count = bytes.as_slice().len();
    let printed = text_of(bytes.print(alloc)?)?;
    let items = told_or_dash(alloc, &bytes.into_vec())?;
    Ok(format!(in alloc; "{count} {printed} {items}")?)
}

/// How many bytes a text spells, their text, and they themselves; or none.
pub fn bytes(alloc: Global, rest: &str) -> Result<String, Unanswered> {
    told_read(alloc, rest.as_bytes())
}

/// The same of a text that is given as bytes in hexadecimal.
pub fn bytes_in(alloc: Global, rest: &str) -> Result<String, Unanswered> {
    let text = bytes_of(alloc, rest)?;
    told_read(alloc, &text)
}

/// Numbers, each behind a space.
fn told_numbers(alloc: Global, numbers: &[u32]) -> Result<String, Unanswered> {
    let mut text = String::new(alloc);
    for number in numbers {
        let part = format!(in alloc; " {number}")?;
        text.push_str(&part)?;
    }
    Ok(text)
}

/// The numbers of a list as a slice, and as a vector.
pub fn numbers(alloc: Global, rest: &str) -> Result<String, Unanswered> {
    let mut items = Vec::new(alloc);
    for word in rest.split(' ') {
        items.push(short(word)?)?;
    }
    let list = Numbers::of(items);
    let slice = told_numbers(alloc, list.as_slice())?;
    let vector = told_numbers(alloc, &list.into_vec())?;
    Ok(format!(in alloc; "slice{slice} vector{vector}")?)
}

/// The bytes of a name as a slice, and as a vector; or none.
pub fn name(alloc: Global, rest: &str) -> Result<String, Unanswered> {
    let Some(name) = Name::of(bytes_of(alloc, rest)?) else {
        return Ok(String::from_str(alloc, "none")?);
    };
    let slice = told_bytes(alloc, name.as_slice())?;
    let vector = told_bytes(alloc, &name.into_vec())?;
    Ok(format!(in alloc; "slice {slice} vector {vector}")?)
}
