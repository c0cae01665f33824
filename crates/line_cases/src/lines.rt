//! The lines of a log, and the numbers and the parts of texts.
use crate::texts::{or_dash, spelled, text_of, word};
use bus_log::read_line;
use case_words::{Unanswered, cut, long};
use log_lines::{Line, print_line};
use plain_text::{number_in, parts};
use std::alloc::Global;

/// The number that a text spells, from one number to another: `LOW HIGH TEXT`.
pub fn number(alloc: Global, rest: &str) -> Result<String, Unanswered> {
    let (low, rest) = cut(rest);
    let (high, text) = cut(rest);
    match number_in(long(low)?, long(high)?, text.as_bytes()) {
        Some(number) => Ok(format!(in alloc; "{number}")?),
        None => word(alloc, "none"),
    }
}

/// The parts of a text between its commas, a line each.
pub fn told_parts(alloc: Global, rest: &str) -> Result<String, Unanswered> {
    let mut text = Vec::new(alloc);
    for part in parts(alloc, b',', rest.as_bytes())? {
        text.extend_from_slice(part)?;
        text.push(b'\n')?;
    }
    spelled(alloc, &text)
}

/// The moment, the bus and the node of a line, and its text.
fn told_line(alloc: Global, line: &Line) -> Result<String, Unanswered> {
    let moment = or_dash(alloc, line.moment())?;
    let bus = or_dash(alloc, line.bus().map(u64::from))?;
    let node = or_dash(alloc, line.node().map(u64::from))?;
    let text = spelled(alloc, &print_line(alloc, line)?)?;
    Ok(format!(in alloc; "{moment} {bus} {node}: {text}")?)
}

/// The line whose text this is.
pub fn read(alloc: Global, rest: &str) -> Result<String, Unanswered> {
    let text = text_of(alloc, rest)?;
    match read_line(alloc, text.as_bytes())? {
        Some(line) => told_line(alloc, &line),
        None => word(alloc, "none"),
    }
}
